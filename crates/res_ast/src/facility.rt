//! Declarations of facilities.

ghost use Rattle.std.specs.Prelude.{◌≡◌, IfOk};

use crate::copying::{TryCopy, copy_items, copy_option};
use crate::heading::PType;
use math_terms::{Name, NoMemory, both};
use sqlite_items::Items;
use std::alloc::Global;

/// A facility, with the place of `Facility`. The realization is missing for the built-in arrays alone. `enhanced` has each
/// enhancement with its realization.
#[derive(Drop)]
pub struct FacDecl {
    pub at: u32,
    pub name: Name,
    pub concept: Name,
    pub args: Items<FacArg>,
    pub realization: Option<Name>,
    pub enhanced: Items<(Name, Name)>,
}

/// An argument of a facility: a type, or a number with its place. The name of a constant stands as a type.
#[derive(Drop)]
pub enum FacArg {
    OfType(PType),
    Number(u32, i64),
}

impl TryCopy for FacArg {
    fn copy(&self, alloc: Global) -> Result<FacArg, NoMemory> {
        match self {
            FacArg::OfType(ptype) => Ok(FacArg::OfType(ptype.copy(alloc)?)),
            FacArg::Number(at, n) => Ok(FacArg::Number(*at, *n)),
        }
    }
}

impl TryCopy for FacDecl {
    fn copy(&self, alloc: Global) -> Result<FacDecl, NoMemory> {
        let names = both(self.name.copy(alloc), self.concept.copy(alloc));
        let lists = both(
            copy_items(alloc, self.args.as_slice()),
            copy_items(alloc, self.enhanced.as_slice()),
        );
        let rest = both(copy_option(alloc, &self.realization), lists);
        let (names, (realization, lists)) = both(names, rest)?;
        Ok(FacDecl {
            at: self.at,
            name: names.0,
            concept: names.1,
            args: lists.0,
            realization,
            enhanced: lists.1,
        })
    }
}
