//! What a declaration of a facility binds.

ghost use Rattle.std.specs.Prelude.{◌≡◌, IfOk};

use math_terms::{Formula, Name, NoMemory, both};
use res_ast::{Mode, TryCopy, copy_items, copy_option};
use sqlite_items::Items;
use std::alloc::Global;
use type_inst::TypeInst;

/// What a declaration binds: the requires clause of the concept, over the Integer formals of the component from 1 on; the headings
/// of the concept and then of each enhancement; the types with their names.
#[derive(Drop)]
pub struct Bound {
    pub requires_clause: Option<Formula>,
    pub headings: Items<BoundHeading>,
    pub types: Items<(Name, TypeInst)>,
}

/// A heading of which the formals are bound. In its clauses the incoming values of the n parameters are the variables 1 to n, the
/// outgoing ones n + 1 to 2n, the result is 2n + 1, and the Integer formals of the component follow from 2n + 2 on.
#[derive(Drop)]
pub struct BoundHeading {
    pub name: Name,
    pub modes: Items<Mode>,
    pub types: Items<TypeInst>,
    pub result: Option<TypeInst>,
    pub requires_clause: Option<Formula>,
    pub ensures_clause: Option<Formula>,
}

impl TryCopy for Bound {
    fn copy(&self, alloc: Global) -> Result<Bound, NoMemory> {
        let lists = both(
            copy_items(alloc, self.headings.as_slice()),
            copy_items(alloc, self.types.as_slice()),
        );
        let (lists, requires_clause) = both(lists, copy_formula(alloc, &self.requires_clause))?;
        Ok(Bound {
            requires_clause,
            headings: lists.0,
            types: lists.1,
        })
    }
}

impl TryCopy for BoundHeading {
    fn copy(&self, alloc: Global) -> Result<BoundHeading, NoMemory> {
        let lists = both(
            copy_modes(alloc, self.modes.as_slice()),
            copy_items(alloc, self.types.as_slice()),
        );
        let types = both(lists, copy_option(alloc, &self.result));
        let clauses = both(
            copy_formula(alloc, &self.requires_clause),
            copy_formula(alloc, &self.ensures_clause),
        );
        let (name, (types, clauses)) = both(self.name.copy(alloc), both(types, clauses))?;
        let (lists, result) = types;
        Ok(BoundHeading {
            name,
            modes: lists.0,
            types: lists.1,
            result,
            requires_clause: clauses.0,
            ensures_clause: clauses.1,
        })
    }
}

fn copy_modes(alloc: Global, modes: &[Mode]) -> Result<Items<Mode>, NoMemory>
    ensures { IfOk result (λ ms. ms ≡ modes.now) }
{
    Ok(Items::from_slice(alloc, modes)?)
}

fn copy_formula(alloc: Global, f: &Option<Formula>) -> Result<Option<Formula>, NoMemory>
    ensures { IfOk result (λ g. g ≡ f.now) }
{
    match f {
        Some(f) => Ok(Some(f.copy(alloc)?)),
        None => Ok(None),
    }
}
