//! Families of types and their mathematical models.

ghost use Rattle.std.specs.Prelude.{◌≡◌, IfOk};

use crate::copying::{TryCopy, copy_items, copy_option};
use crate::expression::Expr;
use math_terms::{Name, NoMemory, both};
use sqlite_items::Items;
use std::alloc::Global;

/// A type family. `at` is the place of `Type`.
#[derive(Drop)]
pub struct Family {
    pub at: u32,
    pub name: Name,
    pub model: MType,
    pub exemplar: Name,
    pub constraint: Option<Expr>,
    pub initial: Expr,
}

/// A model, as the list of its parts: each string and each product stands behind the models that it is made of, as a machine
/// with a stack builds them. So a model of any depth is one list, and no call goes down it.
#[derive(Drop)]
pub struct MType {
    pub parts: Items<MPart>,
}

/// A part of a model: `Str` is made of the one model before it, `Prod` of as many as it has names, which stand before it in
/// their order, the others of none.
#[derive(Drop)]
pub enum MPart {
    Z,
    B,
    Str,
    Prod(Items<Name>),
    Param(Name),
}

impl TryCopy for Family {
    fn copy(&self, alloc: Global) -> Result<Family, NoMemory> {
        let names = both(self.name.copy(alloc), self.exemplar.copy(alloc));
        let clauses = both(
            copy_option(alloc, &self.constraint),
            self.initial.copy(alloc),
        );
        let (names, (model, clauses)) = both(names, both(self.model.copy(alloc), clauses))?;
        Ok(Family {
            at: self.at,
            name: names.0,
            model,
            exemplar: names.1,
            constraint: clauses.0,
            initial: clauses.1,
        })
    }
}

impl TryCopy for MType {
    fn copy(&self, alloc: Global) -> Result<MType, NoMemory> {
        Ok(MType {
            parts: copy_items(alloc, self.parts.as_slice())?,
        })
    }
}

impl TryCopy for MPart {
    fn copy(&self, alloc: Global) -> Result<MPart, NoMemory> {
        match self {
            MPart::Z => Ok(MPart::Z),
            MPart::B => Ok(MPart::B),
            MPart::Str => Ok(MPart::Str),
            MPart::Prod(names) => Ok(MPart::Prod(copy_items(alloc, names.as_slice())?)),
            MPart::Param(name) => Ok(MPart::Param(name.copy(alloc)?)),
        }
    }
}
