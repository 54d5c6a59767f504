//! Headings of operations, their parameters and types, and the formals of a concept.

ghost use Rattle.std.specs.Prelude.{◌≡◌, IfOk};

use crate::copying::{TryCopy, copy_items, copy_option};
use crate::expression::Expr;
use math_terms::{Name, NoMemory, both};
use sqlite_items::Items;
use std::alloc::Global;

/// A formal of a concept, with the place of its name: a type, or else an Integer.
#[derive(Drop)]
pub struct Formal {
    pub at: u32,
    pub name: Name,
    pub is_type: bool,
}

/// The heading of an operation. `at` is the place of `Operation`, in a realization's procedure that of the operation's name.
#[derive(Drop)]
pub struct Heading {
    pub at: u32,
    pub name: Name,
    pub params: Items<Param>,
    pub result: Option<PType>,
    pub requires_clause: Option<Expr>,
    pub ensures_clause: Option<Expr>,
}

/// A parameter, with the place of its name.
#[derive(Drop)]
pub struct Param {
    pub at: u32,
    pub mode: Mode,
    pub name: Name,
    pub ptype: PType,
}

/// How an operation uses a parameter.
#[derive(Clone, Copy, Debug, PartialEq, Eq)]
pub enum Mode {
    Alters,
    Clears,
    Evaluates,
    Preserves,
    Replaces,
    Restores,
    Updates,
}

/// A type of programs, with the place of its first word. Built-in types have their word as the name.
#[derive(Drop)]
pub struct PType {
    pub at: u32,
    pub facility: Option<Name>,
    pub name: Name,
}

impl TryCopy for Formal {
    fn copy(&self, alloc: Global) -> Result<Formal, NoMemory> {
        Ok(Formal {
            at: self.at,
            name: self.name.copy(alloc)?,
            is_type: self.is_type,
        })
    }
}

impl TryCopy for PType {
    fn copy(&self, alloc: Global) -> Result<PType, NoMemory> {
        let (facility, name) = both(copy_option(alloc, &self.facility), self.name.copy(alloc))?;
        Ok(PType {
            at: self.at,
            facility,
            name,
        })
    }
}

impl TryCopy for Param {
    fn copy(&self, alloc: Global) -> Result<Param, NoMemory> {
        let (name, ptype) = both(self.name.copy(alloc), self.ptype.copy(alloc))?;
        Ok(Param {
            at: self.at,
            mode: self.mode,
            name,
            ptype,
        })
    }
}

impl TryCopy for Heading {
    fn copy(&self, alloc: Global) -> Result<Heading, NoMemory> {
        let clauses = both(
            copy_option(alloc, &self.requires_clause),
            copy_option(alloc, &self.ensures_clause),
        );
        let params = both(
            copy_items(alloc, self.params.as_slice()),
            copy_option(alloc, &self.result),
        );
        let (name, (params, clauses)) = both(self.name.copy(alloc), both(params, clauses))?;
        Ok(Heading {
            at: self.at,
            name,
            params: params.0,
            result: params.1,
            requires_clause: clauses.0,
            ensures_clause: clauses.1,
        })
    }
}
