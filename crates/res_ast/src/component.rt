//! Components: what a file is made of. Each stands at its first word, and has its names in text order.

ghost use Rattle.std.specs.Prelude.{◌≡◌, IfOk};

use crate::copying::{TryCopy, copy_items, copy_option};
use crate::expression::Expr;
use crate::facility::FacDecl;
use crate::heading::{Formal, Heading};
use crate::model::Family;
use crate::procedure::{LocalOp, Procedure, Rep};
use math_terms::{Name, NoMemory, both};
use sqlite_items::Items;
use std::alloc::Global;

/// A component.
#[derive(Drop)]
pub enum Component {
    Concept(Concept),
    Enhancement(Enhancement),
    Realization(Realization),
    Facility(FacilityModule),
}

/// A concept: a family and operations by mathematical values.
#[derive(Drop)]
pub struct Concept {
    pub at: u32,
    pub name: Name,
    pub formals: Items<Formal>,
    pub uses: Items<Name>,
    pub requires_clause: Option<Expr>,
    pub family: Option<Family>,
    pub headings: Items<Heading>,
}

/// An enhancement: further operations for a concept.
#[derive(Drop)]
pub struct Enhancement {
    pub at: u32,
    pub name: Name,
    pub concept: Name,
    pub uses: Items<Name>,
    pub headings: Items<Heading>,
}

/// A realization of a concept, or of an enhancement of that concept. `end_at` is the place of its last `end`.
#[derive(Drop)]
pub struct Realization {
    pub at: u32,
    pub name: Name,
    pub enhancement: Option<Name>,
    pub concept: Name,
    pub uses: Items<Name>,
    pub facilities: Items<FacDecl>,
    pub rep: Option<Rep>,
    pub locals: Items<LocalOp>,
    pub procs: Items<Procedure>,
    pub end_at: u32,
}

/// A module of facilities and operations.
#[derive(Drop)]
pub struct FacilityModule {
    pub at: u32,
    pub name: Name,
    pub uses: Items<Name>,
    pub facilities: Items<FacDecl>,
    pub operations: Items<LocalOp>,
}

impl TryCopy for Component {
    fn copy(&self, alloc: Global) -> Result<Component, NoMemory> {
        match self {
            Component::Concept(concept) => Ok(Component::Concept(concept.copy(alloc)?)),
            Component::Enhancement(enhancement) => {
                Ok(Component::Enhancement(enhancement.copy(alloc)?))
            }
            Component::Realization(realization) => {
                Ok(Component::Realization(realization.copy(alloc)?))
            }
            Component::Facility(module) => Ok(Component::Facility(module.copy(alloc)?)),
        }
    }
}

impl TryCopy for Concept {
    fn copy(&self, alloc: Global) -> Result<Concept, NoMemory> {
        let lists = both(
            copy_items(alloc, self.formals.as_slice()),
            copy_items(alloc, self.uses.as_slice()),
        );
        let clauses = both(
            copy_option(alloc, &self.requires_clause),
            copy_option(alloc, &self.family),
        );
        let rest = both(clauses, copy_items(alloc, self.headings.as_slice()));
        let (name, (lists, (clauses, headings))) = both(self.name.copy(alloc), both(lists, rest))?;
        Ok(Concept {
            at: self.at,
            name,
            formals: lists.0,
            uses: lists.1,
            requires_clause: clauses.0,
            family: clauses.1,
            headings,
        })
    }
}

impl TryCopy for Enhancement {
    fn copy(&self, alloc: Global) -> Result<Enhancement, NoMemory> {
        let names = both(self.name.copy(alloc), self.concept.copy(alloc));
        let lists = both(
            copy_items(alloc, self.uses.as_slice()),
            copy_items(alloc, self.headings.as_slice()),
        );
        let (names, lists) = both(names, lists)?;
        Ok(Enhancement {
            at: self.at,
            name: names.0,
            concept: names.1,
            uses: lists.0,
            headings: lists.1,
        })
    }
}

impl TryCopy for Realization {
    fn copy(&self, alloc: Global) -> Result<Realization, NoMemory> {
        let names = both(self.name.copy(alloc), self.concept.copy(alloc));
        let names = both(names, copy_option(alloc, &self.enhancement));
        let lists = both(
            copy_items(alloc, self.uses.as_slice()),
            copy_items(alloc, self.facilities.as_slice()),
        );
        let bodies = both(
            copy_items(alloc, self.locals.as_slice()),
            copy_items(alloc, self.procs.as_slice()),
        );
        let bodies = both(copy_option(alloc, &self.rep), bodies);
        let ((names, enhancement), (lists, (rep, bodies))) = both(names, both(lists, bodies))?;
        Ok(Realization {
            at: self.at,
            name: names.0,
            enhancement,
            concept: names.1,
            uses: lists.0,
            facilities: lists.1,
            rep,
            locals: bodies.0,
            procs: bodies.1,
            end_at: self.end_at,
        })
    }
}

impl TryCopy for FacilityModule {
    fn copy(&self, alloc: Global) -> Result<FacilityModule, NoMemory> {
        let names = both(
            self.name.copy(alloc),
            copy_items(alloc, self.uses.as_slice()),
        );
        let lists = both(
            copy_items(alloc, self.facilities.as_slice()),
            copy_items(alloc, self.operations.as_slice()),
        );
        let (names, lists) = both(names, lists)?;
        Ok(FacilityModule {
            at: self.at,
            name: names.0,
            uses: names.1,
            facilities: lists.0,
            operations: lists.1,
        })
    }
}
