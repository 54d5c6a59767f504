//! Procedures, local operations and representations.

ghost use Rattle.std.specs.Prelude.{◌≡◌, IfOk};

use crate::copying::{TryCopy, copy_items, copy_option};
use crate::expression::Expr;
use crate::heading::{Heading, PType};
use crate::statement::{Stmt, copy_stmts};
use math_terms::{Name, NoMemory, both};
use sqlite_items::Items;
use std::alloc::Global;

/// How a realization represents its family: a record, with the place of `Type`. `conc` is the name after `Conc`.
#[derive(Drop)]
pub struct Rep {
    pub at: u32,
    pub name: Name,
    pub fields: Items<(Name, PType)>,
    pub convention: Expr,
    pub conc: Name,
    pub correspondence: Expr,
}

/// A procedure. `at` is the place of `Procedure`, of a local operation that of `Operation`; `end_at` that of its last `end`.
/// Its heading has no clauses where it is not a local operation's.
#[derive(Drop)]
pub struct Procedure {
    pub at: u32,
    pub heading: Heading,
    pub metric: Option<Expr>,
    pub vars: Items<(Name, PType)>,
    pub body: Items<Stmt>,
    pub end_at: u32,
}

/// An operation of a module's or a realization's own, with its procedure.
#[derive(Drop)]
pub struct LocalOp {
    pub procedure: Procedure,
}

impl TryCopy for Rep {
    fn copy(&self, alloc: Global) -> Result<Rep, NoMemory> {
        let names = both(self.name.copy(alloc), self.conc.copy(alloc));
        let clauses = both(self.convention.copy(alloc), self.correspondence.copy(alloc));
        let fields = copy_items(alloc, self.fields.as_slice());
        let (names, (fields, clauses)) = both(names, both(fields, clauses))?;
        Ok(Rep {
            at: self.at,
            name: names.0,
            fields,
            convention: clauses.0,
            conc: names.1,
            correspondence: clauses.1,
        })
    }
}

impl TryCopy for Procedure {
    fn copy(&self, alloc: Global) -> Result<Procedure, NoMemory> {
        let head = both(self.heading.copy(alloc), copy_option(alloc, &self.metric));
        let lists = both(
            copy_items(alloc, self.vars.as_slice()),
            copy_stmts(alloc, self.body.as_slice()),
        );
        let (head, lists) = both(head, lists)?;
        Ok(Procedure {
            at: self.at,
            heading: head.0,
            metric: head.1,
            vars: lists.0,
            body: lists.1,
            end_at: self.end_at,
        })
    }
}

impl TryCopy for LocalOp {
    fn copy(&self, alloc: Global) -> Result<LocalOp, NoMemory> {
        Ok(LocalOp {
            procedure: self.procedure.copy(alloc)?,
        })
    }
}
