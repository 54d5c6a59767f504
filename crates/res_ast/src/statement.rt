//! Statements, and the places that they change.

ghost use Rattle.std.specs.Prelude.{◌≡◌, IfOk};

use crate::copying::{TryCopy, copy_items, copy_option};
use crate::expression::{Expr, copy_exprs};
use math_terms::{Name, NoMemory, both};
use sqlite_items::Items;
use std::alloc::Global;

/// A variable, or a field of one.
#[derive(Drop)]
pub struct Place {
    pub at: u32,
    pub base: Name,
    pub field: Option<Name>,
}

/// A statement, with the place of its first word. A call has the facility before the operation. An `If` has the statements
/// after `then` and those after `else`; a `While` its guard, the places that change, the invariant, the metric and the body.
#[derive(Drop)]
pub enum Stmt {
    Swap(u32, Place, Place),
    Assign(u32, Place, Expr),
    Call(u32, Option<Name>, Name, Items<Expr>),
    If(u32, Expr, Items<Stmt>, Items<Stmt>),
    While(u32, Expr, Items<Place>, Expr, Expr, Items<Stmt>),
}

impl TryCopy for Place {
    fn copy(&self, alloc: Global) -> Result<Place, NoMemory> {
        let (base, field) = both(self.base.copy(alloc), copy_option(alloc, &self.field))?;
        Ok(Place {
            at: self.at,
            base,
            field,
        })
    }
}

impl TryCopy for Stmt {
    fn copy(&self, alloc: Global) -> Result<Stmt, NoMemory> {
        copy_stmt(alloc, self)
    }
}

#[cycle(copy)]
fn copy_stmt(alloc: Global, s: &Stmt) -> Result<Stmt, NoMemory>
    ensures { IfOk result (λ x. x ≡ s.now) }
{
    match s {
        Stmt::Swap(at, x, y) => {
            let (x, y) = both(x.copy(alloc), y.copy(alloc))?;
            Ok(Stmt::Swap(*at, x, y))
        }
        Stmt::Assign(at, x, e) => {
            let (x, e) = both(x.copy(alloc), e.copy(alloc))?;
            Ok(Stmt::Assign(*at, x, e))
        }
        Stmt::Call(at, facility, name, args) => {
            let names = both(copy_option(alloc, facility), name.copy(alloc));
            let (names, args) = both(names, copy_exprs(alloc, args.as_slice()))?;
            Ok(Stmt::Call(*at, names.0, names.1, args))
        }
        Stmt::If(at, guard, first, second) => {
            let blocks = both(
                copy_stmts(alloc, first.as_slice()),
                copy_stmts(alloc, second.as_slice()),
            );
            let (guard, blocks) = both(guard.copy(alloc), blocks)?;
            Ok(Stmt::If(*at, guard, blocks.0, blocks.1))
        }
        Stmt::While(at, guard, places, invariant, metric, body) => {
            let lists = both(
                copy_items(alloc, places.as_slice()),
                copy_stmts(alloc, body.as_slice()),
            );
            let claims = both(invariant.copy(alloc), metric.copy(alloc));
            let (guard, (lists, claims)) = both(guard.copy(alloc), both(lists, claims))?;
            Ok(Stmt::While(*at, guard, lists.0, claims.0, claims.1, lists.1))
        }
    }
}

/// The statements of a slice once more, in their order.
#[cycle(copy)]
pub fn copy_stmts(alloc: Global, stmts: &[Stmt]) -> Result<Items<Stmt>, NoMemory>
    ensures { IfOk result (λ ss. ss ≡ stmts.now) }
{
    let mut out = Items::new(alloc);
    for s in stmts {
        out.push(copy_stmt(alloc, s)?)?;
    }
    Ok(out)
}
