//! The linked program of a module.

ghost use Rattle.std.specs.Prelude.{◌≡◌, [], ◌∷◌, IfOk, map};
ghost use Rattle.source_meaning.specs.declared.linked.TypeForm.TheVariants as form;
ghost use Rattle.source_meaning.specs.declared.linked.LExpr.TheOpen.{LExpr-F};
ghost use Rattle.source_meaning.specs.declared.linked.LExpr.TheViews.{roll-LExpr};
ghost use Rattle.source_meaning.specs.declared.linked.LStmt.{LStmt};
ghost use Rattle.source_meaning.specs.declared.linked.LStmt.TheOpen.{LStmt-F};
ghost use Rattle.source_meaning.specs.declared.linked.LStmt.TheViews.{roll-LStmt};
ghost use Rattle.source_meaning.specs.Formed.{IsFormed};
ghost use Rattle.main_form.specs.Formed.{IsForm};
ghost use Rattle.main_vcs.specs.Linking as spec;
ghost use Rattle.main_vcs.specs.Soundness.{IsLinkOf};

use crate::variables::zeros;
use main_form::{Comparison, Expr, Guard, Module, Stmt};
use math_terms::{Name, NoMemory, both};
use source_meaning::{BinOp, Instance, LExpr, LStmt, Linked, Proc, Scalar, Spot, TypeForm};
use sqlite_items::{Boxed, Items};
use std::alloc::Global;

fn op(alloc: Global, operator: BinOp, left: LExpr, right: LExpr) -> Result<LExpr, NoMemory>
    ensures { IfOk result (λ l. l ≡ spec.two operator left right) }
{
    let left = Boxed::new(alloc, left)?;
    let right = Boxed::new(alloc, right)?;
    Ok(LExpr::Op(operator, left, right))
}

// An expression.
#[cycle(expression)]
fn linked_expr(alloc: Global, e: &Expr) -> Result<LExpr, NoMemory>
    ensures { IfOk result (λ l. l ≡ spec.linked_expr e.now) }
{
    match e {
        Expr::Number(n) => Ok(LExpr::Const(Scalar::Int(*n))),
        Expr::Variable(k) => Ok(LExpr::Get(Spot::Local(*k))),
        Expr::Remaining => Ok(LExpr::Remaining),
        Expr::Minus(_, a) => {
            let a = linked_expr(alloc, a.get())?;
            op(alloc, BinOp::Sub, LExpr::Const(Scalar::Int(0)), a)
        }
        Expr::Add(_, a, b) => {
            let (a, b) = both(linked_expr(alloc, a.get()), linked_expr(alloc, b.get()))?;
            op(alloc, BinOp::Add, a, b)
        }
        Expr::Sub(_, a, b) => {
            let (a, b) = both(linked_expr(alloc, a.get()), linked_expr(alloc, b.get()))?;
            op(alloc, BinOp::Sub, a, b)
        }
    }
}

fn compared(alloc: Global, c: Comparison, a: &Expr, b: &Expr) -> Result<LExpr, NoMemory>
    ensures { IfOk result (λ l. l ≡ spec.two (spec.operator c) (spec.linked_expr a.now) (spec.linked_expr b.now)) }
{
    let a = linked_expr(alloc, a)?;
    let b = linked_expr(alloc, b)?;
    op(alloc, operator(c), a, b)
}

fn operator(c: Comparison) -> BinOp
    ensures { result ≡ spec.operator c }
{
    match c {
        Comparison::Equal => BinOp::Eq,
        Comparison::NotEqual => BinOp::NotEq,
        Comparison::Less => BinOp::Less,
        Comparison::LessEqual => BinOp::LessEq,
        Comparison::Greater => BinOp::Greater,
        Comparison::GreaterEqual => BinOp::GreaterEq,
    }
}

fn negated(alloc: Global, e: LExpr) -> Result<LExpr, NoMemory>
    ensures { IfOk result (λ l. l ≡ roll-LExpr (LExpr-F.Not e)) }
{
    let e = Boxed::new(alloc, e)?;
    Ok(LExpr::Not(e))
}

// A guard.
#[cycle(guard)]
fn linked_guard(alloc: Global, g: &Guard) -> Result<LExpr, NoMemory>
    ensures { IfOk result (λ l. l ≡ spec.linked_guard g.now) }
{
    match g {
        Guard::Compare(c, a, b) => compared(alloc, *c, a, b),
        Guard::Not(g) => {
            let g = linked_guard(alloc, g.get())?;
            negated(alloc, g)
        }
        Guard::And(g, h) => {
            let (g, h) = both(linked_guard(alloc, g.get()), linked_guard(alloc, h.get()))?;
            op(alloc, BinOp::And, g, h)
        }
        Guard::Or(g, h) => {
            let (g, h) = both(linked_guard(alloc, g.get()), linked_guard(alloc, h.get()))?;
            op(alloc, BinOp::Or, g, h)
        }
    }
}

// A statement.
#[cycle(statement)]
fn linked_stmt(alloc: Global, x: &Stmt) -> Result<LStmt, NoMemory>
    ensures { IfOk result (λ l. l ≡ spec.linked_stmt x.now) }
{
    match x {
        Stmt::Read(_, k) => Ok(LStmt::LRead(Spot::Local(*k))),
        Stmt::Write(e) => Ok(LStmt::LWrite(linked_expr(alloc, e)?)),
        Stmt::Assign(k, e) => Ok(LStmt::LSet(Spot::Local(*k), linked_expr(alloc, e)?)),
        Stmt::If(g, a, b) => {
            let blocks = both(
                linked_stmts(alloc, a.as_slice()),
                linked_stmts(alloc, b.as_slice()),
            );
            let (g, blocks) = both(linked_guard(alloc, g), blocks)?;
            Ok(LStmt::LIf(g, blocks.0, blocks.1))
        }
    }
}

#[cycle(statement)]
fn linked_stmts(alloc: Global, xs: &[Stmt]) -> Result<Items<LStmt>, NoMemory>
    ensures { IfOk result (λ ls. ls ≡ map spec.linked_stmt xs.now) }
{
    let mut out = Items::new(alloc);
    for x in xs {
        out.push(linked_stmt(alloc, x)?)?;
    }
    Ok(out)
}

// Main as a procedure.
fn main_of(alloc: Global, m: &Module) -> Result<Proc, NoMemory>
    ensures { IfOk result (λ p. p ≡ spec.main_of m.now) }
{
    Ok(Proc {
        instance: 0,
        operation: Name::new(alloc, b"Main")?,
        modes: Items::new(alloc),
        params: Items::new(alloc),
        streams: Items::from_slice(alloc, &[(0, true), (1, false)])?,
        result: None,
        locals: zeros(alloc, m.variables.as_slice())?,
        body: linked_stmts(alloc, m.body.as_slice())?,
    })
}

fn types(alloc: Global) -> Result<Items<TypeForm>, NoMemory>
    ensures { IfOk result (λ ts. ts ≡ form.Int ∷ form.Bool ∷ []) }
{
    let mut types = Items::new(alloc);
    types.push(TypeForm::Int)?;
    types.push(TypeForm::Bool)?;
    Ok(types)
}

fn procs(alloc: Global, m: &Module) -> Result<Items<Proc>, NoMemory>
    ensures { IfOk result (λ ps. ps ≡ spec.main_of m.now ∷ []) }
{
    let mut procs = Items::new(alloc);
    procs.push(main_of(alloc, m)?)?;
    Ok(procs)
}

// The module itself, which stands for the one instance.
fn instances(alloc: Global, m: &Module) -> Result<Items<Instance>, NoMemory> {
    let mut instances = Items::new(alloc);
    instances.push(Instance {
        path: Items::new(alloc),
        concept: m.name.copy(alloc)?,
        realization: None,
        arguments: Items::new(alloc),
    })?;
    Ok(instances)
}

#[tactic(auto, using(crate::proofs::Forming::link_is_formed))]
/// The linked program of a module, whose types are Int and Bool and whose one procedure is Main.
pub fn link_main(alloc: Global, m: &Module) -> Result<Linked, NoMemory>
    requires form { IsForm m.now }
    ensures link { IfOk result (λ l. IsLinkOf m.now l) }
    ensures formed { IfOk result (λ l. IsFormed l (spec.main_of m.now)) }
{
    Ok(Linked {
        instances: instances(alloc, m)?,
        types: types(alloc)?,
        procs: procs(alloc, m)?,
        main: 0,
    })
}
