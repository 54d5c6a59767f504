//! What claims and statements are.

ghost use Rattle.std.specs.Prelude.{◌≡◌, ◌++◌, ◌<◌, ◌^◌, IfOk, OnOk, length, map};
ghost use Rattle.main_form.specs.Names.{variable_of};
ghost use Rattle.main_form.specs.Values as spec;
ghost use Rattle.main_form.specs.Values.{built, stmt_of};

use crate::module::{Claim, Expr, Stmt};
use crate::names::{same_bytes, variable_of};
use crate::numbers::number;
use crate::truths::truth;
use math_terms::{Items, NoMemory, both};
use res_ast as tree;
use res_ast::{BinOp, Form, Procedure};
use std::alloc::Global;

// The number of a literal; others count as 0.
fn literal(_main: &Procedure, e: &tree::Expr) -> i64
    ensures { result ≡ (built _main.now e.now).literal }
{
    match &e.form {
        Form::Int(n) => *n,
        _ => 0,
    }
}

// The operands of a chain, behind those before them.
#[cycle(operands)]
fn put_operands(main: &Procedure, e: &tree::Expr, out: &mut Items<i64>) -> Result<(), NoMemory>
    ensures { OnOk result (out.new ≡ out.old ++ (built main.now e.now).operands) }
{
    match &e.form {
        Form::Single(a) => Ok(out.push(literal(main, a.get()))?),
        Form::Binary(BinOp::Cat, a, b) => {
            put_operands(main, a.get(), out)?;
            put_operands(main, b.get(), out)
        }
        _ => Ok(()),
    }
}

fn claimed(alloc: Global, main: &Procedure, e: &tree::Expr) -> Result<Claim, NoMemory>
    ensures { IfOk result (λ c. c ≡ (built main.now e.now).claim) }
{
    match &e.form {
        Form::Binary(BinOp::Eq, _, b) => {
            let mut operands = Items::new(alloc);
            put_operands(main, b.get(), &mut operands)?;
            Ok(Claim::Chain(operands))
        }
        _ => Ok(Claim::True),
    }
}

/// What Main claims.
pub(crate) fn claim_of(
    alloc: Global,
    main: &Procedure,
    clause: &Option<tree::Expr>,
) -> Result<Claim, NoMemory>
    ensures { IfOk result (λ c. c ≡ spec.claim_of main.now clause.now) }
{
    match clause {
        Some(e) => claimed(alloc, main, e),
        None => Ok(Claim::True),
    }
}

// The variable that the first argument is.
fn first_variable(main: &Procedure, args: &[tree::Expr]) -> Option<u32>
    requires { length main.now.vars < 2 ^ 32 }
    ensures { result ≡ spec.first_variable main.now args.now }
{
    match args {
        [] => None,
        [e, ..] => match &e.form {
            Form::Word(name) => variable_of(main, name.bytes()),
            _ => None,
        },
    }
}

// The number that the first argument is.
fn first_number(alloc: Global, main: &Procedure, args: &[tree::Expr]) -> Result<Expr, NoMemory>
    requires { length main.now.vars < 2 ^ 32 }
    ensures { IfOk result (λ x. x ≡ spec.first_number main.now args.now) }
{
    match args {
        [] => Ok(Expr::Number(0)),
        [e, ..] => number(alloc, main, e),
    }
}

// A write of 0, which stands for what is no statement of the form.
fn nothing() -> Stmt
    ensures { result ≡ spec.writing spec.zero_number }
{
    Stmt::Write(Expr::Number(0))
}

fn assigned(alloc: Global, main: &Procedure, name: &[u8], e: &tree::Expr) -> Result<Stmt, NoMemory>
    requires { length main.now.vars < 2 ^ 32 }
    ensures { IfOk result (λ x. x ≡ spec.assigned (variable_of main.now name.now) (built main.now e.now).number) }
{
    match variable_of(main, name) {
        Some(variable) => Ok(Stmt::Assign(variable, number(alloc, main, e)?)),
        None => Ok(nothing()),
    }
}

fn called(
    alloc: Global,
    main: &Procedure,
    name: &[u8],
    args: &[tree::Expr],
    at: u32,
) -> Result<Stmt, NoMemory>
    requires { length main.now.vars < 2 ^ 32 }
    ensures { IfOk result (λ x. x ≡ spec.called main.now name.now args.now at) }
{
    if same_bytes(name, b"Read") {
        match first_variable(main, args) {
            Some(variable) => Ok(Stmt::Read(at, variable)),
            None => Ok(nothing()),
        }
    } else {
        Ok(Stmt::Write(first_number(alloc, main, args)?))
    }
}

// What a statement is.
#[cycle(statement)]
fn stmt_of(alloc: Global, main: &Procedure, x: &tree::Stmt) -> Result<Stmt, NoMemory>
    requires { length main.now.vars < 2 ^ 32 }
    ensures { IfOk result (λ y. y ≡ stmt_of main.now x.now) }
{
    match x {
        tree::Stmt::Assign(_, place, e) => assigned(alloc, main, place.base.bytes(), e),
        tree::Stmt::Call(at, _, name, args) => {
            called(alloc, main, name.bytes(), args.as_slice(), *at)
        }
        tree::Stmt::If(_, guard, a, b) => {
            let blocks = both(
                stmts_of(alloc, main, a.as_slice()),
                stmts_of(alloc, main, b.as_slice()),
            );
            let (guard, blocks) = both(truth(alloc, main, guard), blocks)?;
            Ok(Stmt::If(guard, blocks.0, blocks.1))
        }
        _ => Ok(nothing()),
    }
}

/// What statements are, in their order.
#[cycle(statement)]
pub(crate) fn stmts_of(
    alloc: Global,
    main: &Procedure,
    stmts: &[tree::Stmt],
) -> Result<Items<Stmt>, NoMemory>
    requires { length main.now.vars < 2 ^ 32 }
    ensures { IfOk result (λ ys. ys ≡ map (stmt_of main.now) stmts.now) }
{
    let mut out = Items::new(alloc);
    for x in stmts {
        out.push(stmt_of(alloc, main, x)?)?;
    }
    Ok(out)
}
