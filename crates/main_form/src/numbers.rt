//! What expressions are as numbers.

ghost use Rattle.std.specs.Prelude.{◌≡◌, ◌<◌, ◌^◌, IfOk, length};
ghost use Rattle.main_form.specs.Names.{variable_of};
ghost use Rattle.main_form.specs.Values as spec;
ghost use Rattle.main_form.specs.Values.{built};

use crate::module::Expr;
use crate::names::{same_bytes, variable_of};
use math_terms::{Boxed, NoMemory, both};
use res_ast as tree;
use res_ast::{BinOp, Form, Procedure};
use std::alloc::Global;

// A variable of Main.
fn variable(main: &Procedure, name: &[u8]) -> Expr
    requires { length main.now.vars < 2 ^ 32 }
    ensures { result ≡ spec.variable_or_zero (variable_of main.now name.now) }
{
    match variable_of(main, name) {
        Some(number) => Expr::Variable(number),
        None => Expr::Number(0),
    }
}

// A call, by its name.
fn called(name: &[u8]) -> Expr
    ensures { result ≡ spec.remaining_or_zero name.now }
{
    if same_bytes(name, b"Remaining") {
        Expr::Remaining
    } else {
        Expr::Number(0)
    }
}

/// What an expression is as a number.
#[cycle(number)]
pub(crate) fn number(alloc: Global, main: &Procedure, e: &tree::Expr) -> Result<Expr, NoMemory>
    requires { length main.now.vars < 2 ^ 32 }
    ensures { IfOk result (λ x. x ≡ (built main.now e.now).number) }
{
    match &e.form {
        Form::Int(n) => Ok(Expr::Number(*n)),
        Form::Word(name) => Ok(variable(main, name.bytes())),
        Form::Call(_, name, _) => Ok(called(name.bytes())),
        Form::Minus(a) => Ok(Expr::Minus(e.at, boxed_number(alloc, main, a.get())?)),
        Form::Binary(BinOp::Add, a, b) => {
            let (a, b) = both(
                boxed_number(alloc, main, a.get()),
                boxed_number(alloc, main, b.get()),
            )?;
            Ok(Expr::Add(e.at, a, b))
        }
        Form::Binary(BinOp::Sub, a, b) => {
            let (a, b) = both(
                boxed_number(alloc, main, a.get()),
                boxed_number(alloc, main, b.get()),
            )?;
            Ok(Expr::Sub(e.at, a, b))
        }
        _ => Ok(Expr::Number(0)),
    }
}

#[cycle(number)]
fn boxed_number(alloc: Global, main: &Procedure, e: &tree::Expr) -> Result<Boxed<Expr>, NoMemory>
    requires { length main.now.vars < 2 ^ 32 }
    ensures { IfOk result (λ x. x ≡ (built main.now e.now).number) }
{
    Ok(Boxed::new(alloc, number(alloc, main, e)?)?)
}
