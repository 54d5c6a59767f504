//! What expressions are as truth values.

ghost use Rattle.std.specs.Prelude.{◌≡◌, ◌<◌, ◌^◌, IfOk, length};
ghost use Rattle.main_form.specs.Values as spec;
ghost use Rattle.main_form.specs.Values.{built};

use crate::module::{Comparison, Expr, Guard};
use crate::numbers::number;
use math_terms::{Boxed, NoMemory, both};
use res_ast as tree;
use res_ast::{BinOp, Form, Procedure};
use std::alloc::Global;

// What stands for a truth value where there is none.
fn nothing() -> Guard
    ensures { result ≡ spec.nothing.truth }
{
    Guard::Compare(Comparison::Equal, Expr::Number(0), Expr::Number(0))
}

fn compared(
    alloc: Global,
    main: &Procedure,
    comparison: Comparison,
    a: &tree::Expr,
    b: &tree::Expr,
) -> Result<Guard, NoMemory>
    requires { length main.now.vars < 2 ^ 32 }
    ensures { IfOk result (λ x. x ≡ spec.compared comparison (built main.now a.now).number (built main.now b.now).number) }
{
    let (a, b) = both(number(alloc, main, a), number(alloc, main, b))?;
    Ok(Guard::Compare(comparison, a, b))
}

/// What an expression is as a truth value.
#[cycle(truth)]
pub(crate) fn truth(alloc: Global, main: &Procedure, e: &tree::Expr) -> Result<Guard, NoMemory>
    requires { length main.now.vars < 2 ^ 32 }
    ensures { IfOk result (λ x. x ≡ (built main.now e.now).truth) }
{
    match &e.form {
        Form::Not(a) => Ok(Guard::Not(boxed_truth(alloc, main, a.get())?)),
        Form::Binary(BinOp::And, a, b) => {
            let (a, b) = both(
                boxed_truth(alloc, main, a.get()),
                boxed_truth(alloc, main, b.get()),
            )?;
            Ok(Guard::And(a, b))
        }
        Form::Binary(BinOp::Or, a, b) => {
            let (a, b) = both(
                boxed_truth(alloc, main, a.get()),
                boxed_truth(alloc, main, b.get()),
            )?;
            Ok(Guard::Or(a, b))
        }
        Form::Binary(BinOp::Eq, a, b) => {
            compared(alloc, main, Comparison::Equal, a.get(), b.get())
        }
        Form::Binary(BinOp::NotEq, a, b) => {
            compared(alloc, main, Comparison::NotEqual, a.get(), b.get())
        }
        Form::Binary(BinOp::Less, a, b) => {
            compared(alloc, main, Comparison::Less, a.get(), b.get())
        }
        Form::Binary(BinOp::LessEq, a, b) => {
            compared(alloc, main, Comparison::LessEqual, a.get(), b.get())
        }
        Form::Binary(BinOp::Greater, a, b) => {
            compared(alloc, main, Comparison::Greater, a.get(), b.get())
        }
        Form::Binary(BinOp::GreaterEq, a, b) => {
            compared(alloc, main, Comparison::GreaterEqual, a.get(), b.get())
        }
        _ => Ok(nothing()),
    }
}

#[cycle(truth)]
fn boxed_truth(alloc: Global, main: &Procedure, e: &tree::Expr) -> Result<Boxed<Guard>, NoMemory>
    requires { length main.now.vars < 2 ^ 32 }
    ensures { IfOk result (λ x. x ≡ (built main.now e.now).truth) }
{
    Ok(Boxed::new(alloc, truth(alloc, main, e)?)?)
}
