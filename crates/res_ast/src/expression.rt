//! Expressions of programs and assertions.

ghost use Rattle.std.specs.Prelude.{◌≡◌, IfOk};

use crate::copying::{TryCopy, copy_option};
use math_terms::{Name, NoMemory, both};
use sqlite_items::{Boxed, Items};
use std::alloc::Global;

/// An expression. `at` is the place of its first word, or of the operator of a binary one.
#[derive(Drop)]
#[cycle(expression)]
pub struct Expr {
    pub at: u32,
    pub form: Form,
}

/// What an expression is. `Old` and `OldDot` have `#` before the name; `Call` has the facility before the operation;
/// `Initial(n, x)` is `n.Is_Initial(x)`. Reverse and Prt_Btwn are calls.
#[derive(Drop)]
#[cycle(expression)]
pub enum Form {
    Int(i64),
    Truth(bool),
    MinInt,
    MaxInt,
    Word(Name),
    Old(Name),
    Dot(Name, Name),
    OldDot(Name, Name),
    Call(Option<Name>, Name, Items<Expr>),
    Initial(Name, Boxed<Expr>),
    Not(Boxed<Expr>),
    Minus(Boxed<Expr>),
    Binary(BinOp, Boxed<Expr>, Boxed<Expr>),
    Empty,
    Single(Boxed<Expr>),
    Bars(Boxed<Expr>),
    Tuple(Items<Expr>),
}

/// What stands between two operands.
#[derive(Clone, Copy, Debug, PartialEq, Eq)]
pub enum BinOp {
    Add,
    Sub,
    Mul,
    Div,
    Mod,
    Cat,
    Eq,
    NotEq,
    Less,
    LessEq,
    Greater,
    GreaterEq,
    And,
    Or,
    Implies,
}

impl TryCopy for Expr {
    fn copy(&self, alloc: Global) -> Result<Expr, NoMemory> {
        copy_expr(alloc, self)
    }
}

#[cycle(copy)]
fn copy_expr(alloc: Global, e: &Expr) -> Result<Expr, NoMemory>
    ensures { IfOk result (λ x. x ≡ e.now) }
{
    Ok(Expr {
        at: e.at,
        form: copy_form(alloc, &e.form)?,
    })
}

#[cycle(copy)]
fn copy_form(alloc: Global, form: &Form) -> Result<Form, NoMemory>
    ensures { IfOk result (λ f. f ≡ form.now) }
{
    match form {
        Form::Int(n) => Ok(Form::Int(*n)),
        Form::Truth(b) => Ok(Form::Truth(*b)),
        Form::MinInt => Ok(Form::MinInt),
        Form::MaxInt => Ok(Form::MaxInt),
        Form::Word(name) => Ok(Form::Word(name.copy(alloc)?)),
        Form::Old(name) => Ok(Form::Old(name.copy(alloc)?)),
        Form::Dot(name, part) => {
            let (name, part) = both(name.copy(alloc), part.copy(alloc))?;
            Ok(Form::Dot(name, part))
        }
        Form::OldDot(name, part) => {
            let (name, part) = both(name.copy(alloc), part.copy(alloc))?;
            Ok(Form::OldDot(name, part))
        }
        Form::Call(facility, name, args) => {
            let names = both(copy_option(alloc, facility), name.copy(alloc));
            let (names, args) = both(names, copy_exprs(alloc, args.as_slice()))?;
            Ok(Form::Call(names.0, names.1, args))
        }
        Form::Initial(name, x) => {
            let (name, x) = both(name.copy(alloc), copy_boxed(alloc, x))?;
            Ok(Form::Initial(name, x))
        }
        Form::Not(x) => Ok(Form::Not(copy_boxed(alloc, x)?)),
        Form::Minus(x) => Ok(Form::Minus(copy_boxed(alloc, x)?)),
        Form::Binary(op, x, y) => {
            let (x, y) = both(copy_boxed(alloc, x), copy_boxed(alloc, y))?;
            Ok(Form::Binary(*op, x, y))
        }
        Form::Empty => Ok(Form::Empty),
        Form::Single(x) => Ok(Form::Single(copy_boxed(alloc, x)?)),
        Form::Bars(x) => Ok(Form::Bars(copy_boxed(alloc, x)?)),
        Form::Tuple(parts) => Ok(Form::Tuple(copy_exprs(alloc, parts.as_slice())?)),
    }
}

#[cycle(copy)]
fn copy_boxed(alloc: Global, x: &Boxed<Expr>) -> Result<Boxed<Expr>, NoMemory>
    ensures { IfOk result (λ b. b ≡ x.now) }
{
    Ok(Boxed::new(alloc, copy_expr(alloc, x.get())?)?)
}

/// The expressions of a slice once more, in their order.
#[cycle(copy)]
pub fn copy_exprs(alloc: Global, exprs: &[Expr]) -> Result<Items<Expr>, NoMemory>
    ensures { IfOk result (λ es. es ≡ exprs.now) }
{
    let mut out = Items::new(alloc);
    for e in exprs {
        out.push(copy_expr(alloc, e)?)?;
    }
    Ok(out)
}
