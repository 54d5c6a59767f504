//! Where expressions are not of the form.

ghost use Rattle.std.specs.Prelude.{◌≡◌, map};
ghost use Rattle.main_form.specs.Places as spec;
ghost use Rattle.main_form.specs.Places.{expr_first, form_look, look};

use crate::names::{input_of, output_of, same_bytes};
use math_terms::Name;
use res_ast::{BinOp, Expr, Form, Procedure};

/// What an expression is wanted as: one of a program, the output of a claim, one operand of a claim or several, a whole chain
/// of them, or a claim.
#[derive(Clone, Copy, Debug, PartialEq, Eq)]
pub(crate) enum Wanted {
    Program,
    Output,
    Operand,
    Operands,
    Chain,
    Claim,
}

impl Wanted {
    fn is_program(self) -> bool
        ensures { result ≡ spec.is_program self }
    {
        match self {
            Wanted::Program => true,
            _ => false,
        }
    }

    fn is_operand(self) -> bool
        ensures { result ≡ spec.is_operand self }
    {
        match self {
            Wanted::Operand | Wanted::Operands | Wanted::Chain => true,
            _ => false,
        }
    }

    fn is_operands(self) -> bool
        ensures { result ≡ spec.is_operands self }
    {
        match self {
            Wanted::Operands | Wanted::Chain => true,
            _ => false,
        }
    }

    fn is_chain(self) -> bool
        ensures { result ≡ spec.is_chain self }
    {
        match self {
            Wanted::Chain => true,
            _ => false,
        }
    }

    fn is_claim(self) -> bool
        ensures { result ≡ spec.is_claim self }
    {
        match self {
            Wanted::Claim => true,
            _ => false,
        }
    }
}

/// The earlier of two places, where there are any.
pub(crate) fn earlier(a: Option<u32>, b: Option<u32>) -> Option<u32>
    ensures { result ≡ spec.earlier a b }
{
    match a {
        None => b,
        Some(x) => match b {
            None => a,
            Some(y) => Some(x.min(y)),
        },
    }
}

/// What a node has at its place, with what its parts have: it stands itself where it is not what is wanted.
pub(crate) fn stands(fits: bool, at: u32, parts: Option<u32>) -> Option<u32>
    ensures { result ≡ spec.stands fits at parts }
{
    if fits {
        parts
    } else {
        earlier(Some(at), parts)
    }
}

// Whether a word is what is wanted.
fn word_fits(main: &Procedure, name: &[u8], wanted: Wanted) -> bool
    ensures { result ≡ spec.word_fits main.now name.now wanted }
{
    match wanted {
        Wanted::Program => true,
        Wanted::Output => same_bytes(name, output_of(main)) || !same_bytes(name, input_of(main)),
        _ => false,
    }
}

// Whether an operator is what is wanted.
fn operator_fits(op: BinOp, wanted: Wanted) -> bool
    ensures { result ≡ spec.operator_fits op wanted }
{
    match op {
        BinOp::Mul | BinOp::Div | BinOp::Mod | BinOp::Implies => false,
        BinOp::Cat => wanted.is_operands(),
        BinOp::Eq => wanted.is_program() || wanted.is_claim(),
        BinOp::Add
        | BinOp::Sub
        | BinOp::NotEq
        | BinOp::Less
        | BinOp::LessEq
        | BinOp::Greater
        | BinOp::GreaterEq
        | BinOp::And
        | BinOp::Or => wanted.is_program(),
    }
}

// What an operator's two parts are wanted as, where it is wanted as this.
fn parts_wanted(op: BinOp, wanted: Wanted) -> (Wanted, Wanted)
    ensures { result ≡ spec.parts_wanted op wanted }
{
    match op {
        BinOp::Eq if wanted.is_claim() => (Wanted::Output, Wanted::Chain),
        BinOp::Cat if wanted.is_operands() => (Wanted::Operands, Wanted::Operand),
        _ => (Wanted::Program, Wanted::Program),
    }
}

/// The first place of an expression at which it is not of the form, where it is wanted as this.
#[cycle(expression)]
pub(crate) fn expr_first(main: &Procedure, e: &Expr, wanted: Wanted) -> Option<u32>
    ensures { result ≡ expr_first main.now e.now wanted }
{
    form_first(main, &e.form, e.at, wanted)
}

#[cycle(expression)]
fn form_first(main: &Procedure, form: &Form, at: u32, wanted: Wanted) -> Option<u32>
    ensures { result ≡ (form_look main.now form.now at).first wanted }
{
    match form {
        Form::Int(_) => stands(wanted.is_program(), at, None),
        Form::Truth(b) => stands(*b && wanted.is_claim(), at, None),
        Form::MinInt => Some(at),
        Form::MaxInt => Some(at),
        Form::Word(name) => stands(word_fits(main, name.bytes(), wanted), at, None),
        Form::Old(_) => Some(at),
        Form::Dot(_, _) => Some(at),
        Form::OldDot(_, _) => Some(at),
        Form::Call(facility, name, args) => {
            let parts = all_first(main, args.as_slice());
            stands(call_fits(facility, name, wanted), at, parts)
        }
        Form::Initial(_, a) => earlier(Some(at), expr_first(main, a.get(), Wanted::Program)),
        Form::Not(a) => {
            let parts = expr_first(main, a.get(), Wanted::Program);
            stands(wanted.is_program(), at, parts)
        }
        Form::Minus(a) => {
            let parts = expr_first(main, a.get(), Wanted::Program);
            stands(wanted.is_program(), at, parts)
        }
        Form::Binary(op, a, b) => {
            let parts = parts_wanted(*op, wanted);
            let first = expr_first(main, a.get(), parts.0);
            let second = expr_first(main, b.get(), parts.1);
            stands(operator_fits(*op, wanted), at, earlier(first, second))
        }
        Form::Empty => stands(wanted.is_chain(), at, None),
        Form::Single(a) => {
            let parts = expr_first(main, a.get(), Wanted::Program);
            stands(wanted.is_operand() && is_literal(main, a.get()), at, parts)
        }
        Form::Bars(a) => earlier(Some(at), expr_first(main, a.get(), Wanted::Program)),
        Form::Tuple(parts) => earlier(Some(at), all_first(main, parts.as_slice())),
    }
}

fn is_literal(_main: &Procedure, e: &Expr) -> bool
    ensures { result ≡ (look _main.now e.now).literal }
{
    match &e.form {
        Form::Int(_) => true,
        _ => false,
    }
}

// Whether a call is `Remaining`.
fn is_remaining(facility: &Option<Name>, name: &Name) -> bool
    ensures { result ≡ spec.is_remaining facility.now name.now }
{
    match facility {
        Some(_) => false,
        None => same_bytes(name.bytes(), b"Remaining"),
    }
}

// Whether a call is what is wanted.
fn call_fits(facility: &Option<Name>, name: &Name, wanted: Wanted) -> bool
    ensures { result ≡ spec.call_fits facility.now name.now wanted }
{
    is_remaining(facility, name) && wanted.is_program()
}

/// The first place of several expressions of a program.
#[cycle(expression)]
pub(crate) fn all_first(main: &Procedure, exprs: &[Expr]) -> Option<u32>
    ensures { result ≡ spec.all_first (map (look main.now) exprs.now) }
{
    let mut first = None;
    for e in exprs {
        first = earlier(first, expr_first(main, e, Wanted::Program));
    }
    first
}
