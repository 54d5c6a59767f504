//! Expressions, with the fewest parentheses.

ghost use Rattle.std.specs.Prelude.{◌≡◌, ◌∷◌, [], map, OnOk};
ghost use Rattle.res_printer.specs.Pieces.{qualified, row};
ghost use Rattle.res_printer.specs.Expressions as spec;
ghost use Rattle.res_printer.specs.working.Joined.{comma_before};

use crate::text::Text;
use math_terms::{Name, NoMemory};
use res_ast::{BinOp, Expr, Form};

// The levels of an operator, of its left and of its right operand, and its token.
#[derive(Clone, Copy)]
struct Operator {
    level: u8,
    left: u8,
    right: u8,
    token: &'static [u8],
}

fn operator_at(level: u8, left: u8, right: u8, token: &'static [u8]) -> Operator
    ensures level { result.level ≡ level }
    ensures left { result.left ≡ left }
    ensures right { result.right ≡ right }
    ensures token { result.token.now ≡ token.now }
{
    Operator {
        level,
        left,
        right,
        token,
    }
}

fn operator_of(op: BinOp) -> Operator
    ensures level { result.level ≡ (spec.operator op).level }
    ensures left { result.left ≡ (spec.operator op).left }
    ensures right { result.right ≡ (spec.operator op).right }
    ensures token { result.token.now ≡ (spec.operator op).token }
{
    match op {
        BinOp::Implies => operator_at(0, 1, 0, b"implies"),
        BinOp::Or => operator_at(1, 1, 2, b"or"),
        BinOp::And => operator_at(2, 2, 3, b"and"),
        BinOp::Eq => operator_at(3, 4, 4, b"="),
        BinOp::NotEq => operator_at(3, 4, 4, b"/="),
        BinOp::Less => operator_at(3, 4, 4, b"<"),
        BinOp::LessEq => operator_at(3, 4, 4, b"<="),
        BinOp::Greater => operator_at(3, 4, 4, b">"),
        BinOp::GreaterEq => operator_at(3, 4, 4, b">="),
        BinOp::Cat => operator_at(4, 4, 5, b"o"),
        BinOp::Add => operator_at(5, 5, 6, b"+"),
        BinOp::Sub => operator_at(5, 5, 6, b"-"),
        BinOp::Mul => operator_at(6, 6, 7, b"*"),
        BinOp::Div => operator_at(6, 6, 7, b"div"),
        BinOp::Mod => operator_at(6, 6, 7, b"mod"),
    }
}

// The level at which an expression of this form may stand without parentheses.
fn level(form: &Form) -> u8
    ensures { result ≡ (spec.written_form form.now).level }
{
    match form {
        Form::Int(_) => 7,
        Form::Truth(_) => 8,
        Form::MinInt => 8,
        Form::MaxInt => 8,
        Form::Word(_) => 8,
        Form::Old(_) => 8,
        Form::Dot(_, _) => 8,
        Form::OldDot(_, _) => 8,
        Form::Call(_, _, _) => 8,
        Form::Initial(_, _) => 8,
        Form::Not(_) => 3,
        Form::Minus(_) => 7,
        Form::Binary(op, _, _) => operator_of(*op).level,
        Form::Empty => 8,
        Form::Single(_) => 8,
        Form::Bars(_) => 8,
        Form::Tuple(_) => 8,
    }
}

// Whether its text begins with a minus sign.
fn is_negative(form: &Form) -> bool
    ensures { result ≡ (spec.written_form form.now).negative }
{
    match form {
        Form::Int(n) => *n < 0,
        Form::Truth(_) => false,
        Form::MinInt => false,
        Form::MaxInt => false,
        Form::Word(_) => false,
        Form::Old(_) => false,
        Form::Dot(_, _) => false,
        Form::OldDot(_, _) => false,
        Form::Call(_, _, _) => false,
        Form::Initial(_, _) => false,
        Form::Not(_) => false,
        Form::Minus(_) => true,
        Form::Binary(_, _, _) => false,
        Form::Empty => false,
        Form::Single(_) => false,
        Form::Bars(_) => false,
        Form::Tuple(_) => false,
    }
}

/// Writes an expression where any may stand.
#[cycle(write)]
pub(crate) fn write_expression(out: &mut Text, e: &Expr) -> Result<(), NoMemory>
    ensures { OnOk result (out.new ≡ spec.expression e.now out.old) }
{
    write_form(out, &e.form)
}

#[cycle(write)]
fn write_form(out: &mut Text, form: &Form) -> Result<(), NoMemory>
    ensures { OnOk result (out.new ≡ (spec.written_form form.now).text out.old) }
{
    match form {
        Form::Int(n) => out.says_number(*n),
        Form::Truth(truth) => write_truth(out, *truth),
        Form::MinInt => out.says(b"min_int"),
        Form::MaxInt => out.says(b"max_int"),
        Form::Word(name) => out.says(name.bytes()),
        Form::Old(name) => write_old(out, name),
        Form::Dot(name, part) => out.says_dotted(name, part),
        Form::OldDot(name, part) => write_old_dot(out, name, part),
        Form::Call(facility, name, args) => write_call(out, facility, name, args.as_slice()),
        Form::Initial(name, x) => write_initial(out, name, x.get()),
        Form::Not(x) => write_not(out, x.get()),
        Form::Minus(x) => write_minus(out, x.get()),
        Form::Binary(op, x, y) => {
            let op = operator_of(*op);
            write_at(out, op.right, y.get())?;
            out.says(op.token)?;
            write_at(out, op.left, x.get())
        }
        Form::Empty => out.says(b"Empty_String"),
        Form::Single(x) => write_enclosed(out, b"<", x.get(), b">"),
        Form::Bars(x) => write_enclosed(out, b"|", x.get(), b"|"),
        Form::Tuple(parts) => write_arguments(out, parts.as_slice()),
    }
}

// Where this level is asked for.
#[cycle(write)]
fn write_at(out: &mut Text, least: u8, e: &Expr) -> Result<(), NoMemory>
    ensures { OnOk result (out.new ≡ spec.at_level least (spec.written e.now) out.old) }
{
    if least <= level(&e.form) {
        write_expression(out, e)
    } else {
        write_in_parentheses(out, e)
    }
}

#[cycle(write)]
fn write_in_parentheses(out: &mut Text, e: &Expr) -> Result<(), NoMemory>
    ensures { OnOk result (out.new ≡ spec.in_parentheses (spec.written e.now).text out.old) }
{
    out.says(b")")?;
    write_expression(out, e)?;
    out.says(b"(")
}

fn write_truth(out: &mut Text, truth: bool) -> Result<(), NoMemory>
    ensures { OnOk result (out.new ≡ (spec.truth truth).text out.old) }
{
    if truth {
        out.says(b"true")
    } else {
        out.says(b"false")
    }
}

fn write_old(out: &mut Text, name: &Name) -> Result<(), NoMemory>
    ensures { OnOk result (out.new ≡ spec.old name.now out.old) }
{
    out.says(name.bytes())?;
    out.says(b"#")
}

fn write_old_dot(out: &mut Text, name: &Name, part: &Name) -> Result<(), NoMemory>
    ensures { OnOk result (out.new ≡ spec.old_dot name.now part.now out.old) }
{
    out.says_dotted(name, part)?;
    out.says(b"#")
}

#[cycle(write)]
fn write_call(
    out: &mut Text,
    facility: &Option<Name>,
    name: &Name,
    args: &[Expr],
) -> Result<(), NoMemory>
    ensures { OnOk result (out.new ≡ row (qualified facility.now name.now ∷ spec.arguments (map spec.written args.now) ∷ []) out.old) }
{
    write_arguments(out, args)?;
    out.says_qualified(facility, name)
}

#[cycle(write)]
fn write_initial(out: &mut Text, name: &Name, x: &Expr) -> Result<(), NoMemory>
    ensures { OnOk result (out.new ≡ spec.initial name.now (spec.written x.now) out.old) }
{
    write_in_parentheses(out, x)?;
    out.says(b"Is_Initial")?;
    out.says(b".")?;
    out.says(name.bytes())
}

#[cycle(write)]
fn write_not(out: &mut Text, x: &Expr) -> Result<(), NoMemory>
    ensures { OnOk result (out.new ≡ (spec.negation (spec.written x.now)).text out.old) }
{
    write_at(out, 3, x)?;
    out.says(b"not")
}

#[cycle(write)]
fn write_minus(out: &mut Text, x: &Expr) -> Result<(), NoMemory>
    ensures { OnOk result (out.new ≡ (spec.minus (spec.written x.now)).text out.old) }
{
    write_after_minus(out, x)?;
    out.says(b"-")
}

#[cycle(write)]
fn write_after_minus(out: &mut Text, x: &Expr) -> Result<(), NoMemory>
    ensures { OnOk result (out.new ≡ spec.after_minus (spec.written x.now) out.old) }
{
    if is_negative(&x.form) {
        write_expression(out, x)
    } else {
        write_at(out, 8, x)
    }
}

#[cycle(write)]
fn write_enclosed(out: &mut Text, before: &[u8], x: &Expr, behind: &[u8]) -> Result<(), NoMemory>
    ensures { OnOk result (out.new ≡ spec.enclosed before.now (spec.written x.now) behind.now out.old) }
{
    out.says(behind)?;
    write_at(out, 4, x)?;
    out.says(before)
}

// Writes a comma where items come later.
fn write_comma(out: &mut Text, later: bool) -> Result<(), NoMemory>
    ensures { OnOk result (out.new ≡ comma_before later out.old) }
{
    if later { out.says(b",") } else { Ok(()) }
}

/// Writes the arguments of a call, or the parts of a tuple.
#[cycle(write)]
pub(crate) fn write_arguments(out: &mut Text, args: &[Expr]) -> Result<(), NoMemory>
    ensures { OnOk result (out.new ≡ spec.arguments (map spec.written args.now) out.old) }
{
    out.says(b")")?;
    write_list(out, args)?;
    out.says(b"(")
}

#[cycle(write)]
#[tactic(auto, using(crate::proofs::Lists::joined_first, crate::proofs::Lists::joined_later))]
fn write_list(out: &mut Text, args: &[Expr]) -> Result<(), NoMemory>
    ensures { OnOk result (out.new ≡ spec.listed (map spec.written args.now) out.old) }
{
    let mut later = false;
    for e in args.iter().rev() {
        write_comma(out, later)?;
        write_expression(out, e)?;
        later = true;
    }
    Ok(())
}
