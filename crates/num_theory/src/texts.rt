//! The texts of terms, by the bytes of which atoms are ordered.

ghost use Rattle.std.specs.Prelude.{◌≡◌, ◌++◌, IfOk, OnOk, codes, decimal, map, [], ◌∷◌};
ghost use Rattle.std.specs.Fmt.{signed_decimal};
ghost use Rattle.math_terms.specs.Views.{binary_node, unary_node};
ghost use Rattle.num_theory.specs.Texts as spec;
ghost use Rattle.num_theory.specs.Linear as forms;

use itoa::Buffer;
use math_terms::{Binary, NoMemory, Term, Unary, View};
use std::alloc::Global;

/// The text of a term, with the fewest parentheses and a variable of number n as `vn`: its bytes order atoms.
pub fn text_of(alloc: Global, t: &Term) -> Result<Vec<u8>, NoMemory>
    ensures { IfOk result (λ text. text.items ≡ spec.text t.now) }
{
    let mut out = Vec::new(alloc);
    write_term(&mut out, t)?;
    Ok(out)
}

/// Whether the one text stands before the other, or the two are equal.
pub(crate) fn stands_before(a: &[u8], b: &[u8]) -> bool
    ensures { result ≡ forms.text_before a.now b.now }
{
    for k in 0..a.len() {
        if k >= b.len() {
            return false;
        }
        if a[k] != b[k] {
            return a[k] < b[k];
        }
    }
    true
}

fn put(out: &mut Vec<u8>, text: &[u8]) -> Result<(), NoMemory>
    ensures { OnOk result (out.new.items ≡ out.old.items ++ text.now) }
{
    match out.extend_from_slice(text) {
        Ok(()) => Ok(()),
        Err(_) => Err(NoMemory),
    }
}

fn put_number(out: &mut Vec<u8>, n: i64) -> Result<(), NoMemory>
    ensures { OnOk result (out.new.items ≡ out.old.items ++ signed_decimal n) }
{
    let mut buffer = Buffer::new();
    put(out, buffer.format(n).as_bytes())
}

/// A mark and the number of a variable or of a tuple's part.
fn put_index(out: &mut Vec<u8>, mark: &[u8], k: u32) -> Result<(), NoMemory>
    ensures { OnOk result (out.new.items ≡ out.old.items ++ (mark.now ++ decimal k)) }
{
    put(out, mark)?;
    let mut buffer = Buffer::new();
    put(out, buffer.format(k).as_bytes())
}

fn put_truth(out: &mut Vec<u8>, b: bool) -> Result<(), NoMemory>
    ensures { OnOk result (out.new.items ≡ out.old.items ++ spec.truth_text b) }
{
    if b {
        put(out, b"true")
    } else {
        put(out, b"false")
    }
}

/// An operator: how strongly it holds its operands together, how strong these are at least, and what stands between them.
#[derive(Clone, Copy)]
struct Operator {
    strength: u32,
    left: u32,
    symbol: &'static [u8],
    right: u32,
}

fn operator_of(op: Binary) -> Operator
    ensures { (a b : spec.Piece) → spec.text_step (binary_node op a b) ≡ spec.between_two result.strength result.left result.symbol.now result.right a b }
{
    match op {
        Binary::Add => between(6, 6, b" + ", 7),
        Binary::Sub => between(6, 6, b" - ", 7),
        Binary::Mul => between(7, 7, b" * ", 8),
        Binary::Div => between(7, 7, b" div ", 8),
        Binary::Mod => between(7, 7, b" mod ", 8),
        Binary::Cat => between(5, 5, b" o ", 6),
        Binary::Eq => between(4, 5, b" = ", 5),
        Binary::Less => between(4, 5, b" < ", 5),
        Binary::LessEq => between(4, 5, b" <= ", 5),
        Binary::And => between(2, 2, b" and ", 3),
        Binary::Or => between(1, 1, b" or ", 2),
        Binary::Implies => between(0, 1, b" implies ", 0),
    }
}

fn between(strength: u32, left: u32, symbol: &'static [u8], right: u32) -> Operator
    ensures strength { result.strength ≡ strength }
    ensures left { result.left ≡ left }
    ensures symbol { result.symbol.now ≡ symbol.now }
    ensures right { result.right ≡ right }
{
    Operator {
        strength,
        left,
        symbol,
        right,
    }
}

/// How strongly the term's outermost form holds its parts together, from 0 to 9.
fn strength(t: &Term) -> u32
    ensures { result ≡ (spec.piece t.now).0 }
{
    match t.view() {
        View::Two(op, _, _) => operator_of(op).strength,
        View::One(Unary::Not, _) => 3,
        _ => 9,
    }
}

/// The term's text, at the end of `out`.
#[cycle(write)]
fn write_term(out: &mut Vec<u8>, t: &Term) -> Result<(), NoMemory>
    ensures { OnOk result (out.new.items ≡ out.old.items ++ spec.text t.now) }
{
    match t.view() {
        View::Num(n) => put_number(out, n),
        View::Truth(b) => put_truth(out, b),
        View::MinInt => put(out, b"min_int"),
        View::MaxInt => put(out, b"max_int"),
        View::Var(k) => put_index(out, b"v", k),
        View::Empty => put(out, b"Empty_String"),
        View::One(op, a) => write_one(out, op, a),
        View::Two(op, a, b) => write_two(out, op, a, b),
        View::Part(i, j, a) => write_stretch(out, i, j, a),
        View::Tuple(parts) => write_tuple(out, parts),
        View::Proj(k, a) => write_projection(out, k, a),
        View::Initial(_, a) => write_call(out, b"Is_Initial", a),
    }
}

#[cycle(write)]
fn write_one(out: &mut Vec<u8>, op: Unary, a: &Term) -> Result<(), NoMemory>
    ensures { OnOk result (out.new.items ≡ out.old.items ++ (spec.text_step (unary_node op (spec.piece a.now))).1) }
{
    match op {
        Unary::Len => write_around(out, b"|", 5, a, b"|"),
        Unary::Single => write_around(out, b"<", 5, a, b">"),
        Unary::Reverse => write_call(out, b"Reverse", a),
        Unary::Not => write_around(out, b"not ", 3, a, b""),
    }
}

#[cycle(write)]
fn write_two(out: &mut Vec<u8>, op: Binary, a: &Term, b: &Term) -> Result<(), NoMemory>
    ensures { OnOk result (out.new.items ≡ out.old.items ++ (spec.text_step (binary_node op (spec.piece a.now) (spec.piece b.now))).1) }
{
    let operator = operator_of(op);
    write_operand(out, operator.left, a)?;
    put(out, operator.symbol)?;
    write_operand(out, operator.right, b)
}

/// The term's text where a form of at least this strength may stand: in parentheses if it is weaker.
#[cycle(write)]
fn write_operand(out: &mut Vec<u8>, least: u32, t: &Term) -> Result<(), NoMemory>
    ensures { OnOk result (out.new.items ≡ out.old.items ++ spec.at_least least (spec.piece t.now)) }
{
    if least <= strength(t) {
        write_term(out, t)
    } else {
        write_in_parentheses(out, t)
    }
}

#[cycle(write)]
fn write_in_parentheses(out: &mut Vec<u8>, t: &Term) -> Result<(), NoMemory>
    ensures { OnOk result (out.new.items ≡ out.old.items ++ spec.in_parentheses (spec.text t.now)) }
{
    put(out, b"(")?;
    write_term(out, t)?;
    put(out, b")")
}

/// An operand of at least this strength between two marks.
#[cycle(write)]
fn write_around(
    out: &mut Vec<u8>,
    before: &[u8],
    least: u32,
    a: &Term,
    after: &[u8],
) -> Result<(), NoMemory>
    ensures { OnOk result (out.new.items ≡ out.old.items ++ (before.now ++ (spec.at_least least (spec.piece a.now) ++ after.now))) }
{
    put(out, before)?;
    write_operand(out, least, a)?;
    put(out, after)
}

/// A call of one argument.
#[cycle(write)]
fn write_call(out: &mut Vec<u8>, name: &[u8], a: &Term) -> Result<(), NoMemory>
    ensures { OnOk result (out.new.items ≡ out.old.items ++ (name.now ++ spec.in_parentheses (spec.text a.now))) }
{
    put(out, name)?;
    write_in_parentheses(out, a)
}

/// The entries of a string between two places.
#[cycle(write)]
fn write_stretch(out: &mut Vec<u8>, i: &Term, j: &Term, a: &Term) -> Result<(), NoMemory>
    ensures { OnOk result (out.new.items ≡ out.old.items ++ (spec.called (codes "Prt_Btwn") (spec.piece i.now ∷ spec.piece j.now ∷ spec.piece a.now ∷ [])).1) }
{
    put(out, b"Prt_Btwn(")?;
    write_term(out, i)?;
    put(out, b", ")?;
    write_term(out, j)?;
    put(out, b", ")?;
    write_term(out, a)?;
    put(out, b")")
}

#[cycle(write)]
fn write_projection(out: &mut Vec<u8>, k: u32, a: &Term) -> Result<(), NoMemory>
    ensures { OnOk result (out.new.items ≡ out.old.items ++ (spec.at_least 9 (spec.piece a.now) ++ (codes "." ++ decimal k))) }
{
    write_operand(out, 9, a)?;
    put_index(out, b".", k)
}

#[cycle(write)]
fn write_tuple(out: &mut Vec<u8>, parts: &[Term]) -> Result<(), NoMemory>
    ensures { OnOk result (out.new.items ≡ out.old.items ++ spec.in_parentheses (spec.listed (map spec.piece parts.now))) }
{
    put(out, b"(")?;
    write_listed(out, parts)?;
    put(out, b")")
}

#[cycle(write)]
fn write_listed(out: &mut Vec<u8>, parts: &[Term]) -> Result<(), NoMemory>
    ensures { OnOk result (out.new.items ≡ out.old.items ++ spec.listed (map spec.piece parts.now)) }
{
    for (k, part) in parts.iter().enumerate() {
        put(out, separator(k))?;
        write_term(out, part)?;
    }
    Ok(())
}

/// What stands before part k of a tuple, counted from 0.
fn separator(k: usize) -> &'static [u8]
    ensures { result.now ≡ spec.separator k }
{
    if k == 0 { b"" } else { b", " }
}
