//! The truth of closed formulas, by evaluation.

ghost use Rattle.std.specs.Prelude.{◌≡◌, ◌≢◌, IfOk, Ok, MatchOption, Bool, true, false, ℤ, map, FitsSigned};
ghost use Rattle.std.specs.Int.{w128};
ghost use Rattle.std.specs.Option.{SomeIff};
ghost use Rattle.math_terms.specs.Values.{Val, Num, denotes};
ghost use Rattle.math_terms.specs.declared.term.Term.TheOpen.{Term-F};
ghost use Rattle.math_terms.specs.Meaning.{Valuation, value_step};
ghost use Rattle.math_terms.specs.Descriptors.{Interpretation, holds, nothing, zeros};
ghost use Rattle.math_terms.specs.Plain.{is_narrow, is_plain, plain_step};
ghost use Rattle.math_terms.specs.working.Evaluating.{IsEvaluation, plain};
ghost use Rattle.math_terms.specs.Views.{binary_node, unary_node};

use crate::name::NoMemory;
use crate::operations::{
    entries_between, entries_of, number_of, part_of, quotient_of, remainder_of, reversed, truth_of,
    within,
};
use crate::term::{Formula, Term};
use crate::value::Value;
use crate::view::{Binary, Unary, View};
use sqlite_items::Items;
use std::alloc::Global;

/// The value of a term, or none where the term is not plain.
type Evaluated = Result<Option<Value>, NoMemory>;

/// Whether a closed formula is true. It is none where a variable, `MinInt`, `MaxInt` or `Initial` stands anywhere,
/// or where the number of some node does not fit 128 bits. A closed term of another sort is not true.
pub fn truth(alloc: Global, f: &Formula) -> Result<Option<bool>, NoMemory>
    ensures { IfOk result (λ o. MatchOption o (is_plain f.now ≡ false) (λ b. (is_plain f.now ≡ true) × ((I : Interpretation) (w : Valuation) → holds I w f.now ≡ b))) }
{
    match evaluate(alloc, f)? {
        Some(v) => Ok(Some(truth_of(&v))),
        None => Ok(None),
    }
}

#[cycle(evaluate)]
fn evaluate(alloc: Global, t: &Term) -> Evaluated
    ensures { IsEvaluation (plain t.now) result }
{
    match t.view() {
        View::Num(n) => Ok(Some(Value::Num(i128::from(n)))),
        View::Truth(b) => Ok(Some(Value::Truth(b))),
        View::Empty => Ok(Some(Value::Str(Items::new(alloc)))),
        View::MinInt | View::MaxInt | View::Var(_) | View::Initial(_, _) => Ok(None),
        View::One(op, a) => from_one(alloc, op, evaluate(alloc, a)),
        View::Two(op, a, b) => from_two(alloc, op, evaluate(alloc, a), evaluate(alloc, b)),
        View::Part(i, j, a) => part(
            alloc,
            evaluate(alloc, i),
            evaluate(alloc, j),
            evaluate(alloc, a),
        ),
        View::Tuple(parts) => evaluate_tuple(alloc, parts),
        View::Proj(k, a) => projection(alloc, k, evaluate(alloc, a)),
    }
}

#[cycle(evaluate)]
fn evaluate_tuple(alloc: Global, parts: &[Term]) -> Evaluated
    ensures { IsEvaluation (plain_step (Term-F.Tuple (map plain parts.now))) result }
{
    let mut out = Items::new(alloc);
    for t in parts {
        match evaluate(alloc, t)? {
            Some(v) => out.push(v)?,
            None => return Ok(None),
        }
    }
    Ok(Some(Value::Tup(out)))
}

/// A node with two children, from their evaluations.
fn from_two(alloc: Global, op: Binary, a: Evaluated, b: Evaluated) -> Evaluated
    ensures { (p q : Val × Bool) → IsEvaluation p a → IsEvaluation q b → IsEvaluation (plain_step (binary_node op p q)) result }
{
    match a? {
        Some(a) => match b? {
            Some(b) => apply_binary(alloc, op, a, b),
            None => Ok(None),
        },
        None => Ok(None),
    }
}

fn apply_binary(alloc: Global, op: Binary, a: Value, b: Value) -> Evaluated
    ensures { let v = value_step nothing zeros (binary_node op (denotes a) (denotes b)) in IsEvaluation (v, is_narrow v) result }
{
    if op == Binary::Cat {
        joined(alloc, a, b)
    } else {
        Ok(computed(op, &a, &b))
    }
}

/// Two strings one after the other.
fn joined(alloc: Global, a: Value, b: Value) -> Evaluated
    ensures { let v = value_step nothing zeros (Term-F.Cat (denotes a) (denotes b)) in IsEvaluation (v, is_narrow v) result }
{
    let mut entries = entries_of(alloc, a);
    entries.append(entries_of(alloc, b))?;
    Ok(Some(Value::Str(entries)))
}

/// What any other node with two children gives.
fn computed(op: Binary, a: &Value, b: &Value) -> Option<Value>
    ensures { op ≢ Binary.Cat → let v = value_step nothing zeros (binary_node op (denotes a.now) (denotes b.now)) in IsEvaluation (v, is_narrow v) (Ok result) }
{
    match op {
        Binary::Add => number_within(number_of(a).checked_add(number_of(b))),
        Binary::Sub => number_within(number_of(a).checked_sub(number_of(b))),
        Binary::Mul => number_within(number_of(a).checked_mul(number_of(b))),
        Binary::Div => Some(Value::Num(quotient_of(number_of(a), number_of(b)))),
        Binary::Mod => Some(Value::Num(remainder_of(number_of(a), number_of(b)))),
        Binary::Cat => None,
        Binary::Eq => Some(Value::Truth(a.same(b))),
        Binary::Less => Some(Value::Truth(number_of(a) < number_of(b))),
        Binary::LessEq => Some(Value::Truth(number_of(a) <= number_of(b))),
        Binary::And => Some(Value::Truth(truth_of(a) && truth_of(b))),
        Binary::Or => Some(Value::Truth(truth_of(a) || truth_of(b))),
        Binary::Implies => Some(Value::Truth(!truth_of(a) || truth_of(b))),
    }
}

/// A node with one child, from its evaluation.
fn from_one(alloc: Global, op: Unary, a: Evaluated) -> Evaluated
    ensures { (p : Val × Bool) → IsEvaluation p a → IsEvaluation (plain_step (unary_node op p)) result }
{
    match a? {
        Some(a) => apply_unary(alloc, op, a),
        None => Ok(None),
    }
}

fn apply_unary(alloc: Global, op: Unary, a: Value) -> Evaluated
    ensures { let v = value_step nothing zeros (unary_node op (denotes a)) in IsEvaluation (v, is_narrow v) result }
{
    match op {
        Unary::Len => Ok(Some(Value::Num(entries_of(alloc, a).len() as i128))),
        Unary::Single => {
            let mut entries = Items::new(alloc);
            entries.push(a)?;
            Ok(Some(Value::Str(entries)))
        }
        Unary::Reverse => Ok(Some(Value::Str(reversed(alloc, entries_of(alloc, a))?))),
        Unary::Not => Ok(Some(Value::Truth(!truth_of(&a)))),
    }
}

/// The entries of a string from one place to another, from the evaluations of the places and of the string.
fn part(alloc: Global, i: Evaluated, j: Evaluated, a: Evaluated) -> Evaluated
    ensures { (p q r : Val × Bool) → IsEvaluation p i → IsEvaluation q j → IsEvaluation r a → IsEvaluation (plain_step (Term-F.Part p q r)) result }
{
    match i? {
        Some(i) => match j? {
            Some(j) => match a? {
                Some(a) => {
                    let entries = entries_of(alloc, a);
                    let between = entries_between(
                        alloc,
                        number_of(&i),
                        number_of(&j),
                        entries.as_slice(),
                    )?;
                    Ok(Some(Value::Str(between)))
                }
                None => Ok(None),
            },
            None => Ok(None),
        },
        None => Ok(None),
    }
}

/// Part k of a tuple, from its evaluation.
fn projection(alloc: Global, k: u32, a: Evaluated) -> Evaluated
    ensures { (p : Val × Bool) → IsEvaluation p a → IsEvaluation (plain_step (Term-F.Proj k p)) result }
{
    match a? {
        Some(a) => Ok(Some(within(part_of(alloc, k, &a)?))),
        None => Ok(None),
    }
}

/// A number that may have left 128 bits.
fn number_within(n: Option<i128>) -> Option<Value>
    ensures { (z : ℤ) → SomeIff n (FitsSigned w128 z) z → IsEvaluation (Num z, is_narrow (Num z)) (Ok result) }
{
    match n {
        Some(n) => Some(Value::Num(n)),
        None => None,
    }
}
