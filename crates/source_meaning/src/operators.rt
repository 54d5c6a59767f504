//! The operators on scalars.

ghost use Rattle.std.specs.Prelude.{◌≡◌, ◌+ℤ◌, ◌-ℤ◌};
ghost use Rattle.source_meaning.specs.Meaning.{apply, in_range, number, same, truth};

use crate::linked::{BinOp, Scalar};
use crate::trace::WrongKind;

/// The number; a truth value counts as 0.
pub fn number(scalar: Scalar) -> i64
    ensures { result ≡ number scalar }
{
    match scalar {
        Scalar::Int(number) => number,
        Scalar::Bool(_) => 0,
    }
}

/// The truth value; a number counts as false.
pub fn truth(scalar: Scalar) -> bool
    ensures { result ≡ truth scalar }
{
    match scalar {
        Scalar::Int(_) => false,
        Scalar::Bool(truth) => truth,
    }
}

// Whether two scalars are the same. A number is no truth value.
fn same(left: Scalar, right: Scalar) -> bool
    ensures { result ≡ same left right }
{
    match (left, right) {
        (Scalar::Int(left), Scalar::Int(right)) => left == right,
        (Scalar::Bool(left), Scalar::Bool(right)) => left == right,
        _ => false,
    }
}

fn sum(left: i64, right: i64) -> Result<Scalar, WrongKind>
    ensures { result ≡ in_range (left +ℤ right) }
{
    match left.checked_add(right) {
        Some(sum) => Ok(Scalar::Int(sum)),
        None => Err(WrongKind::Range),
    }
}

fn difference(left: i64, right: i64) -> Result<Scalar, WrongKind>
    ensures { result ≡ in_range (left -ℤ right) }
{
    match left.checked_sub(right) {
        Some(difference) => Ok(Scalar::Int(difference)),
        None => Err(WrongKind::Range),
    }
}

/// The operator on two values.
pub fn apply(operator: BinOp, left: Scalar, right: Scalar) -> Result<Scalar, WrongKind>
    ensures { result ≡ apply operator left right }
{
    match operator {
        BinOp::Add => sum(number(left), number(right)),
        BinOp::Sub => difference(number(left), number(right)),
        BinOp::Eq => Ok(Scalar::Bool(same(left, right))),
        BinOp::NotEq => Ok(Scalar::Bool(!same(left, right))),
        BinOp::Less => Ok(Scalar::Bool(number(left) < number(right))),
        BinOp::LessEq => Ok(Scalar::Bool(number(left) <= number(right))),
        BinOp::Greater => Ok(Scalar::Bool(number(left) > number(right))),
        BinOp::GreaterEq => Ok(Scalar::Bool(number(left) >= number(right))),
        BinOp::And => Ok(Scalar::Bool(truth(left) && truth(right))),
        BinOp::Or => Ok(Scalar::Bool(truth(left) || truth(right))),
    }
}
