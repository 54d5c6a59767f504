//! The operators of the machine, on the topmost operands.

ghost use Rattle.std.specs.Prelude.{◌≡◌, ◌∷◌, ◌+ℤ◌, ◌-ℤ◌, ◌&&◌, ◌||◌, IsSome, OnOk, Some, int_lt, int_le};
ghost use Rattle.source_meaning.specs.declared.linked.Scalar.{Scalar};
ghost use Rattle.stack_machine.specs.Machine.{in_word, negated, on_alike, on_numbers, on_truths};
ghost use Rattle.stack_machine.specs.Running.{HasNumber, HasTruth, HasTwoNumbers, HasTwoTruths, operated};

use crate::image::Instr;
use crate::operands::Operands;
use math_terms::NoMemory;
use source_meaning::Scalar;

/// Takes the topmost operand, a number.
pub fn number(operands: &mut Operands) -> i64
    requires { HasNumber operands.old }
    ensures { operands.old ≡ Scalar.Int result ∷ operands.new }
{
    match operands.pop() {
        Some(Scalar::Int(number)) => number,
        _ => unreachable!(),
    }
}

/// Takes the topmost operand, a truth value.
pub fn truth(operands: &mut Operands) -> bool
    requires { HasTruth operands.old }
    ensures { operands.old ≡ Scalar.Bool result ∷ operands.new }
{
    match operands.pop() {
        Some(Scalar::Bool(truth)) => truth,
        _ => unreachable!(),
    }
}

// Takes the two topmost operands, numbers, and answers the left one first.
fn two_numbers(operands: &mut Operands) -> (i64, i64)
    requires { HasTwoNumbers operands.old }
    ensures { operands.old ≡ Scalar.Int result.1 ∷ Scalar.Int result.0 ∷ operands.new }
{
    let right = number(operands);
    let left = number(operands);
    (left, right)
}

// The same for truth values.
fn two_truths(operands: &mut Operands) -> (bool, bool)
    requires { HasTwoTruths operands.old }
    ensures { operands.old ≡ Scalar.Bool result.1 ∷ Scalar.Bool result.0 ∷ operands.new }
{
    let right = truth(operands);
    let left = truth(operands);
    (left, right)
}

/// An operator on the topmost operands.
pub fn operate(operands: &mut Operands, instr: Instr) -> Result<(), NoMemory>
    requires { IsSome (operated instr operands.old) }
    ensures { OnOk result (operated instr operands.old ≡ Some operands.new) }
{
    match instr {
        Instr::Add => add(operands),
        Instr::Sub => sub(operands),
        Instr::Eq => equal(operands),
        Instr::Less => less(operands),
        Instr::LessEq => less_or_equal(operands),
        Instr::Not => negate(operands),
        Instr::And => conjoin(operands),
        Instr::Or => disjoin(operands),
        _ => unreachable!(),
    }
}

// The sum of two numbers, within 64 bits.
fn add(operands: &mut Operands) -> Result<(), NoMemory>
    requires { IsSome (on_numbers (λ a b. in_word (a +ℤ b)) operands.old) }
    ensures { OnOk result (on_numbers (λ a b. in_word (a +ℤ b)) operands.old ≡ Some operands.new) }
{
    let (left, right) = two_numbers(operands);
    operands.push(Scalar::Int(left + right))
}

// The difference of two numbers, within 64 bits.
fn sub(operands: &mut Operands) -> Result<(), NoMemory>
    requires { IsSome (on_numbers (λ a b. in_word (a -ℤ b)) operands.old) }
    ensures { OnOk result (on_numbers (λ a b. in_word (a -ℤ b)) operands.old ≡ Some operands.new) }
{
    let (left, right) = two_numbers(operands);
    operands.push(Scalar::Int(left - right))
}

// Whether the left number is less.
fn less(operands: &mut Operands) -> Result<(), NoMemory>
    requires { HasTwoNumbers operands.old }
    ensures { OnOk result (on_numbers (λ a b. Some (Scalar.Bool (int_lt a b))) operands.old ≡ Some operands.new) }
{
    let (left, right) = two_numbers(operands);
    operands.push(Scalar::Bool(left < right))
}

// Whether the left number is less, or both are equal.
fn less_or_equal(operands: &mut Operands) -> Result<(), NoMemory>
    requires { HasTwoNumbers operands.old }
    ensures { OnOk result (on_numbers (λ a b. Some (Scalar.Bool (int_le a b))) operands.old ≡ Some operands.new) }
{
    let (left, right) = two_numbers(operands);
    operands.push(Scalar::Bool(left <= right))
}

// Whether two numbers or two truth values are equal.
fn equal(operands: &mut Operands) -> Result<(), NoMemory>
    requires { IsSome (on_alike operands.old) }
    ensures { OnOk result (on_alike operands.old ≡ Some operands.new) }
{
    let equal = match (operands.pop(), operands.pop()) {
        (Some(Scalar::Int(right)), Some(Scalar::Int(left))) => left == right,
        (Some(Scalar::Bool(right)), Some(Scalar::Bool(left))) => left == right,
        _ => unreachable!(),
    };
    operands.push(Scalar::Bool(equal))
}

// The other truth value.
fn negate(operands: &mut Operands) -> Result<(), NoMemory>
    requires { HasTruth operands.old }
    ensures { OnOk result (negated operands.old ≡ Some operands.new) }
{
    let truth = truth(operands);
    operands.push(Scalar::Bool(!truth))
}

// Whether both truth values hold.
fn conjoin(operands: &mut Operands) -> Result<(), NoMemory>
    requires { HasTwoTruths operands.old }
    ensures { OnOk result (on_truths (λ a b. a && b) operands.old ≡ Some operands.new) }
{
    let (left, right) = two_truths(operands);
    operands.push(Scalar::Bool(left && right))
}

// Whether one of two truth values holds.
fn disjoin(operands: &mut Operands) -> Result<(), NoMemory>
    requires { HasTwoTruths operands.old }
    ensures { OnOk result (on_truths (λ a b. a || b) operands.old ≡ Some operands.new) }
{
    let (left, right) = two_truths(operands);
    operands.push(Scalar::Bool(left || right))
}
