//! Where a run stands, and what expressions and single statements do there.

ghost use Rattle.std.specs.Prelude.{◌≡◌, ◌≤◌, length};
ghost use Rattle.source_meaning.specs.Meaning.{at_spot, given, number, read, set, value, with_spot, write};
ghost use Rattle.source_meaning.specs.Running.{Paid, Ran, store_of};

use crate::linked::{LExpr, Scalar, Spot};
use crate::operators::{apply, number, truth};
use crate::trace::{End, WrongKind};
use sqlite_items::Items;
use std::alloc::AllocError;

/// Why a run does not go on: it is over, or memory ran out.
#[derive(Clone, Copy)]
pub enum Halt {
    Ended(End),
    NoMemory,
}

impl From<WrongKind> for Halt {
    ghost use Rattle.std.specs.Prelude.{◌≡◌};
    ghost use Rattle.source_meaning.specs.declared.trace.End.TheVariants.{Wrong};
    ghost use Rattle.source_meaning.specs.declared.state.Halt.TheVariants.{Ended};

    ghost from_gives = { λ kind halt. halt ≡ Ended (Wrong kind) };

    fn from(kind: WrongKind) -> Halt {
        Halt::Ended(End::Wrong(kind))
    }
}

impl From<AllocError> for Halt {
    ghost use Rattle.std.specs.Prelude.{◌≡◌};
    ghost use Rattle.source_meaning.specs.declared.state.Halt.TheVariants.{NoMemory};

    ghost from_gives = { λ _ halt. halt ≡ NoMemory };

    fn from(_refused: AllocError) -> Halt {
        Halt::NoMemory
    }
}

/// The variables' values, how many numbers of the input are taken, the output so far and the fuel that is left.
#[derive(Drop)]
pub struct State {
    pub locals: Items<Scalar>,
    pub taken: usize,
    pub output: Items<i64>,
    pub fuel: u64,
}

impl State {
    // The value at a place, 0 where there is none.
    fn get(&self, spot: Spot) -> Scalar
        ensures { result ≡ at_spot self.now.locals spot }
    {
        match spot {
            Spot::Local(number) => {
                let local = self.locals.get(number as usize).copied();
                local.unwrap_or(Scalar::Int(0))
            }
            Spot::Field(_, _) => Scalar::Int(0),
        }
    }

    // Another value at a place, where there is one.
    fn put(&mut self, spot: Spot, value: Scalar)
        ensures { self.new ≡ record self.old { locals = with_spot self.old.locals spot value } }
    {
        match spot {
            Spot::Local(number) if (number as usize) < self.locals.len() => {
                self.locals.set(number as usize, value);
            }
            _ => {}
        }
    }

    /// The value of an expression. Both operands are evaluated, from the left.
    pub fn evaluate(&self, input: &[i64], expression: &LExpr) -> Result<Scalar, WrongKind>
        requires { self.now.taken ≤ length input.now }
        ensures { result ≡ value (store_of input.now self.now) expression.now }
    {
        match expression {
            LExpr::Const(scalar) => Ok(*scalar),
            LExpr::Get(spot) => Ok(self.get(*spot)),
            LExpr::Remaining => Ok(Scalar::Int((input.len() - self.taken) as i64)),
            LExpr::Not(operand) => {
                let value = self.evaluate(input, operand.get())?;
                Ok(Scalar::Bool(!truth(value)))
            }
            LExpr::Op(operator, left, right) => {
                let left = self.evaluate(input, left.get())?;
                let right = self.evaluate(input, right.get())?;
                apply(*operator, left, right)
            }
        }
    }

    /// Takes a unit of fuel.
    pub fn pay(&mut self) -> Result<(), Halt>
        ensures { Paid self.old result self.new }
    {
        if self.fuel == 0 {
            return Err(Halt::Ended(End::Spent));
        }
        self.fuel -= 1;
        Ok(())
    }

    /// Gives a place the value of an expression.
    pub fn set(&mut self, input: &[i64], spot: Spot, expression: &LExpr) -> Result<(), Halt>
        requires { self.old.taken ≤ length input.now }
        ensures ran { let s = store_of input.now self.old in Ran (given s (value s expression.now) (set s spot)) result (store_of input.now self.new) }
        ensures taken { self.new.taken ≤ length input.now }
    {
        let value = self.evaluate(input, expression)?;
        self.put(spot, value);
        Ok(())
    }

    /// Gives a place the next number of the input.
    pub fn read(&mut self, input: &[i64], spot: Spot) -> Result<(), Halt>
        requires { self.old.taken ≤ length input.now }
        ensures ran { let s = store_of input.now self.old in Ran (read s spot s.input) result (store_of input.now self.new) }
        ensures taken { self.new.taken ≤ length input.now }
    {
        if self.taken == input.len() {
            return Err(Halt::Ended(End::Wrong(WrongKind::EndOfInput)));
        }
        self.put(spot, Scalar::Int(input[self.taken]));
        self.taken += 1;
        Ok(())
    }

    /// Writes the value of an expression.
    pub fn write(&mut self, input: &[i64], expression: &LExpr) -> Result<(), Halt>
        requires { self.old.taken ≤ length input.now }
        ensures ran { let s = store_of input.now self.old in Ran (given s (value s expression.now) (λ v. write s (number v))) result (store_of input.now self.new) }
        ensures taken { self.new.taken ≤ length input.now }
    {
        let value = self.evaluate(input, expression)?;
        self.output.push(number(value))?;
        Ok(())
    }
}
