//! Runs of statements.

ghost use Rattle.std.specs.Prelude.{◌≤◌, length};
ghost use Rattle.source_meaning.specs.Meaning.{run_all, run_one};
ghost use Rattle.source_meaning.specs.Running.{Ran, store_of};

use crate::linked::LStmt;
use crate::operators::truth;
use crate::state::{Halt, State};
use sqlite_items::Items;

// A statement, which costs a unit of fuel when it begins.
#[cycle(run)]
fn run_statement(state: &mut State, input: &[i64], statement: &LStmt) -> Result<(), Halt>
    requires { state.old.taken ≤ length input.now }
    ensures ran { Ran (run_one statement.now (store_of input.now state.old)) result (store_of input.now state.new) }
    ensures taken { state.new.taken ≤ length input.now }
{
    state.pay()?;
    match statement {
        LStmt::LSet(spot, value) => state.set(input, *spot, value),
        LStmt::LRead(spot) => state.read(input, *spot),
        LStmt::LWrite(value) => state.write(input, value),
        LStmt::LIf(guard, first, second) => {
            if truth(state.evaluate(input, guard)?) {
                run_statements(state, input, first)
            } else {
                run_statements(state, input, second)
            }
        }
    }
}

/// Statements one after another.
#[cycle(run)]
pub fn run_statements(
    state: &mut State,
    input: &[i64],
    statements: &Items<LStmt>,
) -> Result<(), Halt>
    requires { state.old.taken ≤ length input.now }
    ensures ran { Ran (run_all statements.now (store_of input.now state.old)) result (store_of input.now state.new) }
    ensures taken { state.new.taken ≤ length input.now }
{
    for statement in statements.as_slice() {
        run_statement(state, input, statement)?;
    }
    Ok(())
}
