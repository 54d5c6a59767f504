//! The meaning of a linked program, found by running it.

ghost use Rattle.std.specs.Prelude.{◌≡◌, ◌≤◌, IfErr, IfOk, List, length, slice_get, ℤ};
ghost use Rattle.source_meaning.specs.declared.linked.Proc.{Proc};
ghost use Rattle.source_meaning.specs.Formed.{IsFormed};
ghost use Rattle.source_meaning.specs.Meaning.{begins, ended, initial_of, initial_values, run_all};
ghost use Rattle.source_meaning.specs.Running.{store_of};
ghost use Rattle.source_meaning.specs.Trace.{IsMeaningRefusal, trace_of};

use crate::events::events;
use crate::linked::{Linked, Proc, Scalar, TypeForm};
use crate::running::run_statements;
use crate::state::{Halt, State};
use crate::trace::{End, MeaningError, Trace};
use math_terms::NoMemory;
use sqlite_items::Items;
use std::alloc::Global;

// What a variable of a type has at first.
fn initial(types: &Items<TypeForm>, number: u32) -> Scalar
    ensures { result ≡ initial_of (slice_get types.now number) }
{
    match types.get(number as usize) {
        Some(TypeForm::Bool) => Scalar::Bool(false),
        _ => Scalar::Int(0),
    }
}

// What the variables of these types have at first.
fn initial_values(
    alloc: Global,
    types: &Items<TypeForm>,
    locals: &Items<u32>,
) -> Result<Items<Scalar>, NoMemory>
    ensures { IfOk result (λ values. values ≡ initial_values types.now locals.now) }
{
    let mut values = Items::new(alloc);
    for number in locals.as_slice() {
        values.push(initial(types, *number))?;
    }
    Ok(values)
}

// Where a run of Main begins.
fn begin(alloc: Global, l: &Linked, main: &Proc, fuel: u64) -> Result<State, NoMemory>
    ensures begins { IfOk result (λ s. (input : List ℤ) → store_of input s ≡ begins l.now main.now input fuel) }
    ensures taken { IfOk result (λ s. s.taken ≡ 0) }
{
    Ok(State {
        locals: initial_values(alloc, &l.types, &main.locals)?,
        taken: 0,
        output: Items::new(alloc),
        fuel,
    })
}

// How the statements of Main end.
fn finish(state: &mut State, input: &[i64], main: &Proc) -> Result<End, NoMemory>
    requires { state.old.taken ≤ length input.now }
    ensures ended { IfOk result (λ end. (end, store_of input.now state.new) ≡ ended (run_all main.now.body (store_of input.now state.old))) }
    ensures taken { state.new.taken ≤ length input.now }
{
    match run_statements(state, input, &main.body) {
        Ok(()) => Ok(End::Done),
        Err(Halt::Ended(end)) => Ok(end),
        Err(Halt::NoMemory) => Err(NoMemory),
    }
}

// The trace of a program whose one procedure is Main.
fn trace(
    alloc: Global,
    l: &Linked,
    main: &Proc,
    input: &[i64],
    fuel: u64,
) -> Result<Trace, NoMemory>
    ensures { IfOk result (λ t. t ≡ trace_of l.now main.now input.now fuel) }
{
    let mut state = begin(alloc, l, main, fuel)?;
    let outcome = finish(&mut state, input, main)?;
    Ok(Trace {
        outcome,
        events: events(alloc, l.main, main, input, outcome, &state)?,
        output: state.output,
    })
}

/// What a formed program does on an input with so many units of fuel, of which each statement costs one: how the run ends,
/// its events and its output.
pub fn meaning(alloc: Global, l: &Linked, input: &[i64], fuel: u64) -> Result<Trace, MeaningError>
    requires formed { (p : Proc) × IsFormed l.now p }
    ensures trace { IfOk result (λ t. (p : Proc) → IsFormed l.now p → t ≡ trace_of l.now p input.now fuel) }
    ensures refused { IfErr result IsMeaningRefusal }
{
    let Some(main) = l.procs.get(0) else {
        unreachable!()
    };
    match trace(alloc, l, main, input, fuel) {
        Ok(trace) => Ok(trace),
        Err(NoMemory) => Err(MeaningError::NoMemory),
    }
}
