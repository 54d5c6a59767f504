//! The events of a run of Main.

ghost use Rattle.std.specs.Prelude.{◌≡◌, ◌∷◌, ◌≤◌, [], IfOk, length};
ghost use Rattle.source_meaning.specs.Meaning.{events_at, main_call, main_return, stream};
ghost use Rattle.source_meaning.specs.Running.{store_of};

use crate::linked::Proc;
use crate::state::State;
use crate::trace::{CValue, End, Event};
use math_terms::NoMemory;
use sqlite_items::Items;
use std::alloc::Global;

// A stream as a value.
fn stream(alloc: Global, numbers: &[i64]) -> Result<CValue, NoMemory>
    ensures { IfOk result (λ value. value ≡ stream numbers.now) }
{
    let mut values = Items::new(alloc);
    for number in numbers {
        values.push(CValue::Int(*number))?;
    }
    Ok(CValue::Arr(values))
}

// The values of Main's parameters: the input and then the output.
fn streams(alloc: Global, input: &[i64], output: &[i64]) -> Result<Items<CValue>, NoMemory>
    ensures { IfOk result (λ values. values ≡ stream input.now ∷ stream output.now ∷ []) }
{
    let mut values = Items::new(alloc);
    values.push(stream(alloc, input)?)?;
    values.push(stream(alloc, output)?)?;
    Ok(values)
}

// The call of Main, which has this number.
fn main_call(alloc: Global, number: u32, main: &Proc, input: &[i64]) -> Result<Event, NoMemory>
    ensures { IfOk result (λ event. event ≡ main_call number main.now input.now) }
{
    Ok(Event {
        is_return: false,
        procedure: number,
        instance: main.instance,
        operation: main.operation.copy(alloc)?,
        now: streams(alloc, input, &[])?,
        before: Items::new(alloc),
    })
}

// The return of Main, which has this number.
fn main_return(
    alloc: Global,
    number: u32,
    main: &Proc,
    input: &[i64],
    state: &State,
) -> Result<Event, NoMemory>
    requires { state.now.taken ≤ length input.now }
    ensures { IfOk result (λ event. event ≡ main_return number main.now input.now (store_of input.now state.now)) }
{
    Ok(Event {
        is_return: true,
        procedure: number,
        instance: main.instance,
        operation: main.operation.copy(alloc)?,
        now: streams(alloc, &input[state.taken..], state.output.as_slice())?,
        before: streams(alloc, input, &[])?,
    })
}

/// The events of a run that ended so: the call of Main, which has this number, and its return, where the run is done.
pub fn events(
    alloc: Global,
    number: u32,
    main: &Proc,
    input: &[i64],
    outcome: End,
    state: &State,
) -> Result<Items<Event>, NoMemory>
    requires { state.now.taken ≤ length input.now }
    ensures { IfOk result (λ events. events ≡ events_at number main.now input.now (outcome, store_of input.now state.now)) }
{
    let mut events = Items::new(alloc);
    events.push(main_call(alloc, number, main, input)?)?;
    if matches!(outcome, End::Done) {
        events.push(main_return(alloc, number, main, input, state)?)?;
    }
    Ok(events)
}
