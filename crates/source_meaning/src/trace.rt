//! What a run of a linked program shows.

use math_terms::Name;
use sqlite_items::Items;

/// A concrete value. A stream counts as an array of numbers.
#[derive(Debug, Drop)]
pub enum CValue {
    Int(i64),
    Bool(bool),
    Arr(Items<CValue>),
}

/// What went wrong: a number outside 64 bits, or a read at the end of the input.
#[derive(Clone, Copy, Debug, PartialEq, Eq)]
pub enum WrongKind {
    Range,
    Divisor,
    Index,
    EndOfInput,
}

/// How a run ends. Spent: something began for which no unit of fuel was left. Deep: a call with 1,000 open activations.
#[derive(Clone, Copy, Debug, PartialEq, Eq)]
pub enum End {
    Done,
    Spent,
    Deep,
    Wrong(WrongKind),
}

/// A call or a return: the values of the heading's parameters in order, streams among them, and beside a return
/// those at its call.
#[derive(Debug, Drop)]
pub struct Event {
    pub is_return: bool,
    pub procedure: u32,
    pub instance: u32,
    pub operation: Name,
    pub now: Items<CValue>,
    pub before: Items<CValue>,
}

/// A run: how it ended, its events in order, and the numbers that it wrote.
#[derive(Debug, Drop)]
pub struct Trace {
    pub outcome: End,
    pub events: Items<Event>,
    pub output: Items<i64>,
}

/// Why a run has no trace.
#[derive(Clone, Copy, Debug, PartialEq, Eq)]
pub enum MeaningError {
    Wide,
    NoMemory,
}
