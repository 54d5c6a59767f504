//! The lines by which the last row that was made comes from the table.
ghost use Rattle.std.specs.Prelude.{◌≡◌, ◌+◌, ◌^◌, ◌<◌, [], ◌∷◌, ◌++◌, All, IfOk, List, OnOk, length, map, replicate, reverse, false, ℕ};
ghost use Rattle.linear_prover.specs.Elimination.{kept, needed_by_last};
ghost use Rattle.linear_prover.specs.Elimination as spec;
ghost use Rattle.linear_prover.specs.working.Eliminating.{AreFlags, ArePlaces, AreUsable, IsClosed, IsUsable, called_by, flagged, line_by, marked};

use crate::rows_in_hand::{Combination, push};
use math_terms::{Line, NoMemory};
use sqlite_items::Items;
use std::alloc::Global;

// Sets the flag of a row, unless it stands in the table, which has n rows.
fn mark(flags: &mut [bool], n: u32, row: usize)
    requires { row < n + length flags.old }
    ensures { flags.new ≡ marked n flags.old row }
{
    let table = n as usize;
    if row >= table {
        flags[row - table] = true;
    }
}

// Sets the flag of each row from which a row with a flag comes.
fn mark_needed(flags: &mut [bool], n: u32, made: &[Combination])
    requires same_length { length flags.old ≡ length made.now }
    requires usable { AreUsable n made.now }
    ensures needed { (needed : List ℕ) → AreFlags n flags.old needed → flagged n flags.new made.now ≡ kept n (reverse made.now) needed [] }
    ensures closed { IsClosed n flags.new made.now }
{
    let mut at = made.len();
    while at > 0 {
        at -= 1;
        if flags[at] {
            mark(flags, n, made[at].i);
            mark(flags, n, made[at].j);
        }
    }
}

// As many flags, none of them set.
fn no_flags(alloc: Global, count: usize) -> Result<Vec<bool>, NoMemory>
    ensures { IfOk result (λ flags. flags.items ≡ replicate count false) }
{
    match vec![in alloc; false; count] {
        Ok(flags) => Ok(flags),
        Err(_) => Err(NoMemory),
    }
}

// Which combinations are needed for the last one.
fn needed(alloc: Global, n: u32, made: &[Combination]) -> Result<Vec<bool>, NoMemory>
    requires some { 0 < length made.now }
    requires usable { AreUsable n made.now }
    ensures same_length { IfOk result (λ flags. length flags.items ≡ length made.now) }
    ensures needed { IfOk result (λ flags. flagged n flags.items made.now ≡ needed_by_last n made.now) }
    ensures closed { IfOk result (λ flags. IsClosed n flags.items made.now) }
{
    let mut flags = no_flags(alloc, made.len())?;
    flags[made.len() - 1] = true;
    mark_needed(flags.as_mut_slice(), n, made);
    Ok(flags)
}

// How many flags are set before each.
fn counted(alloc: Global, flags: &[bool]) -> Result<Vec<u32>, NoMemory>
    requires { length flags.now < 2 ^ 31 }
    ensures { IfOk result (λ places. ArePlaces flags.now places.items) }
{
    let mut places = Vec::new(alloc);
    let mut count = 0;
    for flag in flags {
        push(&mut places, count)?;
        if *flag {
            count += 1;
        }
    }
    Ok(places)
}

// How a line calls a row.
fn called(n: u32, places: &[u32], row: usize) -> u32
    requires within { row < n + length places.now }
    requires small { All (λ place. n + place + 1 < 2 ^ 32) places.now }
    ensures { result ≡ called_by n places.now row }
{
    let table = n as usize;
    if row < table {
        row as u32 + 1
    } else {
        n + places[row - table] + 1
    }
}

// The line of a combination.
fn line(n: u32, places: &[u32], c: &Combination) -> Line
    requires usable { IsUsable n (length places.now) c.now }
    requires small { All (λ place. n + place + 1 < 2 ^ 32) places.now }
    ensures { result ≡ line_by n places.now c.now }
{
    Line {
        p: c.p as i32,
        i: called(n, places, c.i),
        q: c.q as i32,
        j: called(n, places, c.j),
    }
}

fn put(lines: &mut Items<Line>, line: Line) -> Result<(), NoMemory>
    ensures { OnOk result (lines.new ≡ lines.old ++ line ∷ []) }
{
    match lines.push(line) {
        Ok(()) => Ok(()),
        Err(_) => Err(NoMemory),
    }
}

// The lines of the combinations whose flags are set.
fn lines_by(
    alloc: Global,
    n: u32,
    made: &[Combination],
    flags: &[bool],
    places: &[u32],
) -> Result<Items<Line>, NoMemory>
    requires same_length { length flags.now ≡ length made.now }
    requires usable { All (IsUsable n (length places.now)) made.now }
    requires small { All (λ place. n + place + 1 < 2 ^ 32) places.now }
    ensures { IfOk result (λ lines. lines ≡ map (λ d. line_by n places.now d.1) (flagged n flags.now made.now)) }
{
    let mut lines = Items::new(alloc);
    for (at, c) in made.iter().enumerate() {
        if flags[at] {
            put(&mut lines, line(n, places, c))?;
        }
    }
    Ok(lines)
}

/// The lines of the combinations from which the row of the last one comes. There are n rows in the table.
pub fn lines_of(alloc: Global, n: u32, made: &[Combination]) -> Result<Items<Line>, NoMemory>
    requires some { 0 < length made.now }
    requires usable { AreUsable n made.now }
    requires few { n + length made.now < 2 ^ 31 }
    ensures { IfOk result (λ lines. lines ≡ spec.lines_of n (needed_by_last n made.now)) }
{
    let flags = needed(alloc, n, made)?;
    let places = counted(alloc, flags.as_slice())?;
    lines_by(alloc, n, made, flags.as_slice(), places.as_slice())
}
