//! What the functions of terms do to values whose numbers fit 128 bits.

ghost use Rattle.std.specs.Prelude.{◌≡◌, min, IfOk, Bool, true, map, reverse, take, drop};
ghost use Rattle.math_terms.specs.Values.{denotes, number, truth, entries, place, projected, quotient, remainder};
ghost use Rattle.math_terms.specs.Plain.{is_narrow};

use crate::name::NoMemory;
use crate::value::{Value, copy_values};
use sqlite_items::Items;
use std::alloc::Global;

pub(crate) fn part_of(alloc: Global, k: u32, v: &Value) -> Result<Value, NoMemory>
    ensures { IfOk result (λ p. denotes p ≡ projected k (denotes v.now)) }
{
    match v {
        Value::Num(_) => Ok(Value::Num(0)),
        Value::Truth(_) => Ok(Value::Num(0)),
        Value::Str(_) => Ok(Value::Num(0)),
        Value::Tup(parts) => match parts.get(k as usize) {
            Some(p) => p.copy(alloc),
            None => Ok(Value::Num(0)),
        },
    }
}

/// The same value. Its number fits 128 bits.
pub(crate) fn within(v: Value) -> Value
    ensures same { result ≡ v }
    ensures narrow { is_narrow (denotes v) ≡ true }
{
    match v {
        Value::Num(n) => Value::Num(n),
        Value::Truth(b) => Value::Truth(b),
        Value::Str(entries) => Value::Str(entries),
        Value::Tup(parts) => Value::Tup(parts),
    }
}

pub(crate) fn number_of(v: &Value) -> i128
    ensures { result ≡ number (denotes v.now) }
{
    match v {
        Value::Num(n) => *n,
        Value::Truth(_) => 0,
        Value::Str(_) => 0,
        Value::Tup(_) => 0,
    }
}

pub(crate) fn truth_of(v: &Value) -> bool
    ensures { result ≡ truth (denotes v.now) }
{
    match v {
        Value::Num(_) => false,
        Value::Truth(b) => *b,
        Value::Str(_) => false,
        Value::Tup(_) => false,
    }
}

pub(crate) fn entries_of(alloc: Global, v: Value) -> Items<Value>
    ensures { map denotes result ≡ entries (denotes v) }
{
    match v {
        Value::Num(_) => Items::new(alloc),
        Value::Truth(_) => Items::new(alloc),
        Value::Str(entries) => entries,
        Value::Tup(_) => Items::new(alloc),
    }
}

pub(crate) fn quotient_of(a: i128, b: i128) -> i128
    ensures { result ≡ quotient a b }
{
    if 0 < b { a.div_euclid(b) } else { 0 }
}

pub(crate) fn remainder_of(a: i128, b: i128) -> i128
    ensures { result ≡ remainder a b }
{
    if 0 < b { a.rem_euclid(b) } else { 0 }
}

/// The entries from the last to the first.
pub(crate) fn reversed(alloc: Global, entries: Items<Value>) -> Result<Items<Value>, NoMemory>
    ensures { IfOk result (λ r. r ≡ reverse entries) }
{
    let mut rest = entries;
    let mut out = Items::new(alloc);
    while let Some(v) = rest.pop() {
        out.push(v)?;
    }
    Ok(out)
}

/// The entries at the places k with i <= k < j, counted from 0.
pub(crate) fn entries_between(
    alloc: Global,
    i: i128,
    j: i128,
    entries: &[Value],
) -> Result<Items<Value>, NoMemory>
    ensures { IfOk result (λ r. r ≡ drop (place i) (take (place j) entries.now)) }
{
    let end = place_within(j, entries.len());
    let start = place_within(i, end);
    copy_values(alloc, &entries[start..end])
}

/// The place that a number names, at most `most`. A negative number names the place before the first.
fn place_within(n: i128, most: usize) -> usize
    ensures { result ≡ min (place n) most }
{
    if n <= 0 {
        0
    } else if n < most as i128 {
        n as usize
    } else {
        most
    }
}
