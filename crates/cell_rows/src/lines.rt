//! Lines, by which rows of numbers are made from rows. A row is at the start of a place of 64 numbers.

ghost use Rattle.std.specs.Prelude.{◌≡◌, ◌+◌, ◌-◌, ◌^◌, ◌<◌, ◌≤◌, ℕ, ℤ, pos, List, IfOk, IfSome, OnErr, MatchOption, MatchResult, None, Some, length, slice_get, slice_index_or, take, true};
ghost use Rattle.std.specs.List.{list_all};
ghost use Rattle.std.specs.Ordering.{int_eq};
ghost use Rattle.num_theory.specs.Lines as spec;
ghost use Rattle.cell_rows.specs.working.RowsIn.{LineAdded, LinesFound, RowsIn};

use crate::difference::Short;
use math_terms::Line;
use num_theory::{Wide, combine, reduce};

/// Appends the rows that lines make, of `width` numbers, behind the first `count`. The answer is how many rows there are then, none where a
/// line makes none.
pub(crate) fn replay(
    lines: &[Line],
    width: usize,
    count: usize,
    places: &mut [[i32; 64]],
) -> Result<Option<usize>, Short>
    requires narrow { width ≤ 64 }
    requires counted { count ≤ length places.old }
    ensures within { IfOk result (λ rows. IfSome rows (λ n. n ≤ length places.new)) }
    ensures replayed { (rows : List (List ℤ)) → RowsIn width count rows places.old → LinesFound width (spec.with_lines lines.now rows) result places.new }
    ensures short { OnErr result (length places.old < count + length lines.now) }
{
    let mut total = count;
    for line in lines {
        let Ok(added) = add_line(*line, width, total, places) else {
            return Err(Short);
        };
        if !added {
            return Ok(None);
        }
        total += 1;
    }
    Ok(Some(total))
}

/// Whether lines refute the first `count` rows, of `width` numbers. There is no answer where there are too few places.
pub(crate) fn refutes(
    lines: &[Line],
    width: usize,
    count: usize,
    places: &mut [[i32; 64]],
) -> Result<bool, Short>
    requires narrow { width ≤ 64 }
    requires counted { count ≤ length places.old }
    ensures exact { (rows : List (List ℤ)) → RowsIn width count rows places.old → IfOk result (λ b. b ≡ spec.refutes rows lines.now) }
    ensures short { OnErr result (length places.old < count + length lines.now) }
{
    match replay(lines, width, count, places) {
        Ok(Some(total)) => Ok(clashes(&places[..total], width)),
        Ok(None) => Ok(false),
        Err(_) => Err(Short),
    }
}

/// Whether there is a last row, whose last number is negative and whose other numbers are 0.
fn clashes(places: &[[i32; 64]], width: usize) -> bool
    requires { width ≤ 64 }
    ensures { (rows : List (List ℤ)) → RowsIn width (length places.now) rows places.now → result ≡ spec.ends_in_contradiction rows }
{
    let Some(row) = last_row(places) else {
        return false;
    };
    is_contradiction(&row[..width])
}

fn last_row(places: &[[i32; 64]]) -> Option<[i32; 64]>
    ensures { result ≡ slice_get places.now (length places.now - 1) }
{
    places.last().copied()
}

/// Whether the last number is negative and the others are 0.
fn is_contradiction(row: &[i32]) -> bool
    ensures { result ≡ spec.is_contradiction row.now }
{
    let last = row.len().saturating_sub(1);
    are_zero(&row[..last]) && number_at(row, last) < 0
}

fn are_zero(numbers: &[i32]) -> bool
    ensures { result ≡ list_all (λ z. int_eq z (pos 0)) numbers.now }
{
    numbers.iter().all(|number| *number == 0)
}

fn number_at(row: &[i32], place: usize) -> i32
    ensures { result ≡ slice_index_or row.now place (pos 0) }
{
    row.get(place).copied().unwrap_or(0)
}

/// Appends the row that a line makes behind the first `count`. The answer is whether the line makes one.
fn add_line(line: Line, width: usize, count: usize, places: &mut [[i32; 64]]) -> Result<bool, Short>
    requires narrow { width ≤ 64 }
    requires counted { count ≤ length places.old }
    ensures within { IfOk result (λ added. added ≡ true → count + 1 ≤ length places.new) }
    ensures added { (rows : List (List ℤ)) → RowsIn width count rows places.old → IfOk result (λ added. LineAdded width count (spec.sum_by rows line) rows added places.new) }
    ensures short { OnErr result (length places.old ≤ count) }
{
    let Some(a) = row_numbered(places, count, line.i) else {
        return Ok(false);
    };
    let Some(b) = row_numbered(places, count, line.j) else {
        return Ok(false);
    };
    let Some(sum) = sum_of_rows(line, width, &a, &b) else {
        return Ok(false);
    };
    if count >= places.len() {
        return Err(Short);
    }
    places[count] = sum;
    Ok(true)
}

/// The place of a row by its number among the first `count`, counted from 1.
fn row_numbered(places: &[[i32; 64]], count: usize, k: u32) -> Option<[i32; 64]>
    requires { count ≤ length places.now }
    ensures { (width : ℕ) (rows : List (List ℤ)) → RowsIn width count rows places.now → MatchOption result (spec.numbered rows k ≡ None) (λ a. spec.numbered rows k ≡ Some (take width a)) }
{
    if k == 0 {
        return None;
    }
    if k as usize > count {
        return None;
    }
    row_at(places, k as usize - 1)
}

fn row_at(places: &[[i32; 64]], k: usize) -> Option<[i32; 64]>
    ensures { result ≡ slice_get places.now k }
{
    places.get(k).copied()
}

/// The sum of two rows that a line makes, reduced; none where one of its numbers is negative or the sum is wide.
fn sum_of_rows(line: Line, width: usize, a: &[i32; 64], b: &[i32; 64]) -> Option<[i32; 64]>
    requires { width ≤ 64 }
    ensures { MatchOption result (spec.sum_at line.p (Some (take width a.now)) line.q (Some (take width b.now)) ≡ None) (λ s. spec.sum_at line.p (Some (take width a.now)) line.q (Some (take width b.now)) ≡ Some (take width s)) }
{
    let p = multiplier(line.p)?;
    let q = multiplier(line.q)?;
    let mut sum = [0; 64];
    match add_in_front(p, a, q, b, width, &mut sum) {
        Ok(()) => Some(sum),
        Err(_) => None,
    }
}

/// The same of the first `width` numbers of slices.
fn add_in_front(
    p: u32,
    a: &[i32],
    q: u32,
    b: &[i32],
    width: usize,
    out: &mut [i32],
) -> Result<(), Wide>
    requires p_small { p < 2 ^ 31 }
    requires q_small { q < 2 ^ 31 }
    requires a_long { width ≤ length a.now }
    requires b_long { width ≤ length b.now }
    requires out_long { width ≤ length out.old }
    ensures { let sum = spec.sum_of p (take width a.now) q (take width b.now) in MatchResult result (λ _. sum ≡ Some (take width out.new)) (λ _. sum ≡ None) }
{
    add_up(p, &a[..width], q, &b[..width], &mut out[..width])
}

/// The number, unless it is negative.
fn multiplier(number: i32) -> Option<u32>
    ensures small { IfSome result (λ n. n < 2 ^ 31) }
    ensures number { (a b : List ℤ) → MatchOption result ((p : ℤ) → (spec.sum_at number (Some a) p (Some b) ≡ None) × (spec.sum_at p (Some a) number (Some b) ≡ None)) (λ n. number ≡ pos n) }
{
    if number < 0 {
        None
    } else {
        Some(number as u32)
    }
}

/// Sets `out` to p times one row and q times another, reduced, unless the sum is wide.
fn add_up(p: u32, a: &[i32], q: u32, b: &[i32], out: &mut [i32]) -> Result<(), Wide>
    requires p_small { p < 2 ^ 31 }
    requires q_small { q < 2 ^ 31 }
    requires same_length { length a.now ≡ length b.now }
    requires out_length { length out.old ≡ length a.now }
    ensures { let sum = spec.sum_of p a.now q b.now in MatchResult result (λ _. sum ≡ Some out.new) (λ _. sum ≡ None) }
{
    combine(p, a, q, b, out)?;
    reduce(out);
    Ok(())
}
