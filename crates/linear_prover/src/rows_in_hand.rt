//! Rows in hand, and how an atom falls away from them.
ghost use Rattle.std.specs.Prelude.{◌≡◌, ◌^◌, ◌<◌, [], ◌∷◌, ◌++◌, All, IfOk, MatchResult, None, OnOk, length, pos, Some};
ghost use Rattle.std.specs.List.{filter, list_all};
ghost use Rattle.std.specs.Ordering.{int_eq};
ghost use Rattle.num_theory.specs.Lines.{is_contradiction, sum_of};
ghost use Rattle.linear_prover.specs.Elimination as spec;
ghost use Rattle.linear_prover.specs.working.Eliminating.{CanCombine, Goes};

use math_terms::NoMemory;
use num_theory::{Wide, combine, reduce};
use sqlite_items::Items;
use std::alloc::Global;
use std::mem;

/// How a row was made: p times row i and q times row j, where rows are numbered from 0 over the table and then over those made.
#[derive(Clone, Copy, Debug)]
pub struct Combination {
    pub p: u32,
    pub i: usize,
    pub q: u32,
    pub j: usize,
}

/// A row with its number.
pub type NumberedRow = (usize, Items<i32>);

/// The rows in hand, and all combinations so far.
#[derive(Drop)]
pub struct Hand {
    pub rows: Vec<NumberedRow>,
    pub made: Vec<Combination>,
}

/// Why elimination ends early: the last combination is a contradiction, one list has too many rows, or memory ran out.
#[derive(Clone, Copy, Debug)]
pub enum Stop {
    Contradiction,
    TooMany,
    NoMemory,
}

impl From<NoMemory> for Stop {
    ghost use Rattle.std.specs.Prelude.{◌≡◌};
    ghost use Rattle.linear_prover.specs.declared.rows_in_hand.Stop.TheVariants.{NoMemory};

    ghost from_gives = { λ _ e. e ≡ NoMemory };

    fn from(_error: NoMemory) -> Stop {
        Stop::NoMemory
    }
}

// The most rows of one list.
const MOST_ROWS: usize = 4096;

/// One more item at the end.
pub fn push<T: Drop>(items: &mut Vec<T>, item: T) -> Result<(), NoMemory>
    ensures { OnOk result (items.new.items ≡ items.old.items ++ item ∷ []) }
{
    match items.push(item) {
        Ok(()) => Ok(()),
        Err(_) => Err(NoMemory),
    }
}

// The coefficient of an atom, or in the last column the constant.
fn column(row: &[i32], atom: usize) -> i32
    ensures { result ≡ spec.column atom row.now }
{
    row.get(atom).copied().unwrap_or(0)
}

fn are_zeros(numbers: &[i32]) -> bool
    ensures { result ≡ list_all (λ z. int_eq z (pos 0)) numbers.now }
{
    numbers.iter().all(|number| *number == 0)
}

/// Whether the row has no atom and a negative constant.
pub fn contradicts(row: &[i32]) -> bool
    ensures { result ≡ is_contradiction row.now }
{
    let last = row.len().saturating_sub(1);
    are_zeros(&row[..last]) && column(row, last) < 0
}

// A row of zeros.
fn zeros(alloc: Global, count: usize) -> Result<Vec<i32>, NoMemory>
    ensures { IfOk result (λ row. length row.items ≡ count) }
{
    match vec![in alloc; 0; count] {
        Ok(row) => Ok(row),
        Err(_) => Err(NoMemory),
    }
}

// Sets `out` to p times one row and q times another, reduced, unless the sum is wide.
fn add_up(p: u32, a: &[i32], q: u32, b: &[i32], out: &mut [i32]) -> Result<(), Wide>
    requires p_small { p < 2 ^ 31 }
    requires q_small { q < 2 ^ 31 }
    requires same_length { length a.now ≡ length b.now }
    requires out_length { length out.old ≡ length a.now }
    ensures { let sum = sum_of p a.now q b.now in MatchResult result (λ _. sum ≡ Some out.new) (λ _. sum ≡ None) }
{
    combine(p, a, q, b, out)?;
    reduce(out);
    Ok(())
}

// p times one row and q times another, reduced; none where the sum is wide.
fn sum(alloc: Global, p: u32, a: &[i32], q: u32, b: &[i32]) -> Result<Option<Items<i32>>, NoMemory>
    requires p_small { p < 2 ^ 31 }
    requires q_small { q < 2 ^ 31 }
    requires same_length { length a.now ≡ length b.now }
    ensures { IfOk result (λ row. row ≡ sum_of p a.now q b.now) }
{
    let mut row = zeros(alloc, a.len())?;
    match add_up(p, a, q, b, row.as_mut_slice()) {
        Ok(()) => Ok(Some(Items::from_vec(row))),
        Err(Wide) => Ok(None),
    }
}

// The row of a combination, which is not wide, after the rows in hand. There are n rows in the table.
fn put(n: u32, c: Combination, row: Items<i32>, hand: &mut Hand) -> Result<(), Stop>
    ensures { Goes (spec.with_row n c hand.old.rows.items hand.old.made.items (Some row)) hand.new result }
{
    if hand.rows.len() >= MOST_ROWS {
        return Err(Stop::TooMany);
    }
    if contradicts(row.as_slice()) {
        push(&mut hand.made, c)?;
        return Err(Stop::Contradiction);
    }
    let number = n as usize + hand.made.len();
    push(&mut hand.rows, (number, row))?;
    push(&mut hand.made, c)?;
    Ok(())
}

// The multipliers by which an atom falls away from two rows.
fn combination_of(atom: usize, a: &NumberedRow, b: &NumberedRow) -> Combination
    ensures { result ≡ spec.combination atom a.now b.now }
{
    Combination {
        p: column(b.1.as_slice(), atom).unsigned_abs(),
        i: a.0,
        q: column(a.1.as_slice(), atom).unsigned_abs(),
        j: b.0,
    }
}

// Combines a row with a positive coefficient of the atom with one that has a negative coefficient.
fn combine_two(
    alloc: Global,
    n: u32,
    atom: usize,
    a: &NumberedRow,
    b: &NumberedRow,
    hand: &mut Hand,
) -> Result<(), Stop>
    requires { CanCombine a.now b.now }
    ensures { Goes (spec.combine_two n atom a.now b.now hand.old.rows.items hand.old.made.items) hand.new result }
{
    let c = combination_of(atom, a, b);
    match sum(alloc, c.p, a.1.as_slice(), c.q, b.1.as_slice())? {
        None => Ok(()),
        Some(row) => put(n, c, row, hand),
    }
}

// Combines a row with a positive coefficient with each that has a negative one.
fn combine_one(
    alloc: Global,
    n: u32,
    atom: usize,
    a: &NumberedRow,
    below: &[NumberedRow],
    hand: &mut Hand,
) -> Result<(), Stop>
    requires { All (λ b. CanCombine a.now b) below.now }
    ensures { Goes (spec.combine_one n atom a.now below.now hand.old.rows.items hand.old.made.items) hand.new result }
{
    for b in below {
        combine_two(alloc, n, atom, a, b, hand)?;
    }
    Ok(())
}

// Combines each row with a positive coefficient with each that has a negative one.
fn combine_all(
    alloc: Global,
    n: u32,
    atom: usize,
    above: &[NumberedRow],
    below: &[NumberedRow],
    hand: &mut Hand,
) -> Result<(), Stop>
    requires { All (λ a. All (λ b. CanCombine a b) below.now) above.now }
    ensures { Goes (spec.combine_all n atom above.now below.now hand.old.rows.items hand.old.made.items) hand.new result }
{
    for a in above {
        combine_one(alloc, n, atom, a, below, hand)?;
    }
    Ok(())
}

// Rows by the coefficient of one atom.
#[derive(Drop)]
struct Parts {
    above: Vec<NumberedRow>,
    below: Vec<NumberedRow>,
    without: Vec<NumberedRow>,
}

// Takes rows apart by the coefficient of an atom: where it is positive, where it is negative, and where there is none.
fn parted(alloc: Global, atom: usize, rows: Vec<NumberedRow>) -> Result<Parts, NoMemory>
    ensures above { IfOk result (λ p. p.above.items ≡ filter (spec.is_above atom) rows.items) }
    ensures below { IfOk result (λ p. p.below.items ≡ filter (spec.is_below atom) rows.items) }
    ensures without { IfOk result (λ p. p.without.items ≡ filter (spec.is_without atom) rows.items) }
{
    let mut above = Vec::new(alloc);
    let mut below = Vec::new(alloc);
    let mut without = Vec::new(alloc);
    for row in rows {
        let coefficient = column(row.1.as_slice(), atom);
        if coefficient > 0 {
            push(&mut above, row)?;
        } else if coefficient < 0 {
            push(&mut below, row)?;
        } else {
            push(&mut without, row)?;
        }
    }
    Ok(Parts {
        above,
        below,
        without,
    })
}

/// Rows without the atom stay, and each row above is combined with each row below.
pub fn eliminate(alloc: Global, n: u32, atom: usize, hand: &mut Hand) -> Result<(), Stop>
    requires { All (λ a. All (λ b. CanCombine a b) hand.old.rows.items) hand.old.rows.items }
    ensures { Goes (spec.eliminate n atom hand.old.rows.items hand.old.made.items) hand.new result }
{
    let rows = mem::replace(&mut hand.rows, Vec::new(alloc));
    let Parts {
        above,
        below,
        without,
    } = parted(alloc, atom, rows)?;
    hand.rows = without;
    combine_all(alloc, n, atom, above.as_slice(), below.as_slice(), hand)
}
