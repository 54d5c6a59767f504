//! Terms taken out of cells.

ghost use Rattle.std.specs.Prelude.{◌≡◌, ◌++◌, ℕ, pos, true, List, map, IfOk};
ghost use Rattle.math_terms.specs.declared.term.Term.{Term};
ghost use Rattle.term_cells.specs.Placed.{AllStand};
ghost use Rattle.term_cells.specs.Standing.{parts_stand, stands, stands_below};

use crate::node::{Node, node_at};
use math_terms::{Boxed, Items, NoMemory, Term, both, boxed};
use std::alloc::Global;
use term_cells::{Cells, parts_open};

/// The term at a place. An error also where no term stands there that has its numbers within 32 bits.
#[cycle(take)]
pub(crate) fn take(alloc: Global, cells: &Cells, p: u32) -> Result<Term, NoMemory>
    ensures { (t : Term) → stands cells.now.0 t p ≡ true → IfOk result (λ r. r ≡ t) }
{
    let Some(node) = node_at(cells, p) else {
        return Err(NoMemory);
    };
    match node {
        Node::Num(n) => Ok(Term::Num(n)),
        Node::Truth(b) => Ok(Term::Truth(b)),
        Node::MinInt => Ok(Term::MinInt),
        Node::MaxInt => Ok(Term::MaxInt),
        Node::Var(k) => Ok(Term::Var(number(k)?)),
        Node::Empty => Ok(Term::Empty),
        Node::One(op, a) => Ok(Term::one(op, take_boxed(alloc, cells, p, a)?)),
        Node::Two(op, a, b) => {
            let (a, b) = both(
                take_boxed(alloc, cells, p, a),
                take_boxed(alloc, cells, p, b),
            )?;
            Ok(Term::two(op, a, b))
        }
        Node::Part(i, j, a) => {
            let rest = both(
                take_boxed(alloc, cells, p, j),
                take_boxed(alloc, cells, p, a),
            );
            let (i, (j, a)) = both(take_boxed(alloc, cells, p, i), rest)?;
            Ok(Term::Part(i, j, a))
        }
        Node::Tuple(list) => Ok(Term::Tuple(take_parts(alloc, cells, p, list)?)),
        Node::Proj(k, a) => {
            let k = number(k)?;
            Ok(Term::Proj(k, take_boxed(alloc, cells, p, a)?))
        }
        Node::Initial(k, a) => {
            let k = number(k)?;
            Ok(Term::Initial(k, take_boxed(alloc, cells, p, a)?))
        }
    }
}

/// A number of 32 bits.
fn number(own: i64) -> Result<u32, NoMemory>
    ensures { (k : ℕ) → own ≡ pos k → IfOk result (λ n. n ≡ k) }
{
    match u32::try_from(own) {
        Ok(n) => Ok(n),
        Err(_) => Err(NoMemory),
    }
}

/// The term at a place below another.
#[cycle(take)]
fn take_below(alloc: Global, cells: &Cells, limit: u32, p: u32) -> Result<Term, NoMemory>
    ensures { (t : Term) → stands_below (stands cells.now.0 t) p limit ≡ true → IfOk result (λ r. r ≡ t) }
{
    if p < limit {
        take(alloc, cells, p)
    } else {
        Err(NoMemory)
    }
}

/// The same on the heap.
#[cycle(take)]
fn take_boxed(alloc: Global, cells: &Cells, limit: u32, p: u32) -> Result<Boxed<Term>, NoMemory>
    ensures { (t : Term) → stands_below (stands cells.now.0 t) p limit ≡ true → IfOk result (λ r. r ≡ t) }
{
    boxed(alloc, take_below(alloc, cells, limit, p)?)
}

/// The parts in a list at a place below another.
#[cycle(take)]
fn take_parts(alloc: Global, cells: &Cells, limit: u32, list: u32) -> Result<Items<Term>, NoMemory>
    ensures { (ts : List Term) → parts_stand cells.now.0 (map (stands cells.now.0) ts) list limit ≡ true → IfOk result (λ r. r ≡ ts) }
{
    let mut out = Items::new(alloc);
    take_onto(alloc, cells, limit, list, &mut out)?;
    Ok(out)
}

/// The same after others.
#[cycle(take)]
fn take_onto(
    alloc: Global,
    cells: &Cells,
    limit: u32,
    list: u32,
    out: &mut Items<Term>,
) -> Result<(), NoMemory>
    ensures { (ts : List Term) → parts_stand cells.now.0 (map (stands cells.now.0) ts) list limit ≡ true → IfOk result (λ u. out.new ≡ out.old ++ ts) }
{
    parts_open();
    if list >= limit {
        return Err(NoMemory);
    }
    let Some(cell) = cells.at(list) else {
        return Err(NoMemory);
    };
    if !cell.is_link() {
        return Ok(());
    }
    out.push(take_below(alloc, cells, list, cell.a)?)?;
    take_onto(alloc, cells, list, cell.b, out)
}

/// The terms at these places.
pub(crate) fn take_all(
    alloc: Global,
    cells: &Cells,
    places: &[u32],
) -> Result<Items<Term>, NoMemory>
    ensures { (ts : List Term) → AllStand cells.now.0 ts places.now → IfOk result (λ r. r ≡ ts) }
{
    let mut out = Items::new(alloc);
    take_each(alloc, cells, places, &mut out)?;
    Ok(out)
}

/// The same after others.
fn take_each(
    alloc: Global,
    cells: &Cells,
    places: &[u32],
    out: &mut Items<Term>,
) -> Result<(), NoMemory>
    ensures { (ts : List Term) → AllStand cells.now.0 ts places.now → IfOk result (λ u. out.new ≡ out.old ++ ts) }
{
    let Some((first, rest)) = places.split_first() else {
        return Ok(());
    };
    out.push(take(alloc, cells, *first)?)?;
    take_each(alloc, cells, rest, out)
}
