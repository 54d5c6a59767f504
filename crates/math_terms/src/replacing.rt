//! Replacement of a subterm.

ghost use Rattle.std.specs.Prelude.{◌≡◌, ◌≤◌, IfErr, IfOk, IfSome, set};
ghost use Rattle.math_terms.specs.declared.term.Term.TheOpen.{Term-F};
ghost use Rattle.math_terms.specs.declared.term.Term.TheViews.{out-Term, roll-Term};
ghost use Rattle.math_terms.specs.Positions as spec;
ghost use Rattle.math_terms.specs.Terms.{nodes};
ghost use Rattle.math_terms.specs.Views.{binary_node};

use crate::name::{NoMemory, TermError};
use crate::position::Position;
use crate::substitution::MOST_NODES;
use crate::term::{Term, boxed, copy_boxed, copy_terms};
use crate::together::{both, with};
use crate::view::{Binary, View};
use sqlite_items::Items;
use std::alloc::Global;

/// The term with `by` in place of the subterm at a position; none where it has no node there.
/// `TooLarge` says that the result would have over 10,000 nodes.
pub fn replaced(
    alloc: Global,
    t: &Term,
    position: &Position,
    by: &Term,
) -> Result<Option<Term>, TermError>
    ensures exact { IfOk result (λ o. o ≡ spec.replaced position.now by.now t.now) }
    ensures small { IfOk result (λ o. IfSome o (λ r. nodes r ≤ 10000)) }
    ensures refused { IfErr result (λ e. spec.IsReplacementRefusal e (spec.replaced position.now by.now t.now)) }
{
    match replace(alloc, t, position.places().as_slice(), by) {
        Ok(Some(r)) => limited(r),
        Ok(None) => Ok(None),
        Err(_) => Err(TermError::NoMemory),
    }
}

/// The term, where it has at most 10,000 nodes.
fn limited(r: Term) -> Result<Option<Term>, TermError>
    ensures exact { IfOk result (λ o. o ≡ Some r) }
    ensures small { IfOk result (λ o. IfSome o (λ s. nodes s ≤ 10000)) }
    ensures refused { IfErr result (λ e. spec.IsReplacementRefusal e (Some r)) }
{
    if r.nodes_up_to(MOST_NODES) > MOST_NODES {
        drop(r);
        Err(TermError::TooLarge)
    } else {
        Ok(Some(r))
    }
}

/// The same, of whatever size.
fn replace(alloc: Global, t: &Term, numbers: &[u32], by: &Term) -> Result<Option<Term>, NoMemory>
    ensures { IfOk result (λ o. o ≡ spec.replaced numbers.now by.now t.now) }
{
    let [first, rest @ ..] = numbers else {
        return Ok(Some(by.copy(alloc)?));
    };
    let (Some(child), Some(place)) = (t.child(*first), first.checked_sub(1)) else {
        return Ok(None);
    };
    match replace(alloc, child, rest, by)? {
        Some(new) => Ok(Some(with_child(alloc, t, place, new)?)),
        None => Ok(None),
    }
}

/// The term with another child at a place, counted from 0.
fn with_child(alloc: Global, t: &Term, place: u32, new: Term) -> Result<Term, NoMemory>
    ensures { IfOk result (λ r. r ≡ roll-Term (spec.with_child place new (out-Term t.now))) }
{
    match t.view() {
        View::One(op, _) => Ok(Term::one(op, boxed(alloc, new)?)),
        View::Two(op, a, b) => two_with(alloc, op, place, new, a, b),
        View::Part(i, j, a) => part_with(alloc, place, new, i, j, a),
        View::Tuple(parts) => Ok(Term::Tuple(parts_with(alloc, parts, place, new)?)),
        View::Proj(k, _) => Ok(Term::Proj(k, boxed(alloc, new)?)),
        View::Initial(k, _) => Ok(Term::Initial(k, boxed(alloc, new)?)),
        View::Num(_) | View::Truth(_) | View::MinInt | View::MaxInt | View::Var(_) | View::Empty =>
            {
                drop(new);
                t.copy(alloc)
            }
    }
}

fn two_with(
    alloc: Global,
    op: Binary,
    place: u32,
    new: Term,
    a: &Term,
    b: &Term,
) -> Result<Term, NoMemory>
    ensures { IfOk result (λ r. r ≡ roll-Term (spec.first_of_two (binary_node op) place new a.now b.now)) }
{
    if place == 0 {
        let (a, b) = both(boxed(alloc, new), copy_boxed(alloc, b))?;
        Ok(Term::two(op, a, b))
    } else {
        let (a, b) = both(copy_boxed(alloc, a), boxed(alloc, new))?;
        Ok(Term::two(op, a, b))
    }
}

fn part_with(
    alloc: Global,
    place: u32,
    new: Term,
    i: &Term,
    j: &Term,
    a: &Term,
) -> Result<Term, NoMemory>
    ensures { IfOk result (λ r. r ≡ roll-Term (spec.one_of_three place new i.now j.now a.now)) }
{
    let new = boxed(alloc, new);
    let ((i, j), a) = match place {
        0 => both(both(new, copy_boxed(alloc, j)), copy_boxed(alloc, a))?,
        1 => both(both(copy_boxed(alloc, i), new), copy_boxed(alloc, a))?,
        _ => both(both(copy_boxed(alloc, i), copy_boxed(alloc, j)), new)?,
    };
    Ok(Term::Part(i, j, a))
}

/// The parts once more, with another one at a place.
fn parts_with(alloc: Global, parts: &[Term], place: u32, new: Term) -> Result<Items<Term>, NoMemory>
    ensures { IfOk result (λ ps. ps ≡ set parts.now place new) }
{
    let (parts, new) = with(copy_terms(alloc, parts), new)?;
    Ok(changed(parts, place as usize, new))
}

/// The items with another one at a place, where there is one.
fn changed<T: Drop>(items: Items<T>, place: usize, item: T) -> Items<T>
    ensures { result ≡ set items place item }
{
    let mut items = items;
    if place < items.len() {
        items.set(place, item);
    }
    items
}
