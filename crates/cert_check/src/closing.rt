//! The tests of the steps that give no sequents, on formulas in cells.

ghost use Rattle.std.specs.Prelude.{◌≡◌, ◌||◌, true, List, map};
ghost use Rattle.math_terms.specs.declared.term.Term.{Term};
ghost use Rattle.math_terms.specs.Heads.{same_term};
ghost use Rattle.term_cells.specs.Standing.{stands};
ghost use Rattle.cert_check.specs.Legality as rule;
ghost use Rattle.term_cells.specs.Placed.{AllStand};
ghost use Rattle.cert_check.specs.working.Path.{TestOfTerm, named};

use math_terms::{Form, same_terms_are_equal};
use term_cells::{Cells, leaves_open, one_opens, standing_opens, two_opens};

/// Whether the formula at this place is `true`.
pub(crate) fn is_true(cells: &Cells, p: u32) -> bool
    ensures { TestOfTerm cells.now.0 p rule.is_true result }
{
    leaves_open();
    standing_opens();
    match cells.at(p) {
        Some(cell) => cell.is(Form::Truth) && cell.own == 1,
        None => false,
    }
}

/// Whether the formula at this place is `false`.
pub(crate) fn is_false(cells: &Cells, p: u32) -> bool
    ensures { TestOfTerm cells.now.0 p rule.is_false result }
{
    leaves_open();
    standing_opens();
    match cells.at(p) {
        Some(cell) => cell.is(Form::Truth) && cell.own != 1,
        None => false,
    }
}

/// Whether the formula at this place equates a term with itself.
pub(crate) fn is_identity(cells: &Cells, p: u32) -> bool
    ensures { TestOfTerm cells.now.0 p rule.is_identity result }
{
    two_opens();
    standing_opens();
    same_terms_are_equal();
    match cells.at(p) {
        Some(cell) => cell.is(Form::Eq) && cells.same(cell.a, cell.b),
        None => false,
    }
}

/// Whether the formula at the second place is the negation of that at the first.
pub(crate) fn is_negation_of(cells: &Cells, p: u32, q: u32) -> bool
    ensures { (f : Term) → stands cells.now.0 f p ≡ true → TestOfTerm cells.now.0 q (rule.is_negation_of f) result }
{
    one_opens();
    standing_opens();
    same_terms_are_equal();
    match cells.at(q) {
        Some(cell) => cell.is(Form::Not) && cells.same(p, cell.a),
        None => false,
    }
}

/// The place of a hypothesis, counted from 1.
pub(crate) fn named(hyps: &[u32], k: u32) -> Option<u32>
    ensures { result ≡ named hyps.now k }
{
    let before = k.checked_sub(1)?;
    hyps.get(before as usize).copied()
}

/// Whether the goal is true or an equation of a term with itself.
pub(crate) fn allows_same(cells: &Cells, goal: u32) -> bool
    ensures { TestOfTerm cells.now.0 goal (λ g. rule.is_true g || rule.is_identity g) result }
{
    is_true(cells, goal) || is_identity(cells, goal)
}

/// Whether hypothesis k is the goal.
pub(crate) fn allows_hyp(cells: &Cells, hyps: &[u32], goal: u32, k: u32) -> bool
    ensures { (fs : List Term) → AllStand cells.now.0 fs hyps.now → TestOfTerm cells.now.0 goal (λ g. rule.passes (same_term g) (named fs k)) result }
{
    same_terms_are_equal();
    match named(hyps, k) {
        Some(p) => cells.same(goal, p),
        None => false,
    }
}

/// Whether hypothesis k is false.
pub(crate) fn allows_absurd(cells: &Cells, hyps: &[u32], k: u32) -> bool
    ensures { (fs : List Term) → AllStand cells.now.0 fs hyps.now → result ≡ rule.passes rule.is_false (named fs k) }
{
    match named(hyps, k) {
        Some(p) => is_false(cells, p),
        None => false,
    }
}

/// Whether hypothesis l is the negation of hypothesis k.
pub(crate) fn allows_clash(cells: &Cells, hyps: &[u32], k: u32, l: u32) -> bool
    ensures { (fs : List Term) → AllStand cells.now.0 fs hyps.now → result ≡ rule.clash (named fs k) (named fs l) }
{
    match (named(hyps, k), named(hyps, l)) {
        (Some(p), Some(q)) => is_negation_of(cells, p, q),
        _ => false,
    }
}
