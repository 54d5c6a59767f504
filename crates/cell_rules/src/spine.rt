//! Chains, which are the parts of concatenations that are grouped to the right.

ghost use Rattle.std.specs.Prelude.{◌≡◌, ◌+◌, ◌<◌, ℕ, true, IfNone, IfSome};
ghost use Rattle.std.specs.List.{list_any};
ghost use Rattle.math_terms.specs.declared.term.Term.{Term};
ghost use Rattle.math_terms.specs.Terms.{nodes};
ghost use Rattle.term_cells.specs.Growing.{Grows, IsShort, StandsThere};
ghost use Rattle.term_cells.specs.Standing.{stands};
ghost use Rattle.str_theory.specs.Chains.{chain, front, is_single, joined};
ghost use Rattle.cell_rules.specs.Chaining.{LongerIs, SidesStand, first_of, last_of, others_at, part_at, rest_of};

use crate::forms::{holds_empty, holds_single};
use math_terms::Form;
use str_theory::chains_open;
use term_cells::{Cells, standing_lasts, standing_opens, two_opens};

/// An end of a chain.
#[derive(Clone, Copy, Debug)]
pub(crate) enum End {
    First,
    Last,
}

/// The sides of a concatenation, the right one below it.
fn sides(cells: &Cells, p: u32) -> Option<(u32, u32)>
    ensures below { IfSome result (λ q. q.1 < p) }
    ensures sides { (t : Term) → stands cells.now.0 t p ≡ true → SidesStand cells.now.0 t result }
{
    standing_opens();
    two_opens();
    let cell = cells.at(p)?;
    if !cell.is(Form::Cat) {
        return None;
    }
    if cell.b >= p {
        return None;
    }
    Some((cell.a, cell.b))
}

/// The first part of a chain that has others, and what the others are the chain of.
fn longer(cells: &Cells, p: u32) -> Option<(u32, u32)>
    ensures below { IfSome result (λ q. q.1 < p) }
    ensures longer { (t : Term) → stands cells.now.0 t p ≡ true → LongerIs cells.now.0 t result }
{
    chains_open();
    let Some((first, rest)) = sides(cells, p) else {
        return None;
    };
    if holds_empty(cells, rest) {
        return None;
    }
    Some((first, rest))
}

/// The first part of a chain.
fn first_part(cells: &Cells, p: u32) -> u32
    ensures { (t : Term) → stands cells.now.0 t p ≡ true → stands cells.now.0 (first_of (chain t)) result ≡ true }
{
    chains_open();
    match sides(cells, p) {
        Some((first, _)) => first,
        None => p,
    }
}

/// The last part of a chain.
fn last_part(cells: &Cells, p: u32) -> u32
    ensures { (t : Term) → stands cells.now.0 t p ≡ true → stands cells.now.0 (last_of (chain t)) result ≡ true }
{
    match longer(cells, p) {
        Some((_, rest)) => last_part(cells, rest),
        None => first_part(cells, p),
    }
}

/// The part at an end of a chain.
pub(crate) fn end_part(cells: &Cells, p: u32, end: End) -> u32
    ensures { (t : Term) → stands cells.now.0 t p ≡ true → stands cells.now.0 (part_at end (chain t)) result ≡ true }
{
    match end {
        End::First => first_part(cells, p),
        End::Last => last_part(cells, p),
    }
}

/// Whether a part of a chain is a string of one element.
pub(crate) fn has_single(cells: &Cells, p: u32) -> bool
    ensures { (t : Term) → stands cells.now.0 t p ≡ true → result ≡ list_any is_single (chain t) }
{
    chains_open();
    match sides(cells, p) {
        Some((first, rest)) => holds_single(cells, first) || has_single(cells, rest),
        None => holds_single(cells, p),
    }
}

/// The parts of a chain as one string.
fn put_chain(cells: &mut Cells, p: u32) -> Option<u32>
    ensures keeps { (t : Term) (q : ℕ) → stands cells.old.0 t q ≡ true → stands cells.new.0 t q ≡ true }
    ensures grown { (t : Term) → stands cells.old.0 t p ≡ true → Grows cells.old cells.new (nodes t + 1) }
    ensures short { (t : Term) → stands cells.old.0 t p ≡ true → IfNone result (IsShort cells.old (nodes t + 1)) }
    ensures standing { (t : Term) → stands cells.old.0 t p ≡ true → StandsThere cells.new.0 (joined (chain t)) result }
{
    standing_lasts();
    let Some((first, rest)) = longer(cells, p) else {
        return Some(first_part(cells, p));
    };
    let rest = put_chain(cells, rest)?;
    cells.two(Form::Cat, first, rest)
}

/// The parts of a chain but the last as one string.
fn put_front(cells: &mut Cells, p: u32) -> Option<u32>
    ensures keeps { (t : Term) (q : ℕ) → stands cells.old.0 t q ≡ true → stands cells.new.0 t q ≡ true }
    ensures grown { (t : Term) → stands cells.old.0 t p ≡ true → Grows cells.old cells.new (nodes t + 1) }
    ensures short { (t : Term) → stands cells.old.0 t p ≡ true → IfNone result (IsShort cells.old (nodes t + 1)) }
    ensures standing { (t : Term) → stands cells.old.0 t p ≡ true → StandsThere cells.new.0 (joined (front (chain t))) result }
{
    standing_lasts();
    let Some((first, rest)) = longer(cells, p) else {
        return cells.leaf(Form::Empty, 0);
    };
    let Some(_) = longer(cells, rest) else {
        return Some(first);
    };
    let rest = put_front(cells, rest)?;
    cells.two(Form::Cat, first, rest)
}

/// The parts of a chain but the first as one string.
fn put_rest(cells: &mut Cells, p: u32) -> Option<u32>
    ensures keeps { (t : Term) (q : ℕ) → stands cells.old.0 t q ≡ true → stands cells.new.0 t q ≡ true }
    ensures grown { (t : Term) → stands cells.old.0 t p ≡ true → Grows cells.old cells.new (nodes t + 1) }
    ensures short { (t : Term) → stands cells.old.0 t p ≡ true → IfNone result (IsShort cells.old (nodes t + 1)) }
    ensures standing { (t : Term) → stands cells.old.0 t p ≡ true → StandsThere cells.new.0 (joined (rest_of (chain t))) result }
{
    standing_lasts();
    match longer(cells, p) {
        Some((_, rest)) => put_chain(cells, rest),
        None => cells.leaf(Form::Empty, 0),
    }
}

/// The parts of a chain but the one at an end as one string.
pub(crate) fn put_others(cells: &mut Cells, p: u32, end: End) -> Option<u32>
    ensures keeps { (t : Term) (q : ℕ) → stands cells.old.0 t q ≡ true → stands cells.new.0 t q ≡ true }
    ensures grown { (t : Term) → stands cells.old.0 t p ≡ true → Grows cells.old cells.new (nodes t + 1) }
    ensures short { (t : Term) → stands cells.old.0 t p ≡ true → IfNone result (IsShort cells.old (nodes t + 1)) }
    ensures standing { (t : Term) → stands cells.old.0 t p ≡ true → StandsThere cells.new.0 (joined (others_at end (chain t))) result }
{
    match end {
        End::First => put_rest(cells, p),
        End::Last => put_front(cells, p),
    }
}
