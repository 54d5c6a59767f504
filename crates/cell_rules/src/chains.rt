//! What equations of two strings become, by their chains.

ghost use Rattle.std.specs.Prelude.{◌≡◌, ◌+◌, ◌&&◌, ◌||◌, ℕ, true, not, IfErr, IfNone};
ghost use Rattle.std.specs.List.{list_any};
ghost use Rattle.math_terms.specs.declared.term.Term.{Term};
ghost use Rattle.math_terms.specs.Kinds.{kind};
ghost use Rattle.math_terms.specs.Sorts.{is_str};
ghost use Rattle.math_terms.specs.Terms.{nodes};
ghost use Rattle.term_cells.specs.Growing.{Grows, IsShort, StandsThere};
ghost use Rattle.term_cells.specs.KindShown.{sorts_of_vars};
ghost use Rattle.term_cells.specs.Standing.{stands};
ghost use Rattle.str_theory.specs.Chains.{chain, is_single};
ghost use Rattle.str_theory.specs.Forms.{is_empty};
ghost use Rattle.str_theory.specs.Rules as rules;
ghost use Rattle.cell_rules.specs.Chaining.{ChainsAre, SinglesAre, ends_at, others_equal, part_at, singles_equal};
ghost use Rattle.cell_rules.specs.Pairing.{FormulaStands};
ghost use Rattle.cell_rules.specs.Sketches.{Sketches};

use crate::equations::is_same;
use crate::forms::{as_eq, as_single, holds_empty};
use crate::rewritten::Full;
use crate::sketch::{Bounds, Sketch, Written};
use crate::spine::{End, end_part, has_single, put_others};
use math_terms::{Desc, Form, Name};
use str_theory::chains_open;
use term_cells::{Cells, standing_lasts};

/// Whether both places hold strings.
fn are_strings(cells: &Cells, vars: &[(Name, Desc)], p: u32, q: u32) -> bool
    ensures { (t u : Term) → stands cells.now.0 t p ≡ true → stands cells.now.0 u q ≡ true → result ≡ (is_str (kind (sorts_of_vars vars.now) t) && is_str (kind (sorts_of_vars vars.now) u)) }
{
    cells.is_string(p, vars) && cells.is_string(q, vars)
}

/// Whether neither place holds the empty string.
fn are_filled(cells: &Cells, p: u32, q: u32) -> bool
    ensures { (t u : Term) → stands cells.now.0 t p ≡ true → stands cells.now.0 u q ≡ true → result ≡ (not (is_empty t) && not (is_empty u)) }
{
    !holds_empty(cells, p) && !holds_empty(cells, q)
}

/// The sides of an equation of two strings, neither of which is the empty one.
fn strings(cells: &Cells, vars: &[(Name, Desc)], p: u32) -> Option<(u32, u32)>
    ensures { (t : Term) → stands cells.now.0 t p ≡ true → ChainsAre cells.now.0 (sorts_of_vars vars.now) t result }
{
    chains_open();
    let (left, right) = as_eq(cells, p)?;
    if !are_strings(cells, vars, left, right) {
        return None;
    }
    if !are_filled(cells, left, right) {
        return None;
    }
    Some((left, right))
}

/// An equation of two strings without their parts at one end.
fn put_equal_others(cells: &mut Cells, p: u32, q: u32, end: End) -> Option<u32>
    ensures keeps { (t : Term) (r : ℕ) → stands cells.old.0 t r ≡ true → stands cells.new.0 t r ≡ true }
    ensures grown { (t u : Term) → stands cells.old.0 t p ≡ true → stands cells.old.0 u q ≡ true → Grows cells.old cells.new (nodes t + nodes u + 2) }
    ensures short { (t u : Term) → stands cells.old.0 t p ≡ true → stands cells.old.0 u q ≡ true → IfNone result (IsShort cells.old (nodes t + nodes u + 2)) }
    ensures standing { (t u : Term) → stands cells.old.0 t p ≡ true → stands cells.old.0 u q ≡ true → StandsThere cells.new.0 (others_equal end t u) result }
{
    standing_lasts();
    let left = put_others(cells, p, end)?;
    let right = put_others(cells, q, end)?;
    cells.two(Form::Eq, left, right)
}

/// The same after an equation of two elements.
fn put_equal_singles(
    cells: &mut Cells,
    elements: (u32, u32),
    p: u32,
    q: u32,
    end: End,
) -> Option<u32>
    ensures keeps { (t : Term) (r : ℕ) → stands cells.old.0 t r ≡ true → stands cells.new.0 t r ≡ true }
    ensures grown { (t u : Term) → stands cells.old.0 t p ≡ true → stands cells.old.0 u q ≡ true → Grows cells.old cells.new (nodes t + nodes u + 4) }
    ensures short { (t u : Term) → stands cells.old.0 t p ≡ true → stands cells.old.0 u q ≡ true → IfNone result (IsShort cells.old (nodes t + nodes u + 4)) }
    ensures standing { (t u x y : Term) → stands cells.old.0 t p ≡ true → stands cells.old.0 u q ≡ true → stands cells.old.0 x elements.0 ≡ true → stands cells.old.0 y elements.1 ≡ true → StandsThere cells.new.0 (singles_equal end x y t u) result }
{
    standing_lasts();
    let first = cells.two(Form::Eq, elements.0, elements.1)?;
    let rest = put_equal_others(cells, p, q, end)?;
    cells.two(Form::And, first, rest)
}

/// An equation of two strings whose parts at one end are the same: without these.
pub(crate) fn of_same_ends(
    cells: &mut Cells,
    vars: &[(Name, Desc)],
    p: u32,
    end: End,
) -> Result<Option<u32>, Full>
    ensures exact { (t : Term) → stands cells.old.0 t p ≡ true → FormulaStands cells.new.0 (rules.when_chains (sorts_of_vars vars.now) t (λ xs ys. ends_at end xs ys rules.same_ends)) result }
    ensures keeps { (t : Term) (q : ℕ) → stands cells.old.0 t q ≡ true → stands cells.new.0 t q ≡ true }
    ensures grown { (t : Term) → stands cells.old.0 t p ≡ true → Grows cells.old cells.new (nodes t + 3) }
    ensures short { (t : Term) → stands cells.old.0 t p ≡ true → IfErr result (λ e. IsShort cells.old (nodes t + 3)) }
{
    let Some((left, right)) = strings(cells, vars, p) else {
        return Ok(None);
    };
    if !is_same(
        cells,
        end_part(cells, left, end),
        end_part(cells, right, end),
    ) {
        return Ok(None);
    }
    match put_equal_others(cells, left, right, end) {
        Some(place) => Ok(Some(place)),
        None => Err(Full),
    }
}

/// The elements of the parts at one end of two strings, where these are strings of one element.
fn single_ends(cells: &Cells, p: u32, q: u32, end: End) -> Option<(u32, u32)>
    ensures { (t u : Term) → stands cells.now.0 t p ≡ true → stands cells.now.0 u q ≡ true → SinglesAre cells.now.0 (part_at end (chain t)) (part_at end (chain u)) result }
{
    let left = as_single(cells, end_part(cells, p, end))?;
    let right = as_single(cells, end_part(cells, q, end))?;
    Some((left, right))
}

/// An equation of two strings whose parts at one end are strings of one element: an equation of the elements, and one without these parts.
pub(crate) fn of_single_ends(
    cells: &mut Cells,
    vars: &[(Name, Desc)],
    p: u32,
    end: End,
) -> Result<Option<u32>, Full>
    ensures exact { (t : Term) → stands cells.old.0 t p ≡ true → FormulaStands cells.new.0 (rules.when_chains (sorts_of_vars vars.now) t (λ xs ys. ends_at end xs ys rules.single_ends)) result }
    ensures keeps { (t : Term) (q : ℕ) → stands cells.old.0 t q ≡ true → stands cells.new.0 t q ≡ true }
    ensures grown { (t : Term) → stands cells.old.0 t p ≡ true → Grows cells.old cells.new (nodes t + 3) }
    ensures short { (t : Term) → stands cells.old.0 t p ≡ true → IfErr result (λ e. IsShort cells.old (nodes t + 3)) }
{
    let Some((left, right)) = strings(cells, vars, p) else {
        return Ok(None);
    };
    let Some(elements) = single_ends(cells, left, right, end) else {
        return Ok(None);
    };
    match put_equal_singles(cells, elements, left, right, end) {
        Some(place) => Ok(Some(place)),
        None => Err(Full),
    }
}

/// Whether the one place holds the empty string, and the other a chain with a string of one element.
fn is_empty_beside_single(cells: &Cells, p: u32, q: u32) -> bool
    ensures { (t u : Term) → stands cells.now.0 t p ≡ true → stands cells.now.0 u q ≡ true → result ≡ (is_empty t && list_any is_single (chain u)) }
{
    holds_empty(cells, p) && has_single(cells, q)
}

/// Whether one of two places, whichever, holds the empty string and the other such a chain.
fn differ(cells: &Cells, p: u32, q: u32) -> bool
    ensures { (t u : Term) → stands cells.now.0 t p ≡ true → stands cells.now.0 u q ≡ true → result ≡ ((is_empty t && list_any is_single (chain u)) || (is_empty u && list_any is_single (chain t))) }
{
    is_empty_beside_single(cells, p, q) || is_empty_beside_single(cells, q, p)
}

/// False, where one side is the empty string and the other has an element.
pub(crate) fn of_empty(cells: &Cells, vars: &[(Name, Desc)], p: u32) -> Option<Sketch>
    ensures { (t : Term) → stands cells.now.0 t p ≡ true → Sketches cells.now.0 (rules.s30 (sorts_of_vars vars.now) t) result }
{
    let (left, right) = as_eq(cells, p)?;
    if !are_strings(cells, vars, left, right) {
        return None;
    }
    if !differ(cells, left, right) {
        return None;
    }
    Some(Sketch {
        written: Written::Truth(false),
        bounds: Bounds::None,
    })
}
