//! An equation of two tuples: equations of their parts.

ghost use Rattle.std.specs.Prelude.{◌≡◌, ◌+◌, ◌*◌, ℕ, true, List, IfErr, IfNone, length, map};
ghost use Rattle.math_terms.specs.declared.term.Term.{Term};
ghost use Rattle.math_terms.specs.Terms.{nodes};
ghost use Rattle.term_cells.specs.Growing.{Grows, IsShort, StandsThere};
ghost use Rattle.term_cells.specs.Standing.{parts_stand, stands};
ghost use Rattle.str_theory.specs.Forms.{and as and_term, eq as eq_term};
ghost use Rattle.str_theory.specs.Rules as rules;
ghost use Rattle.cell_rules.specs.Pairing.{FormulaStands, PairIs, TuplesAre};

use crate::forms::{as_eq, as_tuple};
use crate::rewritten::Full;
use math_terms::Form;
use term_cells::{Cells, parts_last, parts_open, standing_lasts};

/// Where the first parts of two lists stand, and the rests.
#[derive(Clone, Copy, Debug)]
struct Heads {
    left: u32,
    right: u32,
    left_rest: u32,
    right_rest: u32,
}

/// Two lists side by side.
#[derive(Clone, Copy, Debug)]
enum Pair {
    Ends,
    Uneven,
    Heads(Heads),
}

/// Whether two lists go on, and where.
fn side_by_side(cells: &Cells, left: u32, right: u32) -> Pair
    ensures { (ts us : List Term) (m n : ℕ) → parts_stand cells.now.0 (map (stands cells.now.0) ts) left m ≡ true → parts_stand cells.now.0 (map (stands cells.now.0) us) right n ≡ true → PairIs cells.now.0 left ts us result }
{
    parts_open();
    let Some(a) = cells.at(left) else {
        return Pair::Uneven;
    };
    let Some(b) = cells.at(right) else {
        return Pair::Uneven;
    };
    if !a.is_link() {
        return if b.is_link() {
            Pair::Uneven
        } else {
            Pair::Ends
        };
    }
    if !b.is_link() {
        return Pair::Uneven;
    }
    Pair::Heads(Heads {
        left: a.a,
        right: b.a,
        left_rest: a.b,
        right_rest: b.b,
    })
}

/// A formula and an equation of the terms at two places.
fn and_equation(cells: &mut Cells, formula: u32, p: u32, q: u32) -> Option<u32>
    ensures grown { Grows cells.old cells.new 3 }
    ensures short { IfNone result (IsShort cells.old 3) }
    ensures standing { (f t u : Term) → stands cells.old.0 f formula ≡ true → stands cells.old.0 t p ≡ true → stands cells.old.0 u q ≡ true → StandsThere cells.new.0 (and_term f (eq_term t u)) result }
{
    standing_lasts();
    let equation = cells.two(Form::Eq, p, q)?;
    cells.two(Form::And, formula, equation)
}

/// A formula and equations of the parts in two lists; none where the one has more parts than the other.
fn equal_onto(cells: &mut Cells, formula: u32, left: u32, right: u32) -> Result<Option<u32>, Full>
    ensures exact { (f : Term) (ts us : List Term) (m n : ℕ) → stands cells.old.0 f formula ≡ true → parts_stand cells.old.0 (map (stands cells.old.0) ts) left m ≡ true → parts_stand cells.old.0 (map (stands cells.old.0) us) right n ≡ true → FormulaStands cells.new.0 (rules.equal_onto f ts us) result }
    ensures keeps { (t : Term) (q : ℕ) → stands cells.old.0 t q ≡ true → stands cells.new.0 t q ≡ true }
    ensures grown { (ts us : List Term) (m n : ℕ) → parts_stand cells.old.0 (map (stands cells.old.0) ts) left m ≡ true → parts_stand cells.old.0 (map (stands cells.old.0) us) right n ≡ true → Grows cells.old cells.new (2 * length ts + 1) }
    ensures short { (ts us : List Term) (m n : ℕ) → parts_stand cells.old.0 (map (stands cells.old.0) ts) left m ≡ true → parts_stand cells.old.0 (map (stands cells.old.0) us) right n ≡ true → IfErr result (λ e. IsShort cells.old (2 * length ts + 1)) }
{
    standing_lasts();
    parts_last();
    match side_by_side(cells, left, right) {
        Pair::Ends => Ok(Some(formula)),
        Pair::Uneven => Ok(None),
        Pair::Heads(heads) => {
            if heads.left_rest >= left {
                return Ok(None);
            }
            match and_equation(cells, formula, heads.left, heads.right) {
                Some(both) => equal_onto(cells, both, heads.left_rest, heads.right_rest),
                None => Err(Full),
            }
        }
    }
}

/// Equations of the parts, joined by `and`, where an equation of two tuples of the same length stands.
pub(crate) fn equal_parts(cells: &mut Cells, p: u32) -> Result<Option<u32>, Full>
    ensures exact { (t : Term) → stands cells.old.0 t p ≡ true → FormulaStands cells.new.0 (rules.s31 t) result }
    ensures keeps { (t : Term) (q : ℕ) → stands cells.old.0 t q ≡ true → stands cells.new.0 t q ≡ true }
    ensures grown { (t : Term) → stands cells.old.0 t p ≡ true → Grows cells.old cells.new (2 * nodes t + 1) }
    ensures short { (t : Term) → stands cells.old.0 t p ≡ true → IfErr result (λ e. IsShort cells.old (2 * nodes t + 1)) }
{
    standing_lasts();
    parts_last();
    let Some(lists) = tuples(cells, p) else {
        return Ok(None);
    };
    let Pair::Heads(heads) = side_by_side(cells, lists.0, lists.1) else {
        return Ok(None);
    };
    match cells.two(Form::Eq, heads.left, heads.right) {
        Some(first) => equal_onto(cells, first, heads.left_rest, heads.right_rest),
        None => Err(Full),
    }
}

/// The lists of the parts of both sides of an equation of tuples.
fn tuples(cells: &Cells, p: u32) -> Option<(u32, u32)>
    ensures { (t : Term) → stands cells.now.0 t p ≡ true → TuplesAre cells.now.0 t result }
{
    let (a, b) = as_eq(cells, p)?;
    let left = as_tuple(cells, a)?;
    let right = as_tuple(cells, b)?;
    Some((left, right))
}
