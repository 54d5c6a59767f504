//! What an equation becomes.

ghost use Rattle.std.specs.Prelude.{◌≡◌, true};
ghost use Rattle.math_terms.specs.declared.term.Term.{Term};
ghost use Rattle.math_terms.specs.Heads.{same_term};
ghost use Rattle.term_cells.specs.Standing.{stands};
ghost use Rattle.str_theory.specs.Rules as rules;
ghost use Rattle.cell_rules.specs.Sketches.{Sketches};

use crate::forms::as_eq;
use crate::sketch::{Bounds, Sketch, Written};
use math_terms::same_terms_are_equal;
use term_cells::Cells;

/// Whether two places hold the same term.
pub(crate) fn is_same(cells: &Cells, p: u32, q: u32) -> bool
    ensures { (t u : Term) → stands cells.now.0 t p ≡ true → stands cells.now.0 u q ≡ true → result ≡ same_term t u }
{
    same_terms_are_equal();
    cells.same(p, q)
}

/// True, where both sides are the same.
pub(crate) fn of_same(cells: &Cells, p: u32) -> Option<Sketch>
    ensures { (t : Term) → stands cells.now.0 t p ≡ true → Sketches cells.now.0 (rules.s25 t) result }
{
    let (a, b) = as_eq(cells, p)?;
    if !is_same(cells, a, b) {
        return None;
    }
    Some(Sketch {
        written: Written::Truth(true),
        bounds: Bounds::None,
    })
}
