//! What a concatenation becomes.

ghost use Rattle.std.specs.Prelude.{◌≡◌, true};
ghost use Rattle.math_terms.specs.declared.term.Term.{Term};
ghost use Rattle.term_cells.specs.Standing.{stands};
ghost use Rattle.str_theory.specs.Rules as rules;
ghost use Rattle.cell_rules.specs.Sketches.{Sketches};

use crate::forms::{as_cat, holds_empty};
use crate::sketch::{Bounds, Sketch, Text, Written};
use term_cells::Cells;

/// The empty string before another one.
pub(crate) fn from_empty(cells: &Cells, p: u32) -> Option<Sketch>
    ensures { (t : Term) → stands cells.now.0 t p ≡ true → Sketches cells.now.0 (rules.s7 t) result }
{
    let (a, b) = as_cat(cells, p)?;
    if !holds_empty(cells, a) {
        return None;
    }
    Some(Sketch {
        written: Written::Text(Text::At(b)),
        bounds: Bounds::None,
    })
}

/// The empty string after another one.
pub(crate) fn to_empty(cells: &Cells, p: u32) -> Option<Sketch>
    ensures { (t : Term) → stands cells.now.0 t p ≡ true → Sketches cells.now.0 (rules.s8 t) result }
{
    let (a, b) = as_cat(cells, p)?;
    if !holds_empty(cells, b) {
        return None;
    }
    Some(Sketch {
        written: Written::Text(Text::At(a)),
        bounds: Bounds::None,
    })
}

/// `(a o b) o c` becomes `a o (b o c)`.
pub(crate) fn regrouped(cells: &Cells, p: u32) -> Option<Sketch>
    ensures { (t : Term) → stands cells.now.0 t p ≡ true → Sketches cells.now.0 (rules.s9 t) result }
{
    let (ab, c) = as_cat(cells, p)?;
    let (a, b) = as_cat(cells, ab)?;
    Some(Sketch {
        written: Written::Cats(Text::At(a), Text::At(b), Text::At(c)),
        bounds: Bounds::None,
    })
}
