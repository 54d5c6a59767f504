//! What a reversal becomes.

ghost use Rattle.std.specs.Prelude.{◌≡◌, true};
ghost use Rattle.math_terms.specs.declared.term.Term.{Term};
ghost use Rattle.term_cells.specs.Standing.{stands};
ghost use Rattle.str_theory.specs.Rules as rules;
ghost use Rattle.cell_rules.specs.Sketches.{Sketches};

use crate::forms::{as_cat, as_reverse, as_single, holds_empty};
use crate::sketch::{Bounds, Sketch, Text, Written};
use term_cells::Cells;

/// Of the empty string: the empty string.
pub(crate) fn of_empty(cells: &Cells, p: u32) -> Option<Sketch>
    ensures { (t : Term) → stands cells.now.0 t p ≡ true → Sketches cells.now.0 (rules.s10 t) result }
{
    let a = as_reverse(cells, p)?;
    if !holds_empty(cells, a) {
        return None;
    }
    Some(Sketch {
        written: Written::Text(Text::Empty),
        bounds: Bounds::None,
    })
}

/// Of a string of one element: that string.
pub(crate) fn of_single(cells: &Cells, p: u32) -> Option<Sketch>
    ensures { (t : Term) → stands cells.now.0 t p ≡ true → Sketches cells.now.0 (rules.s11 t) result }
{
    let a = as_reverse(cells, p)?;
    let _element = as_single(cells, a)?;
    Some(Sketch {
        written: Written::Text(Text::At(a)),
        bounds: Bounds::None,
    })
}

/// Of `a o b`: the reversal of b before that of a.
pub(crate) fn of_cat(cells: &Cells, p: u32) -> Option<Sketch>
    ensures { (t : Term) → stands cells.now.0 t p ≡ true → Sketches cells.now.0 (rules.s12 t) result }
{
    let c = as_reverse(cells, p)?;
    let (a, b) = as_cat(cells, c)?;
    Some(Sketch {
        written: Written::Cat(Text::Reversed(b), Text::Reversed(a)),
        bounds: Bounds::None,
    })
}

/// Of a reversal: what is reversed.
pub(crate) fn of_reverse(cells: &Cells, p: u32) -> Option<Sketch>
    ensures { (t : Term) → stands cells.now.0 t p ≡ true → Sketches cells.now.0 (rules.s13 t) result }
{
    let c = as_reverse(cells, p)?;
    let a = as_reverse(cells, c)?;
    Some(Sketch {
        written: Written::Text(Text::At(a)),
        bounds: Bounds::None,
    })
}
