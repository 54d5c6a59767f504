//! What a projection becomes.

ghost use Rattle.std.specs.Prelude.{◌≡◌, true};
ghost use Rattle.math_terms.specs.declared.term.Term.{Term};
ghost use Rattle.term_cells.specs.Standing.{stands};
ghost use Rattle.str_theory.specs.Rules as rules;
ghost use Rattle.cell_rules.specs.Sketches.{Sketches};

use crate::children::part;
use crate::forms::{as_proj, as_tuple};
use crate::sketch::{Bounds, Sketch, Text, Written};
use term_cells::Cells;

/// Of a tuple: the part of the projection's number.
pub(crate) fn of_tuple(cells: &Cells, p: u32) -> Option<Sketch>
    ensures { (t : Term) → stands cells.now.0 t p ≡ true → Sketches cells.now.0 (rules.s24 t) result }
{
    let (k, tuple) = as_proj(cells, p)?;
    let list = as_tuple(cells, tuple)?;
    let place = part(cells, list, k)?;
    Some(Sketch {
        written: Written::Text(Text::At(place)),
        bounds: Bounds::None,
    })
}
