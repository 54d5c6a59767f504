//! What a name becomes.

ghost use Rattle.std.specs.Prelude.{◌≡◌, true};
ghost use Rattle.math_terms.specs.declared.term.Term.{Term};
ghost use Rattle.term_cells.specs.KindShown.{sorts_of_vars};
ghost use Rattle.term_cells.specs.Standing.{stands};
ghost use Rattle.str_theory.specs.Rules as rules;
ghost use Rattle.cell_rules.specs.Sketches.{Sketches};

use crate::forms::holds_name;
use crate::sketch::{AtMost, Bounds, Count, Sketch, Small, Text, Written};
use math_terms::{Desc, Name};
use term_cells::Cells;

/// The empty string, where it is a string whose length is at most 0.
pub(crate) fn of_string(cells: &Cells, vars: &[(Name, Desc)], p: u32) -> Option<Sketch>
    ensures { (t : Term) → stands cells.now.0 t p ≡ true → Sketches cells.now.0 (rules.s14 (sorts_of_vars vars.now) t) result }
{
    if !holds_name(cells, p) || !cells.is_string(p, vars) {
        return None;
    }
    Some(Sketch {
        written: Written::Text(Text::Empty),
        bounds: Bounds::One(AtMost {
            less: Count::Just(Small::Length(p)),
            more: Count::Just(Small::Constant(0)),
        }),
    })
}
