//! What a length becomes.

ghost use Rattle.std.specs.Prelude.{◌≡◌, true};
ghost use Rattle.math_terms.specs.declared.term.Term.{Term};
ghost use Rattle.term_cells.specs.Standing.{stands};
ghost use Rattle.str_theory.specs.Rules as rules;
ghost use Rattle.cell_rules.specs.Sketches.{Sketches};

use crate::forms::{as_cat, as_len, as_part, as_reverse, as_single, holds_empty};
use crate::sketch::{AtMost, Bounds, Count, Sketch, Small, Written};
use term_cells::Cells;

/// Of the empty string: 0.
pub(crate) fn of_empty(cells: &Cells, p: u32) -> Option<Sketch>
    ensures { (t : Term) → stands cells.now.0 t p ≡ true → Sketches cells.now.0 (rules.s2 t) result }
{
    let a = as_len(cells, p)?;
    if !holds_empty(cells, a) {
        return None;
    }
    Some(Sketch {
        written: Written::Count(Count::Just(Small::Constant(0))),
        bounds: Bounds::None,
    })
}

/// Of a string of one element: 1.
pub(crate) fn of_single(cells: &Cells, p: u32) -> Option<Sketch>
    ensures { (t : Term) → stands cells.now.0 t p ≡ true → Sketches cells.now.0 (rules.s3 t) result }
{
    let a = as_len(cells, p)?;
    let _element = as_single(cells, a)?;
    Some(Sketch {
        written: Written::Count(Count::Just(Small::Constant(1))),
        bounds: Bounds::None,
    })
}

/// Of `a o b`: `|a| + |b|`.
pub(crate) fn of_cat(cells: &Cells, p: u32) -> Option<Sketch>
    ensures { (t : Term) → stands cells.now.0 t p ≡ true → Sketches cells.now.0 (rules.s4 t) result }
{
    let c = as_len(cells, p)?;
    let (a, b) = as_cat(cells, c)?;
    Some(Sketch {
        written: Written::Count(Count::Sum(Small::Length(a), Small::Length(b))),
        bounds: Bounds::None,
    })
}

/// Of a reversal: the length of what is reversed.
pub(crate) fn of_reverse(cells: &Cells, p: u32) -> Option<Sketch>
    ensures { (t : Term) → stands cells.now.0 t p ≡ true → Sketches cells.now.0 (rules.s5 t) result }
{
    let c = as_len(cells, p)?;
    let a = as_reverse(cells, c)?;
    Some(Sketch {
        written: Written::Count(Count::Just(Small::Length(a))),
        bounds: Bounds::None,
    })
}

/// Of a part from i to j: `j - i`, where the part lies in its string.
pub(crate) fn of_part(cells: &Cells, p: u32) -> Option<Sketch>
    ensures { (t : Term) → stands cells.now.0 t p ≡ true → Sketches cells.now.0 (rules.s6 t) result }
{
    let c = as_len(cells, p)?;
    let part = as_part(cells, c)?;
    let (from, to) = (Small::At(part.from), Small::At(part.to));
    let starts = AtMost {
        less: Count::Just(Small::Constant(0)),
        more: Count::Just(from),
    };
    let ordered = AtMost {
        less: Count::Just(from),
        more: Count::Just(to),
    };
    let ends = AtMost {
        less: Count::Just(to),
        more: Count::Just(Small::Length(part.text)),
    };
    Some(Sketch {
        written: Written::Count(Count::Difference(to, from)),
        bounds: Bounds::Three(starts, ordered, ends),
    })
}
