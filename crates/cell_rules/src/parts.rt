//! What a part of a string becomes.

ghost use Rattle.std.specs.Prelude.{◌≡◌, true};
ghost use Rattle.math_terms.specs.declared.term.Term.{Term};
ghost use Rattle.term_cells.specs.Standing.{stands};
ghost use Rattle.str_theory.specs.Rules as rules;
ghost use Rattle.cell_rules.specs.Sketches.{Sketches};

use crate::forms::{as_cat, as_part, as_reverse};
use crate::sketch::{AtMost, Bounds, Count, Sketch, Small, Text, Written};
use term_cells::Cells;

/// Empty, where it ends at its start or before.
pub(crate) fn reversed_bounds(cells: &Cells, p: u32) -> Option<Sketch>
    ensures { (t : Term) → stands cells.now.0 t p ≡ true → Sketches cells.now.0 (rules.s15 t) result }
{
    let part = as_part(cells, p)?;
    Some(Sketch {
        written: Written::Text(Text::Empty),
        bounds: Bounds::One(AtMost {
            less: Count::Just(Small::At(part.to)),
            more: Count::Just(Small::At(part.from)),
        }),
    })
}

/// Empty, where it ends at the start of its string or before.
pub(crate) fn before_string(cells: &Cells, p: u32) -> Option<Sketch>
    ensures { (t : Term) → stands cells.now.0 t p ≡ true → Sketches cells.now.0 (rules.s16 t) result }
{
    let part = as_part(cells, p)?;
    Some(Sketch {
        written: Written::Text(Text::Empty),
        bounds: Bounds::One(AtMost {
            less: Count::Just(Small::At(part.to)),
            more: Count::Just(Small::Constant(0)),
        }),
    })
}

/// Empty, where it begins at the end of its string or later.
pub(crate) fn past_string(cells: &Cells, p: u32) -> Option<Sketch>
    ensures { (t : Term) → stands cells.now.0 t p ≡ true → Sketches cells.now.0 (rules.s17 t) result }
{
    let part = as_part(cells, p)?;
    Some(Sketch {
        written: Written::Text(Text::Empty),
        bounds: Bounds::One(AtMost {
            less: Count::Just(Small::Length(part.text)),
            more: Count::Just(Small::At(part.from)),
        }),
    })
}

/// The whole string, where it begins at its start or before and ends at its end or later.
pub(crate) fn whole_string(cells: &Cells, p: u32) -> Option<Sketch>
    ensures { (t : Term) → stands cells.now.0 t p ≡ true → Sketches cells.now.0 (rules.s18 t) result }
{
    let part = as_part(cells, p)?;
    let starts = AtMost {
        less: Count::Just(Small::At(part.from)),
        more: Count::Just(Small::Constant(0)),
    };
    let ends = AtMost {
        less: Count::Just(Small::Length(part.text)),
        more: Count::Just(Small::At(part.to)),
    };
    Some(Sketch {
        written: Written::Text(Text::At(part.text)),
        bounds: Bounds::Two(starts, ends),
    })
}

/// Of `a o b`: a part of a before a part of b.
pub(crate) fn of_cat(cells: &Cells, p: u32) -> Option<Sketch>
    ensures { (t : Term) → stands cells.now.0 t p ≡ true → Sketches cells.now.0 (rules.s19 t) result }
{
    let part = as_part(cells, p)?;
    let (a, b) = as_cat(cells, part.text)?;
    let (from, to) = (Small::At(part.from), Small::At(part.to));
    let left = Text::Part(Count::Just(from), Count::Just(to), a);
    let right = Text::Part(
        Count::Difference(from, Small::Length(a)),
        Count::Difference(to, Small::Length(a)),
        b,
    );
    Some(Sketch {
        written: Written::Cat(left, right),
        bounds: Bounds::None,
    })
}

/// Of a reversal: a part, in reverse, of what is reversed.
pub(crate) fn of_reverse(cells: &Cells, p: u32) -> Option<Sketch>
    ensures { (t : Term) → stands cells.now.0 t p ≡ true → Sketches cells.now.0 (rules.s20 t) result }
{
    let part = as_part(cells, p)?;
    let a = as_reverse(cells, part.text)?;
    let from = Count::Difference(Small::Length(a), Small::At(part.to));
    let to = Count::Difference(Small::Length(a), Small::At(part.from));
    Some(Sketch {
        written: Written::Reversed(Text::Part(from, to, a)),
        bounds: Bounds::None,
    })
}

/// Of a part: one part, where the inner one begins in its string and the outer one in it and ends in it.
pub(crate) fn of_part(cells: &Cells, p: u32) -> Option<Sketch>
    ensures { (t : Term) → stands cells.now.0 t p ≡ true → Sketches cells.now.0 (rules.s21 t) result }
{
    let outer = as_part(cells, p)?;
    let inner = as_part(cells, outer.text)?;
    let start = Small::At(inner.from);
    let from = Count::Sum(start, Small::At(outer.from));
    let to = Count::Sum(start, Small::At(outer.to));
    let inner_starts = AtMost {
        less: Count::Just(Small::Constant(0)),
        more: Count::Just(start),
    };
    let outer_starts = AtMost {
        less: Count::Just(Small::Constant(0)),
        more: Count::Just(Small::At(outer.from)),
    };
    let ends = AtMost {
        less: to,
        more: Count::Just(Small::At(inner.to)),
    };
    Some(Sketch {
        written: Written::Text(Text::Part(from, to, inner.text)),
        bounds: Bounds::Three(inner_starts, outer_starts, ends),
    })
}
