//! Parts of strings in which one element is known.

ghost use Rattle.std.specs.Prelude.{◌≡◌, true, Option};
ghost use Rattle.math_terms.specs.declared.term.Term.{Term};
ghost use Rattle.term_cells.specs.Standing.{stands};
ghost use Rattle.str_theory.specs.Rules as rules;
ghost use Rattle.cell_rules.specs.Sketches.{Sketches};
ghost use Rattle.cell_rules.specs.Using.{FactStands};

use crate::equations::is_same;
use crate::forms::{as_eq, as_part, as_single};
use crate::sketch::{AtMost, Bounds, Count, Sketch, Small, Text, Written};
use term_cells::Cells;

/// A part around one whose only element a fact tells: what is before it, that element, and what is after it.
pub(crate) fn by_fact(cells: &Cells, fact: Option<u32>, p: u32) -> Option<Sketch>
    ensures { (f : Option Term) (t : Term) → FactStands cells.now.0 f fact → stands cells.now.0 t p ≡ true → Sketches cells.now.0 (rules.s22_with f t) result }
{
    let fact = fact?;
    let (a, b) = as_eq(cells, fact)?;
    match around(cells, p, a, b) {
        Some(sketch) => Some(sketch),
        None => around(cells, p, b, a),
    }
}

/// The same, where this string of one element is equal to this part.
fn around(cells: &Cells, p: u32, single: u32, middle: u32) -> Option<Sketch>
    ensures { (t s m : Term) → stands cells.now.0 t p ≡ true → stands cells.now.0 s single ≡ true → stands cells.now.0 m middle ≡ true → Sketches cells.now.0 (rules.s22_by t s m) result }
{
    let outer = as_part(cells, p)?;
    let _element = as_single(cells, single)?;
    let inner = as_part(cells, middle)?;
    if !is_same(cells, outer.text, inner.text) {
        return None;
    }
    let (from, to) = (
        Count::Just(Small::At(outer.from)),
        Count::Just(Small::At(outer.to)),
    );
    let (start, end) = (
        Count::Just(Small::At(inner.from)),
        Count::Just(Small::At(inner.to)),
    );
    Some(Sketch {
        written: Written::Cats(
            Text::Part(from, start, outer.text),
            Text::At(single),
            Text::Part(end, to, outer.text),
        ),
        bounds: Bounds::Three(
            AtMost {
                less: from,
                more: start,
            },
            AtMost {
                less: start,
                more: end,
            },
            AtMost {
                less: end,
                more: to,
            },
        ),
    })
}
