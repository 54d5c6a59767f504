//! Two parts of one string, of which the second begins where the first ends.

ghost use Rattle.std.specs.Prelude.{◌≡◌, true};
ghost use Rattle.math_terms.specs.declared.term.Term.{Term};
ghost use Rattle.term_cells.specs.Standing.{stands};
ghost use Rattle.str_theory.specs.Rules as rules;
ghost use Rattle.cell_rules.specs.Sketches.{Sketches};
ghost use Rattle.cell_rules.specs.Joining as spec;

use crate::equations::is_same;
use crate::forms::{as_cat, as_part};
use crate::sketch::{AtMost, Bounds, Count, Sketch, Small, Text, Written};
use term_cells::Cells;

/// Where both parts begin, where the first ends and the second begins, where the second ends, and their string.
#[derive(Clone, Copy, Debug)]
struct Joint {
    from: u32,
    middle: u32,
    to: u32,
    text: u32,
}

/// Where the second of two parts follows the first.
fn following(cells: &Cells, p: u32, q: u32) -> Option<Joint>
    ensures { (t u : Term) → stands cells.now.0 t p ≡ true → stands cells.now.0 u q ≡ true → spec.Follows cells.now.0 t u result }
{
    let first = as_part(cells, p)?;
    let second = as_part(cells, q)?;
    if !is_same(cells, first.to, second.from) || !is_same(cells, first.text, second.text) {
        return None;
    }
    Some(Joint {
        from: first.from,
        middle: first.to,
        to: second.to,
        text: first.text,
    })
}

impl Joint {
    /// Both parts as one.
    fn part(self) -> Text
        ensures { result ≡ spec.part self }
    {
        Text::Part(
            Count::Just(Small::At(self.from)),
            Count::Just(Small::At(self.to)),
            self.text,
        )
    }

    /// Each part ends where it begins or later.
    fn bounds(self) -> Bounds
        ensures { result ≡ spec.bounds self }
    {
        let middle = Count::Just(Small::At(self.middle));
        Bounds::Two(
            AtMost {
                less: Count::Just(Small::At(self.from)),
                more: middle,
            },
            AtMost {
                less: middle,
                more: Count::Just(Small::At(self.to)),
            },
        )
    }
}

/// A part before the one that follows it, which may stand before a rest.
pub(crate) fn of_following(cells: &Cells, p: u32) -> Option<Sketch>
    ensures { (t : Term) → stands cells.now.0 t p ≡ true → Sketches cells.now.0 (rules.s23 t) result }
{
    let (left, right) = as_cat(cells, p)?;
    match following(cells, left, right) {
        Some(joint) => Some(Sketch {
            written: Written::Text(joint.part()),
            bounds: joint.bounds(),
        }),
        None => before_rest(cells, left, right),
    }
}

/// The same, where the second part stands before a rest.
fn before_rest(cells: &Cells, left: u32, right: u32) -> Option<Sketch>
    ensures { (t u : Term) → stands cells.now.0 t left ≡ true → stands cells.now.0 u right ≡ true → Sketches cells.now.0 (spec.before_rest t u) result }
{
    let (next, rest) = as_cat(cells, right)?;
    let joint = following(cells, left, next)?;
    Some(Sketch {
        written: Written::Cat(joint.part(), Text::At(rest)),
        bounds: joint.bounds(),
    })
}
