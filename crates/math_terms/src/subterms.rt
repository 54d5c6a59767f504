//! The subterms of a term, by their positions.

ghost use Rattle.std.specs.Option.{option_copied};
ghost use Rattle.std.specs.Prelude.{◌≡◌, [], ◌∷◌};
ghost use Rattle.math_terms.specs.declared.term.Term.TheViews.{out-Term};
ghost use Rattle.math_terms.specs.Heads.{children};
ghost use Rattle.math_terms.specs.Positions as spec;

use crate::position::Position;
use crate::term::Term;
use crate::view::View;

impl Term {
    /// The subterm at a position; none where the term has no node there. This takes no memory.
    pub fn at(&self, position: &Position) -> Option<&Term>
        ensures { option_copied result ≡ spec.at position.now self.now }
    {
        below(self, position.places().as_slice())
    }

    /// The child of this number, counted from 1.
    pub fn child(&self, number: u32) -> Option<&Term>
        ensures { option_copied result ≡ spec.numbered number (children (out-Term self.now)) }
    {
        match self.view() {
            View::One(_, a) => only(number, a),
            View::Two(_, a, b) => one_of_two(number, a, b),
            View::Part(i, j, a) => one_of_three(number, i, j, a),
            View::Tuple(parts) => numbered(number, parts),
            View::Proj(_, a) => only(number, a),
            View::Initial(_, a) => only(number, a),
            _ => None,
        }
    }
}

/// The subterm that is reached along these child numbers.
fn below<'a>(t: &'a Term, numbers: &[u32]) -> Option<&'a Term>
    ensures { option_copied result ≡ spec.at numbers.now t.now }
{
    match numbers {
        [] => Some(t),
        [first, rest @ ..] => below(t.child(*first)?, rest),
    }
}

fn only(number: u32, a: &Term) -> Option<&Term>
    ensures { option_copied result ≡ spec.numbered number (a.now ∷ []) }
{
    if number == 1 { Some(a) } else { None }
}

fn one_of_two<'a>(number: u32, a: &'a Term, b: &'a Term) -> Option<&'a Term>
    ensures { option_copied result ≡ spec.numbered number (a.now ∷ b.now ∷ []) }
{
    match number {
        1 => Some(a),
        2 => Some(b),
        _ => None,
    }
}

fn one_of_three<'a>(number: u32, i: &'a Term, j: &'a Term, a: &'a Term) -> Option<&'a Term>
    ensures { option_copied result ≡ spec.numbered number (i.now ∷ j.now ∷ a.now ∷ []) }
{
    match number {
        1 => Some(i),
        2 => Some(j),
        3 => Some(a),
        _ => None,
    }
}

/// The part of this number, counted from 1.
pub(crate) fn numbered(number: u32, parts: &[Term]) -> Option<&Term>
    ensures { option_copied result ≡ spec.numbered number parts.now }
{
    if number == 0 {
        None
    } else {
        parts.get(number as usize - 1)
    }
}
