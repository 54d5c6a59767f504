//! Which variables stand in a term.

ghost use Rattle.std.specs.Prelude.{◌≡◌};
ghost use Rattle.std.specs.List.{list_any};
ghost use Rattle.math_terms.specs.Mentions.{OthersDoNotMatter, mentions};

use crate::term::Term;
use crate::view::View;

impl Term {
    /// Whether variable v stands anywhere in the term. This takes no memory.
    #[cycle(mentions)]
    pub fn mentions(&self, v: u32) -> bool
        ensures { result ≡ mentions v self.now }
    {
        match self.view() {
            View::Num(_) | View::Truth(_) | View::MinInt | View::MaxInt | View::Empty => false,
            View::Var(k) => k == v,
            View::One(_, a) | View::Proj(_, a) | View::Initial(_, a) => a.mentions(v),
            View::Two(_, a, b) => a.mentions(v) || b.mentions(v),
            View::Part(i, j, a) => i.mentions(v) || j.mentions(v) || a.mentions(v),
            View::Tuple(parts) => some_mentions(parts, v),
        }
    }
}

/// Whether the variable stands in any of these terms.
#[cycle(mentions)]
fn some_mentions(terms: &[Term], v: u32) -> bool
    ensures { result ≡ list_any (mentions v) terms.now }
{
    for t in terms {
        if t.mentions(v) {
            return true;
        }
    }
    false
}

/// What is not mentioned does not matter for a term's value.
pub fn others_do_not_matter()
    ensures { OthersDoNotMatter }
{}
