//! Substitution of a term for a variable.

ghost use Rattle.std.specs.Prelude.{◌≡◌, ◌≤◌, IfOk, IfErr, OnOk};
ghost use Rattle.math_terms.specs.Terms.{nodes, put, IsSizeRefusal};
ghost use Rattle.math_terms.specs.Meaning.{Valuation, set_to};
ghost use Rattle.math_terms.specs.Descriptors.{Interpretation, value};

use crate::insertion::{Source, put_into};
use crate::name::TermError;
use crate::nodes::count;
use crate::term::Term;
use std::alloc::Global;

/// The most nodes that the result of a substitution may have.
pub(crate) const MOST_NODES: u32 = 10_000;

/// The term with `by` in place of each `Var(v)`. `TooLarge` says that it would have over 10,000 nodes;
/// that is found before any memory is taken.
#[tactic(auto, using(crate::proofs::Counting::count_up_to_put))]
pub fn substitute(alloc: Global, t: &Term, v: u32, by: &Term) -> Result<Term, TermError>
    ensures exact { IfOk result (λ r. r ≡ put v by.now t.now) }
    ensures value { IfOk result (λ r. (I : Interpretation) (w : Valuation) → value I w r ≡ value I (set_to v (value I w by.now) w) t.now) }
    ensures small { OnOk result (nodes (put v by.now t.now) ≤ 10000) }
    ensures refused { IfErr result (λ e. IsSizeRefusal e (nodes (put v by.now t.now))) }
{
    let size = count(t, v, by.nodes_up_to(MOST_NODES), MOST_NODES);
    if size > MOST_NODES {
        return Err(TermError::TooLarge);
    }
    match put_into(alloc, t, v, Source::Given(by)) {
        Ok(term) => Ok(term),
        Err(_) => Err(TermError::NoMemory),
    }
}
