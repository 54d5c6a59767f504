//! The formulas that splitting makes of the parts of others.

ghost use Rattle.std.specs.Prelude.{◌≡◌, IfOk};
ghost use Rattle.vc_sequents.specs.Splitting.{and as and_of, implies as implies_of, less as less_of, less_eq as less_eq_of, not as not_of, or as or_of};

use math_terms::{Boxed, Formula, NoMemory, Term, boxed};
use std::alloc::Global;

/// Two formulas on the heap.
type Pair = (Boxed<Formula>, Boxed<Formula>);

pub(crate) fn negation(alloc: Global, a: &Formula) -> Result<Formula, NoMemory>
    ensures { IfOk result (λ f. f ≡ not_of a.now) }
{
    let a = a.copy(alloc)?;
    Ok(Term::Not(boxed(alloc, a)?))
}

/// `not a or not b`
pub(crate) fn not_both(alloc: Global, a: &Formula, b: &Formula) -> Result<Formula, NoMemory>
    ensures { IfOk result (λ f. f ≡ or_of (not_of a.now) (not_of b.now)) }
{
    let a = boxed_negation(alloc, a)?;
    let b = boxed_negation(alloc, b)?;
    Ok(Term::Or(a, b))
}

/// `not a and not b`
pub(crate) fn neither(alloc: Global, a: &Formula, b: &Formula) -> Result<Formula, NoMemory>
    ensures { IfOk result (λ f. f ≡ and_of (not_of a.now) (not_of b.now)) }
{
    let a = boxed_negation(alloc, a)?;
    let b = boxed_negation(alloc, b)?;
    Ok(Term::And(a, b))
}

/// `a and not b`
pub(crate) fn first_alone(alloc: Global, a: &Formula, b: &Formula) -> Result<Formula, NoMemory>
    ensures { IfOk result (λ f. f ≡ and_of a.now (not_of b.now)) }
{
    let a = boxed_copy(alloc, a)?;
    let b = boxed_negation(alloc, b)?;
    Ok(Term::And(a, b))
}

/// `a implies b`
pub(crate) fn implication(alloc: Global, a: &Formula, b: &Formula) -> Result<Formula, NoMemory>
    ensures { IfOk result (λ f. f ≡ implies_of a.now b.now) }
{
    let (a, b) = copies(alloc, a, b)?;
    Ok(Term::Implies(a, b))
}

/// `a < b`
pub(crate) fn less(alloc: Global, a: &Term, b: &Term) -> Result<Formula, NoMemory>
    ensures { IfOk result (λ f. f ≡ less_of a.now b.now) }
{
    let (a, b) = copies(alloc, a, b)?;
    Ok(Term::Less(a, b))
}

/// `a <= b`
pub(crate) fn less_eq(alloc: Global, a: &Term, b: &Term) -> Result<Formula, NoMemory>
    ensures { IfOk result (λ f. f ≡ less_eq_of a.now b.now) }
{
    let (a, b) = copies(alloc, a, b)?;
    Ok(Term::LessEq(a, b))
}

fn copies(alloc: Global, a: &Term, b: &Term) -> Result<Pair, NoMemory>
    ensures { IfOk result (λ p. (p.0 ≡ a.now) × (p.1 ≡ b.now)) }
{
    let a = boxed_copy(alloc, a)?;
    let b = boxed_copy(alloc, b)?;
    Ok((a, b))
}

fn boxed_copy(alloc: Global, a: &Term) -> Result<Boxed<Term>, NoMemory>
    ensures { IfOk result (λ b. b ≡ a.now) }
{
    boxed(alloc, a.copy(alloc)?)
}

fn boxed_negation(alloc: Global, a: &Formula) -> Result<Boxed<Formula>, NoMemory>
    ensures { IfOk result (λ b. b ≡ not_of a.now) }
{
    boxed(alloc, negation(alloc, a)?)
}
