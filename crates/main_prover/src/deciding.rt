//! When a condition counts as proved.

ghost use Rattle.std.specs.Prelude.{◌≡◌, ◌↔◌, IfOk, IsTrue, Some, true};
ghost use Rattle.vc_sequents.specs.declared.sequent.VcKind.TheVariants as kinds;
ghost use Rattle.main_vcs.specs.Terms.{empty_string};
ghost use Rattle.main_vcs.specs.Walk.{Condition};
ghost use Rattle.main_prover.specs.working.Deciding.{IsComputedGoal, IsTrueAtEnd};
ghost use Rattle.main_prover.specs.Proving.{IsChain, IsProved, IsTrueFormula, sequent_of};

use crate::checking::checked_certificate;
use main_form::{Claim, Module};
use math_terms::{NoMemory, Term, substitute, truth};
use std::alloc::Global;
use vc_prover::ProveError;
use vc_sequents::{Sequent, VcKind};

fn is_some_true(found: Option<bool>) -> bool
    ensures { IsTrue result ↔ (found ≡ Some true) }
{
    match found {
        Some(b) => b,
        None => false,
    }
}

// Whether a formula can be computed and is true.
fn is_true(alloc: Global, f: &Term) -> Result<bool, NoMemory>
    ensures { IfOk result (λ b. IsTrue b ↔ IsTrueFormula f.now) }
{
    let found = truth(alloc, f)?;
    Ok(is_some_true(found))
}

fn empty() -> Term
    ensures { result ≡ empty_string }
{
    Term::Empty
}

// Whether a goal that is not too large is true where the output is empty. The empty string is no larger than a variable, so that
// only want of memory refuses to put it in.
fn is_true_at_end(alloc: Global, goal: &Term) -> Result<bool, NoMemory>
    ensures { IfOk result (λ b. IsTrue b ↔ IsTrueAtEnd goal.now) }
{
    if goal.nodes_up_to(10000) > 10000 {
        return Ok(false);
    }
    let empty = empty();
    match substitute(alloc, goal, 2, &empty) {
        Ok(closed) => is_true(alloc, &closed),
        Err(_) => Err(NoMemory),
    }
}

fn is_chain(claim: &Claim) -> bool
    ensures { IsTrue result ↔ IsChain claim.now }
{
    match claim {
        Claim::True => false,
        Claim::Chain(_) => true,
    }
}

fn is_ensures(kind: VcKind) -> bool
    ensures { IsTrue result ↔ (kind ≡ kinds.Ensures) }
{
    matches!(kind, VcKind::Ensures)
}

// Whether a goal can be computed at the end of Main, and is true.
fn is_computed(alloc: Global, m: &Module, kind: VcKind, goal: &Term) -> Result<bool, NoMemory>
    ensures { IfOk result (λ b. IsTrue b ↔ IsComputedGoal m.now kind goal.now) }
{
    if is_ensures(kind) && is_chain(&m.claim) {
        is_true_at_end(alloc, goal)
    } else {
        Ok(false)
    }
}

/// Whether a condition of this kind with this sequent counts as proved.
pub(crate) fn is_proved(
    alloc: Global,
    m: &Module,
    kind: VcKind,
    s: &Sequent,
) -> Result<bool, NoMemory>
    ensures { IfOk result (λ b. (c : Condition) → c.kind ≡ kind → sequent_of c ≡ s.now → IsTrue b ↔ IsProved m.now c) }
{
    match checked_certificate(alloc, s) {
        Ok(_) => Ok(true),
        Err(ProveError::Open) => is_computed(alloc, m, kind, &s.goal),
        Err(ProveError::NoMemory) => Err(NoMemory),
    }
}
