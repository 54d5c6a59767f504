//! The check of the certificates that the search finds.

ghost use Rattle.std.specs.Prelude.{◌≡◌, ◌↔◌, ◌≢◌, ◌^◌, ◌<◌, List, length, IfErr, IfOk, IfSome, IsTrue};
ghost use Rattle.vc_sequents.specs.declared.sequent.Sequent.{Sequent};
ghost use Rattle.cert_form.specs.declared.cert.Step.{Step};
ghost use Rattle.cert_check.specs.Legality.{IsLegal, verdict_of};
ghost use Rattle.vc_prover.specs.Refusal.{IsProveRefusal};
ghost use Rattle.vc_prover.specs.Search.{IsFound};

use cert_check::{Desk, Verdict, check};
use cert_form::Cert;
use math_terms::NoMemory;
use std::alloc::Global;
use vc_prover::{ProveError, prove};
use vc_sequents::Sequent;

/// The first desk is for 2 to this power of nodes; each further one is for twice as many.
const FIRST_DESK: u32 = 10;

/// No desk is for 2 to this power of nodes.
const NO_DESK: u32 = 31;

/// A list of so many items is taken for want of memory.
const TOO_MANY: usize = 1 << 32;

/// The certificate that the search finds, after the check has let it pass.
pub(crate) fn checked_certificate(alloc: Global, s: &Sequent) -> Result<Cert, ProveError>
    ensures found { IfOk result (λ c. IsFound s.now c.steps) }
    ensures refused { IfErr result (IsProveRefusal s.now) }
{
    let cert = prove(alloc, s)?;
    if is_legal(alloc, &cert, s)? {
        Ok(cert)
    } else {
        Err(ProveError::Open)
    }
}

/// Whether the check finds a certificate legal, on a desk that is large enough.
fn is_legal(alloc: Global, cert: &Cert, s: &Sequent) -> Result<bool, NoMemory>
    ensures { IfOk result (λ b. IsTrue b ↔ IsLegal cert.now.steps s.now) }
{
    if cert.steps.len() >= TOO_MANY || s.hyps.len() >= TOO_MANY {
        return Err(NoMemory);
    }
    for doubled in FIRST_DESK..NO_DESK {
        if let Some(legal) = check_on_desk(alloc, 1 << doubled, cert, s)? {
            return Ok(legal);
        }
    }
    Err(NoMemory)
}

/// The same on a desk for so many nodes; none where these are too few.
fn check_on_desk(
    alloc: Global,
    nodes: u64,
    cert: &Cert,
    s: &Sequent,
) -> Result<Option<bool>, NoMemory>
    requires steps { length cert.now.steps < 2 ^ 32 }
    requires hyps { length s.now.hyps < 2 ^ 32 }
    ensures { IfOk result (λ found. IfSome found (λ b. IsTrue b ↔ IsLegal cert.now.steps s.now)) }
{
    let mut desk = Desk::new(alloc, nodes)?;
    let verdict = check(&mut desk, cert, s);
    Ok(legality(verdict))
}

/// What a verdict says of legality.
fn legality(verdict: Verdict) -> Option<bool>
    ensures { (steps : List Step) (s : Sequent) → (verdict ≢ Verdict.DeskFull → verdict ≡ verdict_of steps s) → IfSome result (λ b. IsTrue b ↔ IsLegal steps s) }
{
    match verdict {
        Verdict::Legal => Some(true),
        Verdict::Illegal { .. } => Some(false),
        Verdict::DeskFull => None,
    }
}
