//! The check of certificates.

ghost use Rattle.std.specs.Prelude.{◌≡◌, ◌≢◌, ℕ, ◌^◌, ◌<◌, length, IfOk};
ghost use Rattle.vc_sequents.specs.declared.sequent.Sequent.{Sequent};
ghost use Rattle.vc_sequents.specs.Splitting.{IsValidSequent};
ghost use Rattle.cert_check.specs.Legality.{verdict_of};
ghost use Rattle.cert_check.specs.Need.{need_of};
ghost use Rattle.cert_check.specs.working.Room.{Needs};
ghost use Rattle.cert_check.specs.working.Walking.{Walked};

use crate::laws::legal_is_valid;
use crate::path::Path;
use crate::verdict::Verdict;
use crate::walk::Stop;
use cert_form::{Cert, Step};
use math_terms::NoMemory;
use std::alloc::Global;
use std::marker::Model;
use vc_sequents::Sequent;

/// So many nodes have places of 32 bits no more.
const TOO_MANY: u64 = 1 << 31;

/// Room in which certificates are checked. A contract sees for how many nodes it is.
#[derive(Debug, Drop)]
pub struct Desk {
    path: Path,
    nodes: u64,
}

impl Model for Desk {
    ghost use Rattle.std.specs.Prelude.{ℕ, ◌≡◌, ◌*◌, ◌^◌, ◌<◌};

    ghost Value = { ℕ };

    ghost view = { λ d. d.nodes };

    ghost invariant = { λ d. (d.path.cells.1 ≡ 2 * d.nodes) × (d.path.places.1 ≡ d.nodes) × (d.path.sheet ≡ d.nodes) × (d.nodes < 2 ^ 31) };
}

impl Desk {
    /// Room for so many nodes, fewer than 2^31.
    pub fn new(alloc: Global, nodes: u64) -> Result<Desk, NoMemory>
        ensures { IfOk result (λ d. d ≡ nodes) }
    {
        if nodes >= TOO_MANY {
            return Err(NoMemory);
        }
        let path = Path::new(alloc, nodes as usize)?;
        Ok(Desk { path, nodes })
    }
}

/// Whether a certificate is legal for a sequent. This takes no memory. Steps are numbered from 0.
pub fn check(desk: &mut Desk, cert: &Cert, s: &Sequent) -> Verdict
    requires steps { length cert.now.steps < 2 ^ 32 }
    requires hyps { length s.now.hyps < 2 ^ 32 }
    ensures desk { desk.new ≡ desk.old }
    ensures exact { result ≢ Verdict.DeskFull → result ≡ verdict_of cert.now.steps s.now }
    ensures valid { result ≡ Verdict.Legal → IsValidSequent s.now }
    ensures full { result ≡ Verdict.DeskFull → desk.old < need_of cert.now.steps s.now }
{
    legal_is_valid();
    let steps = cert.steps.as_slice();
    if steps.is_empty() {
        return Verdict::Illegal { step: 0 };
    }
    let end = desk.path.check(steps, s);
    verdict(end, steps)
}

/// What is answered where a walk ends so.
fn verdict(end: Result<u32, Stop>, steps: &[Step]) -> Verdict
    ensures exact { (s : Sequent) → Walked steps.now 0 s end → result ≢ Verdict.DeskFull → result ≡ verdict_of steps.now s }
    ensures full { (s : Sequent) (room : ℕ) → Needs steps.now 0 (0, s) room end → result ≡ Verdict.DeskFull → room < need_of steps.now s }
{
    match end {
        Ok(next) => {
            if (next as usize) < steps.len() {
                Verdict::Illegal { step: next }
            } else {
                Verdict::Legal
            }
        }
        Err(Stop::Illegal(step)) => Verdict::Illegal { step },
        Err(Stop::Full) => Verdict::DeskFull,
    }
}
