//! All conditions of a module, and the first one that does not count as proved.

ghost use Rattle.std.specs.Prelude.{◌≡◌, IfOk, MatchOption};
ghost use Rattle.std.specs.List.{AllByRecursion};
ghost use Rattle.main_form.specs.Formed.{IsForm};
ghost use Rattle.main_vcs.specs.Walk.{conditions_of};
ghost use Rattle.main_prover.specs.Proving.{IsFirstUnproved, IsProved, vcs_of};

use crate::judge::{Judge, Purpose, Stop};
use crate::proving::Unproved;
use main_form::Module;
use math_terms::NoMemory;
use sqlite_items::Items;
use std::alloc::Global;
use vc_sequents::Vc;

/// All conditions of a module, in order, as values.
pub fn conditions(alloc: Global, m: &Module) -> Result<Items<Vc>, NoMemory>
    ensures { IfOk result (λ vcs. vcs ≡ vcs_of m.now) }
{
    let mut judge = Judge::new(alloc, Purpose::Collect);
    match judge.run(m) {
        Ok(()) => Ok(judge.collected),
        Err(_) => Err(NoMemory),
    }
}

/// The first condition that does not count as proved.
pub fn first_unproved(alloc: Global, m: &Module) -> Result<Option<Unproved>, NoMemory>
    requires form { IsForm m.now }
    ensures { IfOk result (λ o. MatchOption o (AllByRecursion (IsProved m.now) (conditions_of m.now)) (IsFirstUnproved m.now)) }
{
    let mut judge = Judge::new(alloc, Purpose::Prove);
    match judge.run(m) {
        Ok(()) => Ok(None),
        Err(Stop::Unproved(u)) => Ok(Some(u)),
        Err(Stop::NoMemory) => Err(NoMemory),
    }
}
