//! What is done with conditions: they are collected, or proved.

ghost use Rattle.std.specs.Prelude.{◌≡◌, ◌+◌, [], ◌∷◌, ◌++◌, IfOk, MatchResult, OnOk, codes};
ghost use Rattle.main_form.specs.declared.module.Module.{Module};
ghost use Rattle.main_prover.specs.working.Judging.{AllProved, HasJudged, IsRefusal, Judges};
ghost use Rattle.main_prover.specs.working.Making.{condition_at};
ghost use Rattle.main_prover.specs.working.Points.{point_of};
ghost use Rattle.main_prover.specs.Proving.{vc_of};

use crate::deciding::is_proved;
use crate::numbers::next;
use crate::path::Path;
use crate::proving::Unproved;
use main_form::Module;
use math_terms::{Name, NoMemory, Term, VcName};
use sqlite_items::Items;
use std::alloc::{AllocError, Global};
use vc_sequents::{Sequent, Vc, VcKind};

/// What is to be done with conditions.
#[derive(Clone, Copy, Debug)]
pub(crate) enum Purpose {
    Collect,
    Prove,
}

/// Why a walk stops.
#[derive(Clone, Copy, Debug)]
pub(crate) enum Stop {
    Unproved(Unproved),
    NoMemory,
}

impl From<NoMemory> for Stop {
    ghost use Rattle.std.specs.Prelude.{◌≡◌};
    ghost use Rattle.main_prover.specs.declared.judge.Stop.TheVariants.{NoMemory as no_memory};

    ghost from_gives = { λ _ s. s ≡ no_memory };

    fn from(_error: NoMemory) -> Stop {
        Stop::NoMemory
    }
}

impl From<AllocError> for Stop {
    ghost use Rattle.std.specs.Prelude.{◌≡◌};
    ghost use Rattle.main_prover.specs.declared.judge.Stop.TheVariants.{NoMemory as no_memory};

    ghost from_gives = { λ _ s. s ≡ no_memory };

    fn from(_error: AllocError) -> Stop {
        Stop::NoMemory
    }
}

/// What was done with so many conditions.
#[derive(Debug, Drop)]
pub(crate) struct Judge {
    pub(crate) alloc: Global,
    pub(crate) purpose: Purpose,
    pub(crate) count: u32,
    pub(crate) collected: Items<Vc>,
}

impl Judge {
    /// Nothing is done yet.
    pub(crate) fn new(alloc: Global, purpose: Purpose) -> Judge
        ensures { (m : Module) → HasJudged m purpose [] result }
    {
        Judge {
            alloc,
            purpose,
            count: 0,
            collected: Items::new(alloc),
        }
    }

    // The name of a condition.
    fn name(&self, m: &Module, number: u32) -> Result<VcName, NoMemory>
        ensures { IfOk result (λ n. n ≡ record { component = m.now.name; part = codes "Main"; number = number }) }
    {
        let component = m.name.copy(self.alloc)?;
        let part = Name::new(self.alloc, b"Main")?;
        Ok(VcName {
            component,
            part,
            number,
        })
    }

    // Adds a condition to those that are collected.
    fn collect(&mut self, m: &Module, u: Unproved, sequent: Sequent) -> Result<(), NoMemory>
        ensures { OnOk result (self.new ≡ record self.old { count = u.number; collected = self.old.collected ++ record { name = record { component = m.now.name; part = codes "Main"; number = u.number }; kind = u.kind; at = u.at; sequent = sequent } ∷ [] }) }
    {
        let name = self.name(m, u.number)?;
        self.collected.push(Vc {
            name,
            kind: u.kind,
            at: u.at,
            sequent,
        })?;
        self.count = u.number;
        Ok(())
    }

    // Proves a condition.
    fn prove(&mut self, m: &Module, u: Unproved, sequent: &Sequent) -> Result<(), Stop>
        ensures { MatchResult result (λ _. (self.new ≡ record self.old { count = u.number }) × AllProved m.now u.kind sequent.now) (IsRefusal m.now u sequent.now) }
    {
        if is_proved(self.alloc, m, u.kind, sequent)? {
            self.count = u.number;
            Ok(())
        } else {
            Err(Stop::Unproved(u))
        }
    }

    /// Goes on over a condition.
    pub(crate) fn judge(
        &mut self,
        m: &Module,
        kind: VcKind,
        at: u32,
        path: &Path,
        goal: Term,
    ) -> Result<(), Stop>
        ensures { Judges m.now (condition_at kind at (point_of path.now) goal ∷ []) self.old result self.new }
    {
        let number = next(self.count)?;
        let sequent = path.sequent(self.alloc, goal)?;
        let u = Unproved { number, kind, at };
        match self.purpose {
            Purpose::Collect => Ok(self.collect(m, u, sequent)?),
            Purpose::Prove => self.prove(m, u, &sequent),
        }
    }
}
