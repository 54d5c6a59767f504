//! Sequents and conditions.

ghost use Rattle.std.specs.Prelude.{◌≡◌, IfOk};
ghost use Rattle.vc_sequents.specs.Splitting.{sorts_of};

use crate::splitting::sorts_of;
use math_terms::{Desc, Formula, Name, NoMemory, Sort, VcName, copy_terms};
use sqlite_items::Items;
use std::alloc::{AllocError, Global};

/// Hypotheses, numbered from 1, and a goal. The variable of `Var(k)` is the k-th one, from 1, with the name by which it is
/// printed; `params` type parameters are numbered from 0.
#[derive(Debug, Drop)]
pub struct Sequent {
    pub vars: Items<(Name, Desc)>,
    pub params: u32,
    pub hyps: Items<Formula>,
    pub goal: Formula,
}

/// What a condition is about.
#[derive(Clone, Copy, Debug, PartialEq, Eq)]
pub enum VcKind {
    Facility,
    Constraint,
    InitConvention,
    InitEnsures,
    Requires,
    Range,
    Divisor,
    Entry,
    Keep,
    Progress,
    Metric,
    Ensures,
    ModeExit,
    Convention,
}

/// A condition: its name, what it is about, the offset of its place in the component's file, and the sequent.
#[derive(Debug, Drop)]
pub struct Vc {
    pub name: VcName,
    pub kind: VcKind,
    pub at: u32,
    pub sequent: Sequent,
}

/// Why a sequent has no leaves here: there are more than 64.
#[derive(Clone, Copy, Debug, PartialEq, Eq)]
pub enum SplitError {
    TooManyCases,
    NoMemory,
}

impl Sequent {
    /// A second sequent, equal to the first.
    pub fn copy(&self, alloc: Global) -> Result<Sequent, NoMemory>
        ensures { IfOk result (λ s. s ≡ self.now) }
    {
        Ok(Sequent {
            vars: copy_vars(alloc, self.vars.as_slice())?,
            params: self.params,
            hyps: copy_terms(alloc, self.hyps.as_slice())?,
            goal: self.goal.copy(alloc)?,
        })
    }
}

impl Sequent {
    /// The sorts of the variables.
    pub fn sorts(&self, alloc: Global) -> Result<Items<Sort>, NoMemory>
        ensures { IfOk result (λ ss. ss ≡ sorts_of self.now) }
    {
        sorts_of(alloc, self.vars.as_slice())
    }
}

impl Vc {
    /// A second condition, equal to the first.
    pub fn copy(&self, alloc: Global) -> Result<Vc, NoMemory>
        ensures { IfOk result (λ vc. vc ≡ self.now) }
    {
        Ok(Vc {
            name: self.name.copy(alloc)?,
            kind: self.kind,
            at: self.at,
            sequent: self.sequent.copy(alloc)?,
        })
    }
}

/// The variables of a slice once more, in their order.
pub(crate) fn copy_vars(
    alloc: Global,
    vars: &[(Name, Desc)],
) -> Result<Items<(Name, Desc)>, NoMemory>
    ensures { IfOk result (λ vs. vs ≡ vars.now) }
{
    let mut out = Items::new(alloc);
    for v in vars {
        out.push(copy_var(alloc, v)?)?;
    }
    Ok(out)
}

fn copy_var(alloc: Global, v: &(Name, Desc)) -> Result<(Name, Desc), NoMemory>
    ensures { IfOk result (λ u. u ≡ v.now) }
{
    let name = v.0.copy(alloc)?;
    let desc = v.1.copy(alloc)?;
    Ok((name, desc))
}

impl From<NoMemory> for SplitError {
    ghost use Rattle.vc_sequents.specs.declared.sequent.SplitError.TheVariants.{NoMemory as no_memory};

    ghost from_gives = { λ _ e. e ≡ no_memory };

    fn from(_error: NoMemory) -> SplitError {
        SplitError::NoMemory
    }
}

impl From<AllocError> for SplitError {
    ghost use Rattle.vc_sequents.specs.declared.sequent.SplitError.TheVariants.{NoMemory as no_memory};

    ghost from_gives = { λ _ e. e ≡ no_memory };

    fn from(_error: AllocError) -> SplitError {
        SplitError::NoMemory
    }
}
