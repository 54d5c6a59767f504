//! Certificates and their steps.

ghost use Rattle.std.specs.Prelude.{◌≡◌, IfOk};

use math_terms::{Line, NoMemory, Position, RowName, VcName};
use sqlite_items::Items;
use std::alloc::Global;

/// A step. Hypotheses are counted from 1 in the sequent at hand, and 0 is its goal.
#[derive(Debug, Drop)]
pub enum Step {
    /// The goal is true, or equates a term with itself.
    Same,
    /// This hypothesis is the goal.
    Hyp(u32),
    /// This hypothesis is false.
    Absurd(u32),
    /// The second hypothesis is the negation of the first.
    Clash(u32, u32),
    /// The named rows, with those that the lines append, end in a contradiction.
    Linear {
        rows: Items<RowName>,
        lines: Items<Line>,
    },
    /// This formula is split, into that many sequents.
    Split(u32, u32),
    /// What this equation says of a variable is put for it.
    Subst(u32),
    /// A rule rewrites a formula at a position, with a fact or 0, after that many side conditions.
    Rewrite {
        formula: u32,
        position: Position,
        rule: u8,
        with: u32,
        sides: u32,
    },
}

/// Steps in prefix order: after a step come the steps of the sequents that it gives, one sequent after another.
#[derive(Debug, Drop)]
pub struct Cert {
    pub steps: Items<Step>,
}

/// A certificate of a condition.
#[derive(Debug, Drop)]
pub struct NamedCert {
    pub name: VcName,
    pub cert: Cert,
}

impl Step {
    /// A second step, equal to the first.
    pub fn copy(&self, alloc: Global) -> Result<Step, NoMemory>
        ensures { IfOk result (λ s. s ≡ self.now) }
    {
        match self {
            Step::Same => Ok(Step::Same),
            Step::Hyp(k) => Ok(Step::Hyp(*k)),
            Step::Absurd(k) => Ok(Step::Absurd(*k)),
            Step::Clash(k, l) => Ok(Step::Clash(*k, *l)),
            Step::Linear { rows, lines } => copy_linear(alloc, rows.as_slice(), lines.as_slice()),
            Step::Split(k, n) => Ok(Step::Split(*k, *n)),
            Step::Subst(k) => Ok(Step::Subst(*k)),
            Step::Rewrite {
                formula,
                position,
                rule,
                with,
                sides,
            } => Ok(Step::Rewrite {
                formula: *formula,
                position: position.copy(alloc)?,
                rule: *rule,
                with: *with,
                sides: *sides,
            }),
        }
    }
}

fn copy_linear(alloc: Global, rows: &[RowName], lines: &[Line]) -> Result<Step, NoMemory>
    ensures { IfOk result (λ s. s ≡ Step.Linear rows.now lines.now) }
{
    Ok(Step::Linear {
        rows: Items::from_slice(alloc, rows)?,
        lines: Items::from_slice(alloc, lines)?,
    })
}

impl Cert {
    /// A second certificate, equal to the first.
    pub fn copy(&self, alloc: Global) -> Result<Cert, NoMemory>
        ensures { IfOk result (λ c. c ≡ self.now) }
    {
        let mut steps = Items::new(alloc);
        for step in self.steps.as_slice() {
            steps.push(step.copy(alloc)?)?;
        }
        Ok(Cert { steps })
    }
}

impl NamedCert {
    /// A second certificate with its name, equal to the first.
    pub fn copy(&self, alloc: Global) -> Result<NamedCert, NoMemory>
        ensures { IfOk result (λ c. c ≡ self.now) }
    {
        Ok(NamedCert {
            name: self.name.copy(alloc)?,
            cert: self.cert.copy(alloc)?,
        })
    }
}
