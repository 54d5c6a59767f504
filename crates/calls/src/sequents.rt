//! The words that call something with a sequent, whose goal is the latest term and whose hypotheses are the others: `split`, `leaves`
//! and `prove` (`prove:count` says only the number of steps), and `check:NODES`, which takes the steps as a certificate and a desk of so many nodes.

use crate::board::Board;
use crate::saying::{say, say_lines, say_number, say_row_name, say_term, say_terms};
use crate::trouble::Trouble;
use crate::words::count;
use cert_check::{Desk, Verdict, check};
use cert_form::{Cert, Step};
use math_terms::{Line, RowName};
use sqlite_items::Items;
use std::alloc::Global;
use std::mem::replace;
use vc_prover::{ProveError, prove};
use vc_sequents::{Sequent, SplitError, leaves, split};

fn say_sequent(alloc: Global, said: &mut String, s: &Sequent) -> Result<(), Trouble> {
    say(said, "{")?;
    say_terms(alloc, said, s.hyps.as_slice())?;
    say(said, "|-")?;
    say_term(alloc, said, &s.goal)?;
    say(said, "}")
}

fn say_sequents(alloc: Global, said: &mut String, sequents: &[Sequent]) -> Result<(), Trouble> {
    for s in sequents {
        say_sequent(alloc, said, s)?;
    }
    Ok(())
}

fn say_split(alloc: Global, said: &mut String, s: &Sequent) -> Result<(), Trouble> {
    match split(alloc, s)? {
        Some(parts) => say_sequents(alloc, said, parts.as_slice()),
        None => say(said, "nothing"),
    }
}

fn say_leaves(alloc: Global, said: &mut String, s: &Sequent) -> Result<(), Trouble> {
    match leaves(alloc, s) {
        Ok(parts) => say_sequents(alloc, said, parts.as_slice()),
        Err(SplitError::TooManyCases) => say(said, "too many cases"),
        Err(SplitError::NoMemory) => Err(Trouble::NoMemory),
    }
}

fn say_row_names(said: &mut String, rows: &[RowName]) -> Result<(), Trouble> {
    for name in rows {
        say_row_name(said, *name)?;
    }
    Ok(())
}

fn say_linear_step(said: &mut String, rows: &[RowName], lines: &[Line]) -> Result<(), Trouble> {
    say(said, "linear [")?;
    say_row_names(said, rows)?;
    say(said, "] [")?;
    say_lines(said, lines)?;
    say(said, "]")
}

fn say_with_number(said: &mut String, word: &str, k: u32) -> Result<(), Trouble> {
    say(said, word)?;
    say_number(said, i64::from(k))
}

fn say_with_two(said: &mut String, word: &str, k: u32, l: u32) -> Result<(), Trouble> {
    say_with_number(said, word, k)?;
    say_number(said, i64::from(l))
}

fn say_step(said: &mut String, step: &Step) -> Result<(), Trouble> {
    match step {
        Step::Same => say(said, "same"),
        Step::Hyp(k) => say_with_number(said, "hyp", *k),
        Step::Absurd(k) => say_with_number(said, "absurd", *k),
        Step::Clash(k, l) => say_with_two(said, "clash", *k, *l),
        Step::Linear { rows, lines } => say_linear_step(said, rows.as_slice(), lines.as_slice()),
        Step::Split(k, n) => say_with_two(said, "split", *k, *n),
        Step::Subst(k) => say_with_number(said, "subst", *k),
        Step::Rewrite { rule, .. } => say_with_number(said, "rewrite", u32::from(*rule)),
    }
}

/// Steps, as certificates write them.
pub fn say_steps(said: &mut String, steps: &[Step]) -> Result<(), Trouble> {
    for step in steps {
        say_step(said, step)?;
    }
    Ok(())
}

// Steps, or only how many.
fn say_found(said: &mut String, steps: &[Step], whole: bool) -> Result<(), Trouble> {
    if whole {
        return say_steps(said, steps);
    }
    let count = steps.len();
    write!(said, " {count} steps")?;
    Ok(())
}

// The steps that the search finds, or only how many.
fn say_proof(alloc: Global, said: &mut String, s: &Sequent, whole: bool) -> Result<(), Trouble> {
    match prove(alloc, s) {
        Ok(found) => say_found(said, found.steps.as_slice(), whole),
        Err(ProveError::Open) => say(said, "open"),
        Err(ProveError::NoMemory) => Err(Trouble::NoMemory),
    }
}

fn say_verdict(said: &mut String, verdict: Verdict) -> Result<(), Trouble> {
    match verdict {
        Verdict::Legal => say(said, "legal"),
        Verdict::Illegal { step } => {
            say(said, "illegal at")?;
            say_number(said, i64::from(step))
        }
        Verdict::DeskFull => say(said, "desk full"),
    }
}

fn say_check(
    alloc: Global,
    said: &mut String,
    nodes: u64,
    cert: &Cert,
    s: &Sequent,
) -> Result<(), Trouble> {
    if cert.steps.len() > 1_000_000 || s.hyps.len() > 1_000_000 {
        return Err(Trouble::NotUnderstood);
    }
    let mut desk = Desk::new(alloc, nodes)?;
    say_verdict(said, check(&mut desk, cert, s))
}

impl Board {
    /// The steps as a certificate. They are used.
    pub fn cert(&mut self) -> Cert {
        Cert {
            steps: replace(&mut self.steps, Items::new(self.alloc)),
        }
    }

    fn check(&mut self, said: &mut String, nodes: u64) -> Result<(), Trouble> {
        let s = self.sequent()?;
        let cert = self.cert();
        say_check(self.alloc, said, nodes, &cert, s.get())
    }

    fn say_split(&mut self, said: &mut String) -> Result<(), Trouble> {
        let s = self.sequent()?;
        say_split(self.alloc, said, s.get())
    }

    fn say_leaves(&mut self, said: &mut String) -> Result<(), Trouble> {
        let s = self.sequent()?;
        say_leaves(self.alloc, said, s.get())
    }

    fn say_proof(&mut self, said: &mut String, whole: bool) -> Result<(), Trouble> {
        let s = self.sequent()?;
        say_proof(self.alloc, said, s.get(), whole)
    }

    fn say_check(&mut self, said: &mut String, rest: &str) -> Result<(), Trouble> {
        let nodes = count(rest)?;
        self.check(said, u64::from(nodes))
    }

    /// Whether the word calls something with a sequent, which is done.
    pub fn calls_with_sequent(
        &mut self,
        said: &mut String,
        name: &str,
        rest: &str,
    ) -> Result<bool, Trouble> {
        let done = match name {
            "split" => self.say_split(said),
            "leaves" => self.say_leaves(said),
            "prove" => self.say_proof(said, rest != "count"),
            "check" => self.say_check(said, rest),
            _ => return Ok(false),
        };
        done?;
        Ok(true)
    }
}
