//! What the words of a case have made so far.

use crate::lists::{put, take_latest, unboxed};
use crate::trouble::Trouble;
use cert_form::Step;
use math_terms::{Desc, Name, NoMemory, Shape, Sort, Term, boxed, with};
use sqlite_items::{Boxed, Items};
use std::alloc::Global;
use std::mem::replace;
use vc_sequents::Sequent;

/// Terms, the latest last; the variables in order; rows, and the steps of a certificate.
#[derive(Drop)]
pub struct Board {
    pub alloc: Global,
    pub terms: Items<Boxed<Term>>,
    pub variables: Items<(Name, Desc)>,
    pub rows: Items<Items<i32>>,
    pub steps: Items<Step>,
}

/// A variable of a shape.
fn variable(alloc: Global, shape: Shape) -> Result<(Name, Desc), NoMemory> {
    let (name, shape) = with(Name::new(alloc, b"X"), shape)?;
    Ok((name, unbounded(shape)))
}

/// A shape, and no more is said of its values.
pub fn unbounded(shape: Shape) -> Desc {
    Desc {
        shape,
        constraint: Term::Truth(true),
        initial: Term::Truth(true),
    }
}

impl Board {
    /// Nothing is made yet.
    pub fn new(alloc: Global) -> Board {
        Board {
            alloc,
            terms: Items::new(alloc),
            variables: Items::new(alloc),
            rows: Items::new(alloc),
            steps: Items::new(alloc),
        }
    }

    /// A term is made.
    pub fn put(&mut self, t: Term) -> Result<(), Trouble> {
        let t = boxed(self.alloc, t);
        put(&mut self.terms, t)
    }

    /// The latest term, which is used.
    pub fn take(&mut self) -> Result<Boxed<Term>, Trouble> {
        self.terms.pop().ok_or(Trouble::NotUnderstood)
    }

    /// Another variable.
    pub fn declare(&mut self, shape: Shape) -> Result<(), Trouble> {
        let v = variable(self.alloc, shape);
        put(&mut self.variables, v)
    }

    /// The sorts of the variables.
    pub fn sorts(&self) -> Result<Items<Sort>, Trouble> {
        let mut sorts = Items::new(self.alloc);
        for v in self.variables.as_slice() {
            put(&mut sorts, v.1.sort(self.alloc))?;
        }
        Ok(sorts)
    }

    /// The latest terms, so many, in their order. They are used.
    pub fn latest_terms(&mut self, count: usize) -> Result<Items<Term>, Trouble> {
        let latest = take_latest(self.alloc, &mut self.terms, count)?;
        unboxed(self.alloc, latest)
    }

    /// All terms, in their order. They are used.
    pub fn formulas(&mut self) -> Result<Items<Term>, Trouble> {
        let count = self.terms.len();
        self.latest_terms(count)
    }

    /// The sequent whose goal is the latest term, and whose hypotheses are the others. All are used, with the variables.
    pub fn sequent(&mut self) -> Result<Boxed<Sequent>, Trouble> {
        let goal = self.take()?;
        let hyps = self.formulas()?;
        let vars = replace(&mut self.variables, Items::new(self.alloc));
        Ok(Boxed::new(self.alloc, sequent(vars, hyps, goal))?)
    }
}

fn sequent(vars: Items<(Name, Desc)>, hyps: Items<Term>, goal: Boxed<Term>) -> Sequent {
    Sequent {
        vars,
        params: 0,
        hyps,
        goal: goal.into_inner(),
    }
}
