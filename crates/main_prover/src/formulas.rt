//! The walk over expressions and guards.

ghost use Rattle.std.specs.Prelude.{◌≡◌, [], ◌∷◌, Err, IfOk, MatchResult, Ok, pos};
ghost use Rattle.main_vcs.specs.Terms as spec;
ghost use Rattle.main_vcs.specs.Walk as walk;
ghost use Rattle.main_prover.specs.working.Judging.{AfterPart, HasJudgedSum, IsTerm, Makes};
ghost use Rattle.main_prover.specs.working.Making.{expr_made, guard_made};
ghost use Rattle.main_prover.specs.working.Points.{point_of};

use crate::judge::{Judge, Stop};
use crate::path::Path;
use crate::terms::{add, both, compared, either, in_bounds, len, negated, number, sub};
use main_form::{Comparison, Expr, Guard, Module};
use math_terms::{NoMemory, Term};
use std::alloc::Global;
use vc_sequents::VcKind;

// What remains of the input, with its bounds.
fn remaining(alloc: Global, path: &mut Path) -> Result<Term, NoMemory>
    ensures { IfOk result (λ t. let n = spec.len (point_of path.old).input in (t ≡ n) × (point_of path.new ≡ walk.with_hyps (spec.bounds n) (point_of path.old))) }
{
    let input = path.values.input.copy(alloc)?;
    let length = len(alloc, input)?;
    path.suppose_bounds(alloc, &length)?;
    Ok(length)
}

// What was made, where memory sufficed.
fn or_stop(r: Result<Term, NoMemory>) -> Result<Term, Stop>
    ensures { MatchResult r (λ t. result ≡ Ok t) (λ _. result ≡ Err Stop.NoMemory) }
{
    match r {
        Ok(t) => Ok(t),
        Err(_) => Err(Stop::NoMemory),
    }
}

// A comparison, where its right side was made.
fn comparison(alloc: Global, c: Comparison, a: Term, b: Result<Term, Stop>) -> Result<Term, Stop>
    ensures { AfterPart b (λ v. IsTerm (walk.compared c a v) result) result }
{
    match b {
        Ok(b) => or_stop(compared(alloc, c, a, b)),
        Err(s) => Err(s),
    }
}

// A negation, where its part was made.
fn negation(alloc: Global, a: Result<Term, Stop>) -> Result<Term, Stop>
    ensures { AfterPart a (λ v. IsTerm (spec.negated v) result) result }
{
    match a {
        Ok(a) => or_stop(negated(alloc, a)),
        Err(s) => Err(s),
    }
}

// A conjunction, where its right side was made.
fn conjunction(alloc: Global, a: Term, b: Result<Term, Stop>) -> Result<Term, Stop>
    ensures { AfterPart b (λ v. IsTerm (spec.both a v) result) result }
{
    match b {
        Ok(b) => or_stop(both(alloc, a, b)),
        Err(s) => Err(s),
    }
}

// A disjunction, where its right side was made.
fn disjunction(alloc: Global, a: Term, b: Result<Term, Stop>) -> Result<Term, Stop>
    ensures { AfterPart b (λ v. IsTerm (spec.either a v) result) result }
{
    match b {
        Ok(b) => or_stop(either(alloc, a, b)),
        Err(s) => Err(s),
    }
}

impl Judge {
    // A sum, where memory sufficed for it, has to stay in range.
    fn in_range(&mut self, m: &Module, at: u32, path: &Path, t: Term) -> Result<Term, Stop>
        ensures { HasJudgedSum m.now at (point_of path.now) t self.old result self.new }
    {
        let goal = in_bounds(self.alloc, &t)?;
        self.judge(m, VcKind::Range, at, path, goal)?;
        Ok(t)
    }

    // The negative, where the number was made.
    fn negative(
        &mut self,
        m: &Module,
        at: u32,
        path: &Path,
        a: Result<Term, Stop>,
    ) -> Result<Term, Stop>
        ensures { AfterPart a (λ v. HasJudgedSum m.now at (point_of path.now) (spec.sub (spec.num (pos 0)) v) self.old result self.new) result }
    {
        let a = a?;
        let t = sub(self.alloc, Term::Num(0), a)?;
        self.in_range(m, at, path, t)
    }

    // A sum, where its right side was made.
    fn sum(
        &mut self,
        m: &Module,
        at: u32,
        path: &Path,
        a: Term,
        b: Result<Term, Stop>,
    ) -> Result<Term, Stop>
        ensures { AfterPart b (λ v. HasJudgedSum m.now at (point_of path.now) (spec.add a v) self.old result self.new) result }
    {
        let b = b?;
        let t = add(self.alloc, a, b)?;
        self.in_range(m, at, path, t)
    }

    // A difference, where its right side was made.
    fn difference(
        &mut self,
        m: &Module,
        at: u32,
        path: &Path,
        a: Term,
        b: Result<Term, Stop>,
    ) -> Result<Term, Stop>
        ensures { AfterPart b (λ v. HasJudgedSum m.now at (point_of path.now) (spec.sub a v) self.old result self.new) result }
    {
        let b = b?;
        let t = sub(self.alloc, a, b)?;
        self.in_range(m, at, path, t)
    }

    // An expression.
    #[cycle(expression)]
    pub(crate) fn expr(&mut self, m: &Module, e: &Expr, path: &mut Path) -> Result<Term, Stop>
        ensures { Makes m.now (expr_made e.now (point_of path.old)) self.old result (point_of path.new) self.new }
    {
        match e {
            Expr::Number(n) => Ok(number(*n)),
            Expr::Variable(k) => or_stop(path.term(self.alloc, *k)),
            Expr::Remaining => or_stop(remaining(self.alloc, path)),
            Expr::Minus(at, a) => {
                let a = self.expr(m, a.get(), path);
                self.negative(m, *at, path, a)
            }
            Expr::Add(at, a, b) => {
                let a = self.expr(m, a.get(), path)?;
                let b = self.expr(m, b.get(), path);
                self.sum(m, *at, path, a, b)
            }
            Expr::Sub(at, a, b) => {
                let a = self.expr(m, a.get(), path)?;
                let b = self.expr(m, b.get(), path);
                self.difference(m, *at, path, a, b)
            }
        }
    }

    // A guard.
    #[cycle(guard)]
    pub(crate) fn guard(&mut self, m: &Module, g: &Guard, path: &mut Path) -> Result<Term, Stop>
        ensures { Makes m.now (guard_made g.now (point_of path.old)) self.old result (point_of path.new) self.new }
    {
        match g {
            Guard::Compare(c, a, b) => {
                let a = self.expr(m, a, path)?;
                let b = self.expr(m, b, path);
                comparison(self.alloc, *c, a, b)
            }
            Guard::Not(g) => {
                let g = self.guard(m, g.get(), path);
                negation(self.alloc, g)
            }
            Guard::And(g, h) => {
                let g = self.guard(m, g.get(), path)?;
                let h = self.guard(m, h.get(), path);
                conjunction(self.alloc, g, h)
            }
            Guard::Or(g, h) => {
                let g = self.guard(m, g.get(), path)?;
                let h = self.guard(m, h.get(), path);
                disjunction(self.alloc, g, h)
            }
        }
    }
}
