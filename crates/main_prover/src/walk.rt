//! The walk over statements, with all that comes after them.

ghost use Rattle.std.specs.Prelude.{◌≡◌, [], ◌∷◌, ◌++◌, Err, IfOk, MatchResult, OnOk, map};
ghost use Rattle.vc_sequents.specs.declared.sequent.VcKind.TheVariants as kinds;
ghost use Rattle.main_vcs.specs.Terms as spec;
ghost use Rattle.main_vcs.specs.Walk as walk;
ghost use Rattle.main_prover.specs.working.Judging.{Goes, Judges, Stops};
ghost use Rattle.main_prover.specs.working.Making.{condition_at, expr_made, guard_made, left_over};
ghost use Rattle.main_prover.specs.working.Points.{assigned, point_of, written};
ghost use Rattle.main_prover.specs.working.Remaining.{readable};

use crate::judge::{Judge, Stop};
use crate::path::Path;
use crate::terms::{below, claimed, len, negated};
use main_form::{Expr, Guard, Module, Stmt};
use math_terms::{NoMemory, Term};
use std::alloc::Global;
use vc_sequents::VcKind;

impl Judge {
    // The end of a path.
    fn end(&mut self, m: &Module, path: &Path) -> Result<(), Stop>
        ensures { Judges m.now (walk.conditions (left_over m.now [] (point_of path.now))) self.old result self.new }
    {
        let goal = claimed(self.alloc, &m.claim, &path.values.output)?;
        self.judge(m, VcKind::Ensures, m.end_at, path, goal)
    }

    // A read.
    fn read(&mut self, m: &Module, at: u32, k: u32, path: &mut Path) -> Result<(), Stop>
        ensures { let p = point_of path.old in let cs = condition_at kinds.Requires at p (readable p) ∷ [] in MatchResult result (λ _. (point_of path.new ≡ walk.after_read m.now.variables m.now.input k p) × Goes m.now cs self.old self.new) (Stops m.now cs self.old) }
    {
        let goal = readable(self.alloc, path)?;
        self.judge(m, VcKind::Requires, at, path, goal)?;
        Ok(path.read(self.alloc, m, k)?)
    }

    // A write.
    fn write(&mut self, m: &Module, e: &Expr, path: &mut Path) -> Result<(), Stop>
        ensures { let x = expr_made e.now (point_of path.old) in MatchResult result (λ _. (point_of path.new ≡ written x.term x.point) × Goes m.now x.conditions self.old self.new) (Stops m.now x.conditions self.old) }
    {
        let t = self.expr(m, e, path)?;
        Ok(path.write(self.alloc, t)?)
    }

    // An assignment.
    fn assign(&mut self, m: &Module, k: u32, e: &Expr, path: &mut Path) -> Result<(), Stop>
        ensures { let x = expr_made e.now (point_of path.old) in MatchResult result (λ _. (point_of path.new ≡ assigned k x.term x.point) × Goes m.now x.conditions self.old self.new) (Stops m.now x.conditions self.old) }
    {
        let t = self.expr(m, e, path)?;
        path.assign(k, t);
        Ok(())
    }

    // The two paths of a guard: the path goes on with it, and the other one with its negation.
    fn fork(&mut self, m: &Module, g: &Guard, path: &mut Path) -> Result<Path, Stop>
        ensures { let x = guard_made g.now (point_of path.old) in MatchResult result (λ q. (point_of path.new ≡ walk.with_hyps (x.term ∷ []) x.point) × (point_of q ≡ walk.with_hyps (spec.negated x.term ∷ []) x.point) × Goes m.now x.conditions self.old self.new) (Stops m.now x.conditions self.old) }
    {
        let t = self.guard(m, g, path)?;
        Ok(forked(self.alloc, t, path)?)
    }

    /// Walks over the statements that are left, the last list first.
    #[cycle(walk)]
    pub(crate) fn walk<'s>(
        &mut self,
        m: &Module,
        mut todo: Vec<&'s [Stmt]>,
        path: Path,
    ) -> Result<(), Stop>
        ensures { Judges m.now (walk.conditions (left_over m.now (map (λ xs. xs.now) todo.entry.items) (point_of path))) self.old result self.new }
    {
        match todo.pop() {
            None => self.end(m, &path),
            Some(xs) => match xs.split_first() {
                None => self.walk(m, todo, path),
                Some((x, rest)) => {
                    put_list(&mut todo, rest)?;
                    self.step(m, x, todo, path)
                }
            },
        }
    }

    // A statement, and then what is left.
    #[cycle(walk)]
    fn step<'s>(
        &mut self,
        m: &Module,
        x: &'s Stmt,
        todo: Vec<&'s [Stmt]>,
        mut path: Path,
    ) -> Result<(), Stop>
        ensures { Judges m.now (walk.conditions (walk.stmt m.now.variables m.now.input x.now (left_over m.now (map (λ xs. xs.now) todo.entry.items)) (point_of path))) self.old result self.new }
    {
        match x {
            Stmt::Read(at, k) => {
                let done = self.read(m, *at, *k, &mut path);
                self.go_on(m, done, todo, path)
            }
            Stmt::Write(e) => {
                let done = self.write(m, e, &mut path);
                self.go_on(m, done, todo, path)
            }
            Stmt::Assign(k, e) => {
                let done = self.assign(m, *k, e, &mut path);
                self.go_on(m, done, todo, path)
            }
            Stmt::If(g, a, b) => match self.fork(m, g, &mut path) {
                Ok(other) => self.two_paths(m, a.as_slice(), b.as_slice(), todo, path, other),
                Err(s) => Err(s),
            },
        }
    }

    // What is left after a statement that is done.
    #[cycle(walk)]
    fn go_on<'s>(
        &mut self,
        m: &Module,
        done: Result<(), Stop>,
        todo: Vec<&'s [Stmt]>,
        path: Path,
    ) -> Result<(), Stop>
        ensures { MatchResult done (λ _. Judges m.now (walk.conditions (left_over m.now (map (λ xs. xs.now) todo.entry.items) (point_of path))) self.old result self.new) (λ s. result ≡ Err s) }
    {
        match done {
            Ok(()) => self.walk(m, todo, path),
            Err(s) => Err(s),
        }
    }

    // One path with these statements first, and then the other one.
    #[cycle(walk)]
    fn two_paths<'s>(
        &mut self,
        m: &Module,
        a: &'s [Stmt],
        b: &'s [Stmt],
        todo: Vec<&'s [Stmt]>,
        first: Path,
        second: Path,
    ) -> Result<(), Stop>
        ensures { let left = map (λ xs. xs.now) todo.entry.items in Judges m.now (walk.conditions (left_over m.now (left ++ a.now ∷ []) (point_of first)) ++ walk.conditions (left_over m.now (left ++ b.now ∷ []) (point_of second))) self.old result self.new }
    {
        match self.one_path(m, a, todo.as_slice(), first) {
            Ok(()) => self.one_path(m, b, todo.as_slice(), second),
            Err(s) => Err(s),
        }
    }

    // These statements, and then what is left.
    #[cycle(walk)]
    fn one_path<'s>(
        &mut self,
        m: &Module,
        xs: &'s [Stmt],
        todo: &[&'s [Stmt]],
        path: Path,
    ) -> Result<(), Stop>
        ensures { Judges m.now (walk.conditions (left_over m.now (map (λ xs. xs.now) todo.entry.now ++ xs.now ∷ []) (point_of path))) self.old result self.new }
    {
        match with_list(self.alloc, todo, xs) {
            Ok(lists) => self.walk(m, lists, path),
            Err(_) => Err(Stop::NoMemory),
        }
    }

    /// Walks over a module.
    pub(crate) fn run(&mut self, m: &Module) -> Result<(), Stop>
        ensures { Judges m.now (walk.conditions_of m.now) self.old result self.new }
    {
        let path = Path::begin(self.alloc, m)?;
        self.one_path(m, m.body.as_slice(), &[], path)
    }
}

fn put_list<'s>(lists: &mut Vec<&'s [Stmt]>, last: &'s [Stmt]) -> Result<(), NoMemory>
    ensures { OnOk result (map (λ xs. xs.now) lists.new.items ≡ map (λ xs. xs.now) lists.old.items ++ last.now ∷ []) }
{
    match lists.push(last) {
        Ok(()) => Ok(()),
        Err(_) => Err(NoMemory),
    }
}

// Lists, with one more.
fn with_list<'s>(
    alloc: Global,
    lists: &[&'s [Stmt]],
    last: &'s [Stmt],
) -> Result<Vec<&'s [Stmt]>, NoMemory>
    ensures { IfOk result (λ v. map (λ xs. xs.now) v.items ≡ map (λ xs. xs.now) lists.now ++ last.now ∷ []) }
{
    let mut out = Vec::new(alloc);
    for list in lists {
        put_list(&mut out, *list)?;
    }
    put_list(&mut out, last)?;
    Ok(out)
}

// That there is a number to be read.
fn readable(alloc: Global, path: &Path) -> Result<Term, NoMemory>
    ensures { IfOk result (λ t. t ≡ readable (point_of path.now)) }
{
    let input = path.values.input.copy(alloc)?;
    let length = len(alloc, input)?;
    below(alloc, Term::Num(0), length)
}

// A second path with one more hypothesis.
fn second_path(alloc: Global, path: &Path, f: Term) -> Result<Path, NoMemory>
    ensures { IfOk result (λ q. point_of q ≡ walk.with_hyps (f ∷ []) (point_of path.now)) }
{
    let mut second = path.copy(alloc)?;
    second.suppose(f)?;
    Ok(second)
}

// A second path with the negation of a guard.
fn other_path(alloc: Global, path: &Path, t: &Term) -> Result<Path, NoMemory>
    ensures { IfOk result (λ q. point_of q ≡ walk.with_hyps (spec.negated t.now ∷ []) (point_of path.now)) }
{
    let t = t.copy(alloc)?;
    let t = negated(alloc, t)?;
    second_path(alloc, path, t)
}

// The path with a guard, and a second one with its negation.
fn forked(alloc: Global, t: Term, path: &mut Path) -> Result<Path, NoMemory>
    ensures { IfOk result (λ q. (point_of path.new ≡ walk.with_hyps (t ∷ []) (point_of path.old)) × (point_of q ≡ walk.with_hyps (spec.negated t ∷ []) (point_of path.old))) }
{
    let second = other_path(alloc, path, &t)?;
    path.suppose(t)?;
    Ok(second)
}
