//! Points of paths.

ghost use Rattle.std.specs.Prelude.{◌≡◌, ◌+◌, ◌++◌, [], ◌∷◌, IfOk, OnOk, pos, slice_index_or, slice_set, map};
ghost use Rattle.main_vcs.specs.Terms as spec;
ghost use Rattle.main_vcs.specs.Walk as walk;
ghost use Rattle.main_prover.specs.working.Points.{assigned, counted, known_more, point_of, sequent_at, split, written};

use crate::names::{fresh_name, variable_name};
use crate::numbers::next;
use crate::terms::{cat, equal, integer, lower_bound, single, stream, upper_bound};
use crate::variables::zeros;
use main_form::Module;
use math_terms::{Desc, Name, NoMemory, Term, both, copy_terms};
use sqlite_items::Items;
use std::alloc::Global;
use std::mem::replace;
use vc_sequents::Sequent;

/// The term of each variable, of the input and of the output.
#[derive(Debug, Drop)]
pub(crate) struct Values {
    pub(crate) terms: Items<Term>,
    pub(crate) input: Term,
    pub(crate) output: Term,
}

/// The hypotheses and the variables of the conditions.
#[derive(Debug, Drop)]
pub(crate) struct Known {
    pub(crate) hyps: Items<Term>,
    pub(crate) vars: Items<(Name, Desc)>,
}

/// How many fresh names each variable and the input have had.
#[derive(Debug, Drop)]
pub(crate) struct Counts {
    pub(crate) fresh: Items<u32>,
    pub(crate) reads: u32,
}

/// A point of a path: what is so far.
#[derive(Debug, Drop)]
pub(crate) struct Path {
    pub(crate) values: Values,
    pub(crate) known: Known,
    pub(crate) counts: Counts,
}

fn copy_var(alloc: Global, v: &(Name, Desc)) -> Result<(Name, Desc), NoMemory>
    ensures { IfOk result (λ u. u ≡ v.now) }
{
    let name = v.0.copy(alloc)?;
    let desc = v.1.copy(alloc)?;
    Ok((name, desc))
}

fn copy_vars(alloc: Global, vars: &[(Name, Desc)]) -> Result<Items<(Name, Desc)>, NoMemory>
    ensures { IfOk result (λ vs. vs ≡ vars.now) }
{
    let mut out = Items::new(alloc);
    for v in vars {
        out.push(copy_var(alloc, v)?)?;
    }
    Ok(out)
}

// Another item at a place, where there is one.
fn put<T: Drop>(items: &mut Items<T>, k: u32, item: T)
    ensures { items.new ≡ slice_set items.old k item }
{
    if (k as usize) < items.len() {
        items.set(k as usize, item);
    }
}

// The facts on the bounds of integers.
fn facts(alloc: Global) -> Result<Items<Term>, NoMemory>
    ensures { IfOk result (λ fs. fs ≡ spec.facts) }
{
    let mut facts = Items::new(alloc);
    facts.push(lower_bound(alloc, &Term::Num(-1000000000))?)?;
    facts.push(upper_bound(alloc, &Term::Num(1000000000))?)?;
    Ok(facts)
}

// The hypotheses at the beginning.
fn first_hyps(alloc: Global) -> Result<Items<Term>, NoMemory>
    ensures { IfOk result (λ fs. fs ≡ spec.facts ++ spec.equal (spec.var 2) spec.empty_string ∷ []) }
{
    let mut hyps = facts(alloc)?;
    hyps.push(equal(alloc, Term::Var(2), Term::Empty)?)?;
    Ok(hyps)
}

// The streams.
fn first_vars(alloc: Global, m: &Module) -> Result<Items<(Name, Desc)>, NoMemory>
    ensures { IfOk result (λ vs. vs ≡ (m.now.input, spec.stream) ∷ (m.now.output, spec.stream) ∷ []) }
{
    let mut vars = Items::new(alloc);
    vars.push(both(m.input.copy(alloc), stream(alloc))?)?;
    vars.push(both(m.output.copy(alloc), stream(alloc))?)?;
    Ok(vars)
}

fn first_terms(alloc: Global, names: &[Name]) -> Result<Items<Term>, NoMemory>
    ensures { IfOk result (λ ts. ts ≡ map (λ n. spec.num (pos 0)) names.now) }
{
    let mut terms = Items::new(alloc);
    for _name in names {
        terms.push(Term::Num(0))?;
    }
    Ok(terms)
}

impl Values {
    // All variables are 0.
    fn begin(alloc: Global, names: &[Name]) -> Result<Values, NoMemory>
        ensures { IfOk result (λ v. v ≡ record { terms = map (λ n. spec.num (pos 0)) names.now; input = spec.var 1; output = spec.var 2 }) }
    {
        let terms = first_terms(alloc, names)?;
        Ok(Values {
            terms,
            input: Term::Var(1),
            output: Term::Var(2),
        })
    }

    fn copy(&self, alloc: Global) -> Result<Values, NoMemory>
        ensures { IfOk result (λ v. v ≡ self.now) }
    {
        let terms = copy_terms(alloc, self.terms.as_slice())?;
        let (input, output) = both(self.input.copy(alloc), self.output.copy(alloc))?;
        Ok(Values {
            terms,
            input,
            output,
        })
    }
}

impl Known {
    fn begin(alloc: Global, m: &Module) -> Result<Known, NoMemory>
        ensures { IfOk result (λ k. k ≡ record { hyps = spec.facts ++ spec.equal (spec.var 2) spec.empty_string ∷ []; vars = (m.now.input, spec.stream) ∷ (m.now.output, spec.stream) ∷ [] }) }
    {
        let hyps = first_hyps(alloc)?;
        let vars = first_vars(alloc, m)?;
        Ok(Known { hyps, vars })
    }

    fn copy(&self, alloc: Global) -> Result<Known, NoMemory>
        ensures { IfOk result (λ k. k ≡ self.now) }
    {
        let hyps = copy_terms(alloc, self.hyps.as_slice())?;
        let vars = copy_vars(alloc, self.vars.as_slice())?;
        Ok(Known { hyps, vars })
    }
}

impl Counts {
    fn copy(&self, alloc: Global) -> Result<Counts, NoMemory>
        ensures { IfOk result (λ c. c ≡ self.now) }
    {
        Ok(Counts {
            fresh: Items::from_slice(alloc, self.fresh.as_slice())?,
            reads: self.reads,
        })
    }
}

impl Counts {
    // How many fresh names a variable has had.
    fn of(&self, k: u32) -> u32
        ensures { result ≡ slice_index_or self.now.fresh k 0 }
    {
        if (k as usize) < self.fresh.len() {
            self.fresh.as_slice()[k as usize]
        } else {
            0
        }
    }

    // One more fresh name for a variable and the input.
    fn add(&mut self, k: u32) -> Result<(), NoMemory>
        ensures { OnOk result (self.new ≡ record { fresh = slice_set self.old.fresh k (slice_index_or self.old.fresh k 0 + 1); reads = self.old.reads + 1 }) }
    {
        let fresh = next(self.of(k))?;
        let reads = next(self.reads)?;
        put(&mut self.fresh, k, fresh);
        self.reads = reads;
        Ok(())
    }
}

impl Path {
    /// Where Main begins.
    pub(crate) fn begin(alloc: Global, m: &Module) -> Result<Path, NoMemory>
        ensures { IfOk result (λ p. point_of p ≡ walk.begins m.now) }
    {
        let fresh = zeros(alloc, m.variables.as_slice())?;
        let values = Values::begin(alloc, m.variables.as_slice())?;
        let known = Known::begin(alloc, m)?;
        Ok(Path {
            values,
            known,
            counts: Counts { fresh, reads: 0 },
        })
    }

    /// A second point, equal to the first.
    pub(crate) fn copy(&self, alloc: Global) -> Result<Path, NoMemory>
        ensures { IfOk result (λ p. p ≡ self.now) }
    {
        let rest = both(self.known.copy(alloc), self.counts.copy(alloc));
        let (values, (known, counts)) = both(self.values.copy(alloc), rest)?;
        Ok(Path {
            values,
            known,
            counts,
        })
    }

    /// The sequent of a condition here.
    pub(crate) fn sequent(&self, alloc: Global, goal: Term) -> Result<Sequent, NoMemory>
        ensures { IfOk result (λ s. s ≡ sequent_at (point_of self.now) goal) }
    {
        let Known { hyps, vars } = self.known.copy(alloc)?;
        Ok(Sequent {
            vars,
            params: 0,
            hyps,
            goal,
        })
    }

    /// The term of a variable.
    pub(crate) fn term(&self, alloc: Global, k: u32) -> Result<Term, NoMemory>
        ensures { IfOk result (λ t. t ≡ slice_index_or self.now.values.terms k (spec.num (pos 0))) }
    {
        if (k as usize) < self.values.terms.len() {
            self.values.terms.as_slice()[k as usize].copy(alloc)
        } else {
            Ok(Term::Num(0))
        }
    }

    /// Gives a variable another term.
    pub(crate) fn assign(&mut self, k: u32, t: Term)
        ensures { point_of self.new ≡ assigned k t (point_of self.old) }
    {
        put(&mut self.values.terms, k, t);
    }

    /// Adds a number to the output.
    pub(crate) fn write(&mut self, alloc: Global, t: Term) -> Result<(), NoMemory>
        ensures { OnOk result (point_of self.new ≡ written t (point_of self.old)) }
    {
        let last = single(alloc, t)?;
        let front = self.values.output.copy(alloc)?;
        self.values.output = cat(alloc, front, last)?;
        Ok(())
    }

    /// Adds a hypothesis.
    pub(crate) fn suppose(&mut self, f: Term) -> Result<(), NoMemory>
        ensures { OnOk result (point_of self.new ≡ walk.with_hyps (f ∷ []) (point_of self.old)) }
    {
        self.known.hyps.push(f)?;
        Ok(())
    }

    /// Adds the bounds of a number to the hypotheses.
    pub(crate) fn suppose_bounds(&mut self, alloc: Global, t: &Term) -> Result<(), NoMemory>
        ensures { OnOk result (point_of self.new ≡ walk.with_hyps (spec.bounds t.now) (point_of self.old)) }
    {
        let lower = lower_bound(alloc, t)?;
        self.suppose(lower)?;
        let upper = upper_bound(alloc, t)?;
        self.suppose(upper)
    }

    // The number of the next variable.
    fn next_var(&self) -> Result<u32, NoMemory>
        ensures { IfOk result (λ n. n ≡ walk.next_var (point_of self.now)) }
    {
        match u32::try_from(self.known.vars.len()) {
            Ok(n) => next(n),
            Err(_) => Err(NoMemory),
        }
    }

    // The variable of a number that is read.
    fn number_var(&self, alloc: Global, m: &Module, k: u32) -> Result<(Name, Desc), NoMemory>
        ensures { IfOk result (λ v. v ≡ (walk.fresh_name (slice_index_or m.now.variables k []) (slice_index_or self.now.counts.fresh k 0), spec.integer)) }
    {
        let first = variable_name(alloc, m, k)?;
        let name = fresh_name(alloc, &first, self.counts.of(k))?;
        let desc = integer(alloc)?;
        Ok((name, desc))
    }

    // The variable of what is left of the input then.
    fn rest_var(&self, alloc: Global, m: &Module) -> Result<(Name, Desc), NoMemory>
        ensures { IfOk result (λ v. v ≡ (walk.fresh_name m.now.input (self.now.counts.reads + 1), spec.stream)) }
    {
        let reads = next(self.counts.reads)?;
        let name = fresh_name(alloc, &m.input, reads)?;
        let desc = stream(alloc)?;
        Ok((name, desc))
    }

    // Adds both.
    fn add_vars(&mut self, alloc: Global, m: &Module, k: u32) -> Result<(), NoMemory>
        ensures { OnOk result (point_of self.new ≡ known_more m.now.variables m.now.input k (point_of self.old)) }
    {
        let (number, rest) = both(self.number_var(alloc, m, k), self.rest_var(alloc, m))?;
        push_two(&mut self.known.vars, number, rest)
    }

    // Adds the facts on them, by the number of the first.
    fn split_input(&mut self, alloc: Global, number: u32) -> Result<(), NoMemory>
        ensures { OnOk result (point_of self.new ≡ split number (point_of self.old)) }
    {
        let variable = Term::Var(number);
        let supposed = self.suppose_bounds(alloc, &variable);
        drop(variable);
        supposed?;
        let rest = next(number)?;
        let first = single(alloc, Term::Var(number))?;
        let whole = cat(alloc, first, Term::Var(rest));
        let (input, whole) = both(self.values.input.copy(alloc), whole)?;
        let fact = equal(alloc, input, whole)?;
        self.suppose(fact)?;
        drop(replace(&mut self.values.input, Term::Var(rest)));
        Ok(())
    }

    // A variable has the number, which is counted.
    fn count_read(&mut self, k: u32, number: u32) -> Result<(), NoMemory>
        ensures { OnOk result (point_of self.new ≡ counted k number (point_of self.old)) }
    {
        self.counts.add(k)?;
        self.assign(k, Term::Var(number));
        Ok(())
    }

    /// Reads a number into a variable.
    pub(crate) fn read(&mut self, alloc: Global, m: &Module, k: u32) -> Result<(), NoMemory>
        ensures { OnOk result (point_of self.new ≡ walk.after_read m.now.variables m.now.input k (point_of self.old)) }
    {
        let number = self.next_var()?;
        self.add_vars(alloc, m, k)?;
        self.split_input(alloc, number)?;
        self.count_read(k, number)
    }
}

fn push_two<T: Drop>(items: &mut Items<T>, x: T, y: T) -> Result<(), NoMemory>
    ensures { OnOk result (items.new ≡ items.old ++ x ∷ y ∷ []) }
{
    items.push(x)?;
    items.push(y)?;
    Ok(())
}
