//! The walks that put terms into a term: for one variable, or for all variables and type parameters at once.

ghost use Rattle.std.specs.Prelude.{◌≡◌, IfOk, map, slice_get};
ghost use Rattle.math_terms.specs.Terms.{put};
ghost use Rattle.math_terms.specs.Filling.{filled, initial_about, variable_in};
ghost use Rattle.math_terms.specs.working.Sources.{meant};

use crate::descriptor::Desc;
use crate::name::NoMemory;
use crate::subterms::numbered;
use crate::term::{Term, boxed};
use crate::together::both;
use crate::view::View;
use sqlite_items::{Boxed, Items};
use std::alloc::Global;

/// What is put for a variable: a term, or what a term is when it is filled. This one is made at each place where it is put,
/// so that no copy of it is made and let go.
#[derive(Clone, Copy)]
pub(crate) enum Source<'a> {
    Given(&'a Term),
    Filled(&'a Term, &'a [Term], &'a [Desc]),
}

/// The term with what the source means in place of each `Var(v)`, of whatever size.
#[cycle(put)]
pub(crate) fn put_into(alloc: Global, t: &Term, v: u32, by: Source<'_>) -> Result<Term, NoMemory>
    ensures { IfOk result (λ r. r ≡ put v (meant by.entry) t.now) }
{
    match t.view() {
        View::Num(n) => Ok(Term::Num(n)),
        View::Truth(b) => Ok(Term::Truth(b)),
        View::MinInt => Ok(Term::MinInt),
        View::MaxInt => Ok(Term::MaxInt),
        View::Var(k) => put_at(alloc, k, v, by),
        View::Empty => Ok(Term::Empty),
        View::One(op, a) => Ok(Term::one(op, put_into_boxed(alloc, a, v, by)?)),
        View::Two(op, a, b) => {
            let (a, b) = both(
                put_into_boxed(alloc, a, v, by),
                put_into_boxed(alloc, b, v, by),
            )?;
            Ok(Term::two(op, a, b))
        }
        View::Part(i, j, a) => {
            let rest = both(
                put_into_boxed(alloc, j, v, by),
                put_into_boxed(alloc, a, v, by),
            );
            let (i, (j, a)) = both(put_into_boxed(alloc, i, v, by), rest)?;
            Ok(Term::Part(i, j, a))
        }
        View::Tuple(parts) => Ok(Term::Tuple(put_into_all(alloc, parts, v, by)?)),
        View::Proj(k, a) => Ok(Term::Proj(k, put_into_boxed(alloc, a, v, by)?)),
        View::Initial(k, a) => Ok(Term::Initial(k, put_into_boxed(alloc, a, v, by)?)),
    }
}

#[cycle(put)]
fn put_into_boxed(alloc: Global, a: &Term, v: u32, by: Source<'_>) -> Result<Boxed<Term>, NoMemory>
    ensures { IfOk result (λ r. r ≡ put v (meant by.entry) a.now) }
{
    boxed(alloc, put_into(alloc, a, v, by)?)
}

#[cycle(put)]
fn put_into_all(
    alloc: Global,
    terms: &[Term],
    v: u32,
    by: Source<'_>,
) -> Result<Items<Term>, NoMemory>
    ensures { IfOk result (λ rs. rs ≡ map (put v (meant by.entry)) terms.now) }
{
    let mut out = Items::new(alloc);
    for t in terms {
        out.push(put_into(alloc, t, v, by)?)?;
    }
    Ok(out)
}

/// What stands for variable k where the source is put for variable v.
#[cycle(put)]
fn put_at(alloc: Global, k: u32, v: u32, by: Source<'_>) -> Result<Term, NoMemory>
    ensures { IfOk result (λ r. r ≡ put v (meant by.entry) (Term.Var k)) }
{
    if k == v {
        made(alloc, by)
    } else {
        Ok(Term::Var(k))
    }
}

/// What the source means.
#[cycle(put)]
fn made(alloc: Global, by: Source<'_>) -> Result<Term, NoMemory>
    ensures { IfOk result (λ r. r ≡ meant by.entry) }
{
    match by {
        Source::Given(t) => t.copy(alloc),
        Source::Filled(t, vars, descs) => fill_into(alloc, t, vars, descs),
    }
}

/// The filled term, of whatever size.
#[cycle(put)]
pub(crate) fn fill_into(
    alloc: Global,
    t: &Term,
    vars: &[Term],
    descs: &[Desc],
) -> Result<Term, NoMemory>
    ensures { IfOk result (λ r. r ≡ filled vars.now descs.now t.now) }
{
    match t.view() {
        View::Num(n) => Ok(Term::Num(n)),
        View::Truth(b) => Ok(Term::Truth(b)),
        View::MinInt => Ok(Term::MinInt),
        View::MaxInt => Ok(Term::MaxInt),
        View::Var(k) => variable(alloc, k, vars),
        View::Empty => Ok(Term::Empty),
        View::One(op, a) => Ok(Term::one(op, fill_boxed(alloc, a, vars, descs)?)),
        View::Two(op, a, b) => {
            let (a, b) = both(
                fill_boxed(alloc, a, vars, descs),
                fill_boxed(alloc, b, vars, descs),
            )?;
            Ok(Term::two(op, a, b))
        }
        View::Part(i, j, a) => {
            let rest = both(
                fill_boxed(alloc, j, vars, descs),
                fill_boxed(alloc, a, vars, descs),
            );
            let (i, (j, a)) = both(fill_boxed(alloc, i, vars, descs), rest)?;
            Ok(Term::Part(i, j, a))
        }
        View::Tuple(parts) => Ok(Term::Tuple(fill_all(alloc, parts, vars, descs)?)),
        View::Proj(k, a) => Ok(Term::Proj(k, fill_boxed(alloc, a, vars, descs)?)),
        View::Initial(k, a) => initial(alloc, k, a, vars, descs),
    }
}

#[cycle(put)]
fn fill_boxed(
    alloc: Global,
    a: &Term,
    vars: &[Term],
    descs: &[Desc],
) -> Result<Boxed<Term>, NoMemory>
    ensures { IfOk result (λ r. r ≡ filled vars.now descs.now a.now) }
{
    boxed(alloc, fill_into(alloc, a, vars, descs)?)
}

#[cycle(put)]
fn fill_all(
    alloc: Global,
    terms: &[Term],
    vars: &[Term],
    descs: &[Desc],
) -> Result<Items<Term>, NoMemory>
    ensures { IfOk result (λ rs. rs ≡ map (filled vars.now descs.now) terms.now) }
{
    let mut out = Items::new(alloc);
    for t in terms {
        out.push(fill_into(alloc, t, vars, descs)?)?;
    }
    Ok(out)
}

/// What says, when it is filled, that a term is initial for type formal k.
#[cycle(put)]
fn initial(alloc: Global, k: u32, a: &Term, vars: &[Term], descs: &[Desc]) -> Result<Term, NoMemory>
    ensures { IfOk result (λ r. r ≡ initial_about (slice_get descs.now k) k (filled vars.now descs.now a.now)) }
{
    match descs.get(k as usize) {
        Some(d) => put_into(alloc, &d.initial, 0, Source::Filled(a, vars, descs)),
        None => Ok(Term::Initial(k, fill_boxed(alloc, a, vars, descs)?)),
    }
}

/// What stands for variable k.
fn variable(alloc: Global, k: u32, vars: &[Term]) -> Result<Term, NoMemory>
    ensures { IfOk result (λ r. r ≡ variable_in vars.now k) }
{
    match numbered(k, vars) {
        Some(t) => t.copy(alloc),
        None => Ok(Term::Var(k)),
    }
}
