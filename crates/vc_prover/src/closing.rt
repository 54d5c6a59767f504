//! How sequents are closed.

ghost use Rattle.std.specs.Prelude.{◌≡◌, ◌<◌, ◌^◌, IfOk, length};
ghost use Rattle.math_terms.specs.Heads.{same_term};
ghost use Rattle.vc_sequents.specs.Splitting.{sorts_of};
ghost use Rattle.cert_check.specs.Legality as legality;
ghost use Rattle.vc_prover.specs.Search.{clash_from, first_from};
ghost use Rattle.vc_prover.specs.Search as spec;

use crate::linear::by_linear;
use cert_form::Step;
use math_terms::{Formula, NoMemory, Sort, Term, same_terms_are_equal};
use std::alloc::Global;
use vc_sequents::Sequent;

/// How the sequent is closed, and none where it is not. The sorts are those of its variables.
pub(crate) fn closing(alloc: Global, s: &Sequent, sorts: &[Sort]) -> Result<Option<Step>, NoMemory>
    requires few { length s.now.hyps < 2 ^ 31 }
    requires sorts_of_vars { sorts.now ≡ sorts_of s.now }
    ensures { IfOk result (λ o. o ≡ spec.closing s.now) }
{
    match by_itself(s) {
        Some(step) => Ok(Some(step)),
        None => by_linear(alloc, s, sorts),
    }
}

/// How it is closed by its formulas as they stand.
fn by_itself(s: &Sequent) -> Option<Step>
    requires { length s.now.hyps < 2 ^ 31 }
    ensures { result
        ≡ spec.or_else (spec.by_same s.now) (spec.or_else (spec.by_hypothesis s.now) (spec.or_else (spec.by_absurd s.now) (spec.by_clash s.now))) }
{
    if let Some(step) = by_same(s) {
        return Some(step);
    }
    if let Some(step) = by_hypothesis(s) {
        return Some(step);
    }
    if let Some(step) = by_absurd(s) {
        return Some(step);
    }
    by_clash(s)
}

fn by_same(s: &Sequent) -> Option<Step>
    ensures { result ≡ spec.by_same s.now }
{
    if is_true(&s.goal) || is_identity(&s.goal) {
        Some(Step::Same)
    } else {
        None
    }
}

fn by_hypothesis(s: &Sequent) -> Option<Step>
    requires { length s.now.hyps < 2 ^ 31 }
    ensures { result ≡ spec.by_hypothesis s.now }
{
    match first_same(&s.goal, s.hyps.as_slice()) {
        Some(k) => Some(Step::Hyp(k)),
        None => None,
    }
}

fn by_absurd(s: &Sequent) -> Option<Step>
    requires { length s.now.hyps < 2 ^ 31 }
    ensures { result ≡ spec.by_absurd s.now }
{
    match first_false(s.hyps.as_slice()) {
        Some(k) => Some(Step::Absurd(k)),
        None => None,
    }
}

fn by_clash(s: &Sequent) -> Option<Step>
    requires { length s.now.hyps < 2 ^ 31 }
    ensures { result ≡ spec.by_clash s.now }
{
    let hyps = s.hyps.as_slice();
    for (at, g) in hyps.iter().enumerate() {
        if let Some(k) = first_negated(g, hyps) {
            return Some(Step::Clash(k, at as u32 + 1));
        }
    }
    None
}

fn is_true(f: &Formula) -> bool
    ensures { result ≡ legality.is_true f.now }
{
    match f {
        Term::Truth(b) => *b,
        _ => false,
    }
}

fn is_false(f: &Formula) -> bool
    ensures { result ≡ legality.is_false f.now }
{
    match f {
        Term::Truth(b) => !*b,
        _ => false,
    }
}

fn is_identity(f: &Formula) -> bool
    ensures { result ≡ legality.is_identity f.now }
{
    match f {
        Term::Eq(a, b) => is_same(a.get(), b.get()),
        _ => false,
    }
}

fn is_same(a: &Term, b: &Term) -> bool
    ensures { result ≡ same_term a.now b.now }
{
    same_terms_are_equal();
    a.same(b)
}

/// The number, from 1, of the first formula that is this one.
fn first_same(f: &Formula, all: &[Formula]) -> Option<u32>
    requires { length all.now < 2 ^ 31 }
    ensures { result ≡ first_from 1 (same_term f.now) all.now }
{
    for (at, g) in all.iter().enumerate() {
        if is_same(f, g) {
            return Some(at as u32 + 1);
        }
    }
    None
}

/// The number, from 1, of the first formula that is false.
fn first_false(all: &[Formula]) -> Option<u32>
    requires { length all.now < 2 ^ 31 }
    ensures { result ≡ first_from 1 legality.is_false all.now }
{
    for (at, g) in all.iter().enumerate() {
        if is_false(g) {
            return Some(at as u32 + 1);
        }
    }
    None
}

/// The number, from 1, of the first formula of which this one is the negation.
fn first_negated(g: &Formula, all: &[Formula]) -> Option<u32>
    requires { length all.now < 2 ^ 31 }
    ensures { result ≡ first_from 1 (λ f. legality.is_negation_of f g.now) all.now }
{
    for (at, f) in all.iter().enumerate() {
        if is_negation_of(f, g) {
            return Some(at as u32 + 1);
        }
    }
    None
}

fn is_negation_of(f: &Formula, g: &Formula) -> bool
    ensures { result ≡ legality.is_negation_of f.now g.now }
{
    match g {
        Term::Not(a) => is_same(f, a.get()),
        _ => false,
    }
}
