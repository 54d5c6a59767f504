//! Facts on atoms.

ghost use Rattle.std.specs.Prelude.{◌≡◌, ◌≤◌, IfOk, length, pos, [], ◌∷◌};
ghost use Rattle.math_terms.specs.declared.term.Term.TheViews.{out-Term};
ghost use Rattle.num_theory.specs.Table as spec;

use math_terms::{Binary, Items, NoMemory, Term, Unary, View, boxed};
use std::alloc::Global;

/// The facts on an atom: a length is not negative, and a quotient by a number above 0 is rounded down.
pub(crate) fn facts_of(alloc: Global, atom: &Term) -> Result<Items<Term>, NoMemory>
    ensures { IfOk result (λ facts. facts ≡ spec.facts_of atom.now) }
{
    match atom.view() {
        View::One(Unary::Len, _) => length_facts(alloc, atom),
        View::Two(Binary::Div, t, n) => facts_over(alloc, atom, t, n),
        _ => Ok(Items::new(alloc)),
    }
}

fn length_facts(alloc: Global, atom: &Term) -> Result<Items<Term>, NoMemory>
    ensures { IfOk result (λ facts. facts ≡ spec.less_eq (spec.num (pos 0)) atom.now ∷ []) }
{
    let mut facts = Items::new(alloc);
    facts.push(less_eq(alloc, Term::Num(0), atom.copy(alloc)?)?)?;
    Ok(facts)
}

/// The facts on a quotient `atom` of `t` by `n`.
fn facts_over(alloc: Global, atom: &Term, t: &Term, n: &Term) -> Result<Items<Term>, NoMemory>
    ensures { IfOk result (λ facts. facts ≡ spec.facts_over atom.now t.now (out-Term n.now)) }
{
    match n.view() {
        View::Num(number) => facts_by(alloc, atom, t, number),
        _ => Ok(Items::new(alloc)),
    }
}

fn facts_by(alloc: Global, atom: &Term, t: &Term, number: i64) -> Result<Items<Term>, NoMemory>
    ensures { IfOk result (λ facts. facts ≡ spec.facts_by atom.now t.now number) }
{
    let mut facts = Items::new(alloc);
    if number > 0 {
        facts.push(lower_fact(alloc, number, atom, t)?)?;
        facts.push(upper_fact(alloc, number, atom, t)?)?;
    }
    Ok(facts)
}

/// `n * q <= t`
fn lower_fact(alloc: Global, n: i64, q: &Term, t: &Term) -> Result<Term, NoMemory>
    ensures { IfOk result (λ fact. fact ≡ spec.less_eq (spec.multiple_of n q.now) t.now) }
{
    less_eq(alloc, multiple_of(alloc, n, q)?, t.copy(alloc)?)
}

/// `t <= n * q + n - 1`
fn upper_fact(alloc: Global, n: i64, q: &Term, t: &Term) -> Result<Term, NoMemory>
    ensures { IfOk result (λ fact. fact ≡ spec.less_eq t.now (spec.last_of n q.now)) }
{
    less_eq(alloc, t.copy(alloc)?, last_of(alloc, n, q)?)
}

fn less_eq(alloc: Global, a: Term, b: Term) -> Result<Term, NoMemory>
    ensures { IfOk result (λ fact. fact ≡ spec.less_eq a b) }
{
    Ok(Term::LessEq(boxed(alloc, a)?, boxed(alloc, b)?))
}

/// `n * q`
fn multiple_of(alloc: Global, n: i64, q: &Term) -> Result<Term, NoMemory>
    ensures { IfOk result (λ t. t ≡ spec.multiple_of n q.now) }
{
    let q = boxed(alloc, q.copy(alloc)?)?;
    Ok(Term::Mul(boxed(alloc, Term::Num(n))?, q))
}

/// `n * q + n - 1`
fn last_of(alloc: Global, n: i64, q: &Term) -> Result<Term, NoMemory>
    ensures { IfOk result (λ t. t ≡ spec.last_of n q.now) }
{
    let past = Term::Add(
        boxed(alloc, multiple_of(alloc, n, q)?)?,
        boxed(alloc, Term::Num(n))?,
    );
    Ok(Term::Sub(boxed(alloc, past)?, boxed(alloc, Term::Num(1))?))
}
