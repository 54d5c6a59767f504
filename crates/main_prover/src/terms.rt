//! The terms that conditions are made of.

ghost use Rattle.std.specs.Prelude.{◌≡◌, [], IfOk, pos};
ghost use Rattle.main_vcs.specs.Terms as spec;
ghost use Rattle.main_vcs.specs.Walk as walk;

use main_form::{Claim, Comparison};
use math_terms::{Boxed, Desc, NoMemory, Shape, Term, boxed};
use std::alloc::Global;

fn two(alloc: Global, a: Term, b: Term) -> Result<(Boxed<Term>, Boxed<Term>), NoMemory>
    ensures { IfOk result (λ p. (p.0 ≡ a) × (p.1 ≡ b)) }
{
    let a = boxed(alloc, a)?;
    let b = boxed(alloc, b)?;
    Ok((a, b))
}

/// The sum.
pub(crate) fn add(alloc: Global, a: Term, b: Term) -> Result<Term, NoMemory>
    ensures { IfOk result (λ t. t ≡ spec.add a b) }
{
    let (a, b) = two(alloc, a, b)?;
    Ok(Term::Add(a, b))
}

/// The difference.
pub(crate) fn sub(alloc: Global, a: Term, b: Term) -> Result<Term, NoMemory>
    ensures { IfOk result (λ t. t ≡ spec.sub a b) }
{
    let (a, b) = two(alloc, a, b)?;
    Ok(Term::Sub(a, b))
}

/// The one string and then the other.
pub(crate) fn cat(alloc: Global, a: Term, b: Term) -> Result<Term, NoMemory>
    ensures { IfOk result (λ t. t ≡ spec.cat a b) }
{
    let (a, b) = two(alloc, a, b)?;
    Ok(Term::Cat(a, b))
}

/// The string of one member.
pub(crate) fn single(alloc: Global, a: Term) -> Result<Term, NoMemory>
    ensures { IfOk result (λ t. t ≡ spec.single a) }
{
    let a = boxed(alloc, a)?;
    Ok(Term::Single(a))
}

/// The length.
pub(crate) fn len(alloc: Global, a: Term) -> Result<Term, NoMemory>
    ensures { IfOk result (λ t. t ≡ spec.len a) }
{
    let a = boxed(alloc, a)?;
    Ok(Term::Len(a))
}

/// That the two are equal.
pub(crate) fn equal(alloc: Global, a: Term, b: Term) -> Result<Term, NoMemory>
    ensures { IfOk result (λ t. t ≡ spec.equal a b) }
{
    let (a, b) = two(alloc, a, b)?;
    Ok(Term::Eq(a, b))
}

/// That the one is below the other.
pub(crate) fn below(alloc: Global, a: Term, b: Term) -> Result<Term, NoMemory>
    ensures { IfOk result (λ t. t ≡ spec.below a b) }
{
    let (a, b) = two(alloc, a, b)?;
    Ok(Term::Less(a, b))
}

/// That the one is at most the other.
pub(crate) fn at_most(alloc: Global, a: Term, b: Term) -> Result<Term, NoMemory>
    ensures { IfOk result (λ t. t ≡ spec.at_most a b) }
{
    let (a, b) = two(alloc, a, b)?;
    Ok(Term::LessEq(a, b))
}

/// That both hold.
pub(crate) fn both(alloc: Global, a: Term, b: Term) -> Result<Term, NoMemory>
    ensures { IfOk result (λ t. t ≡ spec.both a b) }
{
    let (a, b) = two(alloc, a, b)?;
    Ok(Term::And(a, b))
}

/// That one of them holds.
pub(crate) fn either(alloc: Global, a: Term, b: Term) -> Result<Term, NoMemory>
    ensures { IfOk result (λ t. t ≡ spec.either a b) }
{
    let (a, b) = two(alloc, a, b)?;
    Ok(Term::Or(a, b))
}

/// That it does not hold.
pub(crate) fn negated(alloc: Global, a: Term) -> Result<Term, NoMemory>
    ensures { IfOk result (λ t. t ≡ spec.negated a) }
{
    let a = boxed(alloc, a)?;
    Ok(Term::Not(a))
}

/// That a number is not below the least one.
pub(crate) fn lower_bound(alloc: Global, t: &Term) -> Result<Term, NoMemory>
    ensures { IfOk result (λ f. f ≡ spec.at_most spec.min_int t.now) }
{
    let t = t.copy(alloc)?;
    at_most(alloc, Term::MinInt, t)
}

/// That a number is not above the greatest one.
pub(crate) fn upper_bound(alloc: Global, t: &Term) -> Result<Term, NoMemory>
    ensures { IfOk result (λ f. f ≡ spec.at_most t.now spec.max_int) }
{
    let t = t.copy(alloc)?;
    at_most(alloc, t, Term::MaxInt)
}

/// That a number is within its bounds.
pub(crate) fn in_bounds(alloc: Global, t: &Term) -> Result<Term, NoMemory>
    ensures { IfOk result (λ f. f ≡ spec.in_bounds t.now) }
{
    let lower = lower_bound(alloc, t)?;
    let upper = upper_bound(alloc, t)?;
    both(alloc, lower, upper)
}

/// What a comparison says.
pub(crate) fn compared(alloc: Global, c: Comparison, a: Term, b: Term) -> Result<Term, NoMemory>
    ensures { IfOk result (λ t. t ≡ walk.compared c a b) }
{
    match c {
        Comparison::Equal => equal(alloc, a, b),
        Comparison::NotEqual => {
            let same = equal(alloc, a, b)?;
            negated(alloc, same)
        }
        Comparison::Less => below(alloc, a, b),
        Comparison::LessEqual => at_most(alloc, a, b),
        Comparison::Greater => below(alloc, b, a),
        Comparison::GreaterEqual => at_most(alloc, b, a),
    }
}

/// A number.
pub(crate) fn number(n: i64) -> Term
    ensures { result ≡ spec.num n }
{
    Term::Num(n)
}

fn single_number(alloc: Global, n: i64) -> Result<Term, NoMemory>
    ensures { IfOk result (λ t. t ≡ spec.single (spec.num n)) }
{
    single(alloc, Term::Num(n))
}

// A string with numbers after it.
fn extended(alloc: Global, front: Term, ns: &[i64]) -> Result<Term, NoMemory>
    ensures { IfOk result (λ t. t ≡ walk.extended front ns.now) }
{
    let mut all = front;
    for n in ns {
        let last = single_number(alloc, *n)?;
        all = cat(alloc, all, last)?;
    }
    Ok(all)
}

fn chain(alloc: Global, ns: &[i64]) -> Result<Term, NoMemory>
    ensures { IfOk result (λ t. t ≡ walk.chain ns.now) }
{
    match ns.split_first() {
        None => Ok(Term::Empty),
        Some((first, rest)) => {
            let front = single_number(alloc, *first)?;
            extended(alloc, front, rest)
        }
    }
}

/// What is claimed of an output.
pub(crate) fn claimed(alloc: Global, c: &Claim, output: &Term) -> Result<Term, NoMemory>
    ensures { IfOk result (λ t. t ≡ walk.claimed c.now output.now) }
{
    match c {
        Claim::True => Ok(Term::Truth(true)),
        Claim::Chain(ns) => {
            let chain = chain(alloc, ns.as_slice())?;
            let output = output.copy(alloc)?;
            equal(alloc, output, chain)
        }
    }
}

/// The descriptor of Integer.
pub(crate) fn integer(alloc: Global) -> Result<Desc, NoMemory>
    ensures { IfOk result (λ d. d ≡ spec.integer) }
{
    let constraint = in_bounds(alloc, &Term::Var(0))?;
    let initial = equal(alloc, Term::Var(0), Term::Num(0))?;
    Ok(Desc {
        shape: Shape::Z,
        constraint,
        initial,
    })
}

/// The descriptor of streams.
pub(crate) fn stream(alloc: Global) -> Result<Desc, NoMemory>
    ensures { IfOk result (λ d. d ≡ spec.stream) }
{
    let members = integer(alloc)?;
    let members = Boxed::new(alloc, members)?;
    let initial = equal(alloc, Term::Var(0), Term::Empty)?;
    Ok(Desc {
        shape: Shape::Str(members),
        constraint: Term::Truth(true),
        initial,
    })
}
