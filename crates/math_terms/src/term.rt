//! Terms of the assertions, and formulas, which are terms of the sort of truth values.

ghost use Rattle.std.specs.Prelude.{◌≡◌, ◌↔◌, IfOk, IsTrue};

use crate::name::NoMemory;
use crate::together::both;
use crate::view::View;
use sqlite_items::{Boxed, Items};
use std::alloc::Global;

/// A term. `Var` counts the variables of a sequent from 1; in a descriptor `Var(0)` is the described value.
/// `Proj(k, t)` is part k of a tuple, and `Initial(k, x)` says that x is initial for type formal k, both counted from 0.
#[derive(Debug, Drop)]
pub enum Term {
    Num(i64),
    Truth(bool),
    MinInt,
    MaxInt,
    Var(u32),
    Add(Boxed<Term>, Boxed<Term>),
    Sub(Boxed<Term>, Boxed<Term>),
    Mul(Boxed<Term>, Boxed<Term>),
    Div(Boxed<Term>, Boxed<Term>),
    Mod(Boxed<Term>, Boxed<Term>),
    Len(Boxed<Term>),
    Empty,
    Single(Boxed<Term>),
    Cat(Boxed<Term>, Boxed<Term>),
    Reverse(Boxed<Term>),
    Part(Boxed<Term>, Boxed<Term>, Boxed<Term>),
    Tuple(Items<Term>),
    Proj(u32, Boxed<Term>),
    Eq(Boxed<Term>, Boxed<Term>),
    Less(Boxed<Term>, Boxed<Term>),
    LessEq(Boxed<Term>, Boxed<Term>),
    Not(Boxed<Term>),
    And(Boxed<Term>, Boxed<Term>),
    Or(Boxed<Term>, Boxed<Term>),
    Implies(Boxed<Term>, Boxed<Term>),
    Initial(u32, Boxed<Term>),
}

/// A term that says something.
pub type Formula = Term;

impl Term {
    /// A second term, equal to the first.
    #[cycle(copy)]
    pub fn copy(&self, alloc: Global) -> Result<Term, NoMemory>
        ensures { IfOk result (λ t. t ≡ self.now) }
    {
        match self.view() {
            View::Num(n) => Ok(Term::Num(n)),
            View::Truth(b) => Ok(Term::Truth(b)),
            View::MinInt => Ok(Term::MinInt),
            View::MaxInt => Ok(Term::MaxInt),
            View::Var(k) => Ok(Term::Var(k)),
            View::Empty => Ok(Term::Empty),
            View::One(op, a) => Ok(Term::one(op, copy_boxed(alloc, a)?)),
            View::Two(op, a, b) => {
                let (a, b) = both(copy_boxed(alloc, a), copy_boxed(alloc, b))?;
                Ok(Term::two(op, a, b))
            }
            View::Part(i, j, a) => {
                let rest = both(copy_boxed(alloc, j), copy_boxed(alloc, a));
                let (i, (j, a)) = both(copy_boxed(alloc, i), rest)?;
                Ok(Term::Part(i, j, a))
            }
            View::Tuple(parts) => Ok(Term::Tuple(copy_terms(alloc, parts)?)),
            View::Proj(k, a) => Ok(Term::Proj(k, copy_boxed(alloc, a)?)),
            View::Initial(k, a) => Ok(Term::Initial(k, copy_boxed(alloc, a)?)),
        }
    }

    /// Whether two terms are equal, node by node.
    #[cycle(same)]
    pub fn same(&self, other: &Term) -> bool
        ensures { IsTrue result ↔ (self.now ≡ other.now) }
    {
        match self {
            Term::Num(m) => match other {
                Term::Num(n) => m == n,
                _ => false,
            },
            Term::Truth(m) => match other {
                Term::Truth(n) => m == n,
                _ => false,
            },
            Term::MinInt => match other {
                Term::MinInt => true,
                _ => false,
            },
            Term::MaxInt => match other {
                Term::MaxInt => true,
                _ => false,
            },
            Term::Var(m) => match other {
                Term::Var(n) => m == n,
                _ => false,
            },
            Term::Add(a, b) => match other {
                Term::Add(c, d) => a.get().same(c.get()) && b.get().same(d.get()),
                _ => false,
            },
            Term::Sub(a, b) => match other {
                Term::Sub(c, d) => a.get().same(c.get()) && b.get().same(d.get()),
                _ => false,
            },
            Term::Mul(a, b) => match other {
                Term::Mul(c, d) => a.get().same(c.get()) && b.get().same(d.get()),
                _ => false,
            },
            Term::Div(a, b) => match other {
                Term::Div(c, d) => a.get().same(c.get()) && b.get().same(d.get()),
                _ => false,
            },
            Term::Mod(a, b) => match other {
                Term::Mod(c, d) => a.get().same(c.get()) && b.get().same(d.get()),
                _ => false,
            },
            Term::Len(a) => match other {
                Term::Len(c) => a.get().same(c.get()),
                _ => false,
            },
            Term::Empty => match other {
                Term::Empty => true,
                _ => false,
            },
            Term::Single(a) => match other {
                Term::Single(c) => a.get().same(c.get()),
                _ => false,
            },
            Term::Cat(a, b) => match other {
                Term::Cat(c, d) => a.get().same(c.get()) && b.get().same(d.get()),
                _ => false,
            },
            Term::Reverse(a) => match other {
                Term::Reverse(c) => a.get().same(c.get()),
                _ => false,
            },
            Term::Part(i, j, a) => match other {
                Term::Part(k, l, c) => i.get().same(k.get())
                    && j.get().same(l.get())
                    && a.get().same(c.get()),
                _ => false,
            },
            Term::Tuple(parts) => match other {
                Term::Tuple(others) => same_terms(parts.as_slice(), others.as_slice()),
                _ => false,
            },
            Term::Proj(m, a) => match other {
                Term::Proj(n, c) => m == n && a.get().same(c.get()),
                _ => false,
            },
            Term::Eq(a, b) => match other {
                Term::Eq(c, d) => a.get().same(c.get()) && b.get().same(d.get()),
                _ => false,
            },
            Term::Less(a, b) => match other {
                Term::Less(c, d) => a.get().same(c.get()) && b.get().same(d.get()),
                _ => false,
            },
            Term::LessEq(a, b) => match other {
                Term::LessEq(c, d) => a.get().same(c.get()) && b.get().same(d.get()),
                _ => false,
            },
            Term::Not(a) => match other {
                Term::Not(c) => a.get().same(c.get()),
                _ => false,
            },
            Term::And(a, b) => match other {
                Term::And(c, d) => a.get().same(c.get()) && b.get().same(d.get()),
                _ => false,
            },
            Term::Or(a, b) => match other {
                Term::Or(c, d) => a.get().same(c.get()) && b.get().same(d.get()),
                _ => false,
            },
            Term::Implies(a, b) => match other {
                Term::Implies(c, d) => a.get().same(c.get()) && b.get().same(d.get()),
                _ => false,
            },
            Term::Initial(m, a) => match other {
                Term::Initial(n, c) => m == n && a.get().same(c.get()),
                _ => false,
            },
        }
    }
}

/// The terms of a slice once more, in their order.
#[cycle(copy)]
pub fn copy_terms(alloc: Global, terms: &[Term]) -> Result<Items<Term>, NoMemory>
    ensures { IfOk result (λ ts. ts ≡ terms.now) }
{
    let mut out = Items::new(alloc);
    for t in terms {
        out.push(t.copy(alloc)?)?;
    }
    Ok(out)
}

/// A term on the heap.
pub fn boxed(alloc: Global, t: Term) -> Result<Boxed<Term>, NoMemory>
    ensures { IfOk result (λ b. b ≡ t) }
{
    Ok(Boxed::new(alloc, t)?)
}

#[cycle(copy)]
pub(crate) fn copy_boxed(alloc: Global, a: &Term) -> Result<Boxed<Term>, NoMemory>
    ensures { IfOk result (λ b. b ≡ a.now) }
{
    boxed(alloc, a.copy(alloc)?)
}

#[cycle(same)]
fn same_terms(a: &[Term], b: &[Term]) -> bool
    ensures { IsTrue result ↔ (a.now ≡ b.now) }
{
    if a.len() != b.len() {
        return false;
    }
    for (x, y) in a.iter().zip(b) {
        if !x.same(y) {
            return false;
        }
    }
    true
}
