//! Terms seen by their heads.

ghost use Rattle.std.specs.Prelude.{◌≡◌};
ghost use Rattle.math_terms.specs.declared.term.Term.TheViews.{roll-Term};
ghost use Rattle.math_terms.specs.Views.{binary_node, node_of, unary_node};

use crate::term::Term;
use sqlite_items::Boxed;

/// What stands between two terms.
#[derive(Clone, Copy, Debug, PartialEq, Eq)]
pub enum Binary {
    Add,
    Sub,
    Mul,
    Div,
    Mod,
    Cat,
    Eq,
    Less,
    LessEq,
    And,
    Or,
    Implies,
}

/// What stands at one term.
#[derive(Clone, Copy, Debug, PartialEq, Eq)]
pub enum Unary {
    Len,
    Single,
    Reverse,
    Not,
}

/// A term's head with its parts.
#[derive(Clone, Copy)]
pub enum View<'a> {
    Num(i64),
    Truth(bool),
    MinInt,
    MaxInt,
    Var(u32),
    Empty,
    One(Unary, &'a Term),
    Two(Binary, &'a Term, &'a Term),
    Part(&'a Term, &'a Term, &'a Term),
    Tuple(&'a [Term]),
    Proj(u32, &'a Term),
    Initial(u32, &'a Term),
}

impl Term {
    /// The term by its head, so that a function of terms has a case for each number of parts. This takes no memory.
    pub fn view(&self) -> View<'_>
        ensures { self.now ≡ roll-Term (node_of result) }
    {
        match self {
            Term::Num(n) => View::Num(*n),
            Term::Truth(b) => View::Truth(*b),
            Term::MinInt => View::MinInt,
            Term::MaxInt => View::MaxInt,
            Term::Var(k) => View::Var(*k),
            Term::Add(a, b) => View::Two(Binary::Add, a.get(), b.get()),
            Term::Sub(a, b) => View::Two(Binary::Sub, a.get(), b.get()),
            Term::Mul(a, b) => View::Two(Binary::Mul, a.get(), b.get()),
            Term::Div(a, b) => View::Two(Binary::Div, a.get(), b.get()),
            Term::Mod(a, b) => View::Two(Binary::Mod, a.get(), b.get()),
            Term::Len(a) => View::One(Unary::Len, a.get()),
            Term::Empty => View::Empty,
            Term::Single(a) => View::One(Unary::Single, a.get()),
            Term::Cat(a, b) => View::Two(Binary::Cat, a.get(), b.get()),
            Term::Reverse(a) => View::One(Unary::Reverse, a.get()),
            Term::Part(i, j, a) => View::Part(i.get(), j.get(), a.get()),
            Term::Tuple(parts) => View::Tuple(parts.as_slice()),
            Term::Proj(k, a) => View::Proj(*k, a.get()),
            Term::Eq(a, b) => View::Two(Binary::Eq, a.get(), b.get()),
            Term::Less(a, b) => View::Two(Binary::Less, a.get(), b.get()),
            Term::LessEq(a, b) => View::Two(Binary::LessEq, a.get(), b.get()),
            Term::Not(a) => View::One(Unary::Not, a.get()),
            Term::And(a, b) => View::Two(Binary::And, a.get(), b.get()),
            Term::Or(a, b) => View::Two(Binary::Or, a.get(), b.get()),
            Term::Implies(a, b) => View::Two(Binary::Implies, a.get(), b.get()),
            Term::Initial(k, a) => View::Initial(*k, a.get()),
        }
    }
    /// The term with this over one part.
    pub fn one(op: Unary, a: Boxed<Term>) -> Term
        ensures { result ≡ roll-Term (unary_node op a) }
    {
        match op {
            Unary::Len => Term::Len(a),
            Unary::Single => Term::Single(a),
            Unary::Reverse => Term::Reverse(a),
            Unary::Not => Term::Not(a),
        }
    }

    /// The term with this between two parts.
    pub fn two(op: Binary, a: Boxed<Term>, b: Boxed<Term>) -> Term
        ensures { result ≡ roll-Term (binary_node op a b) }
    {
        match op {
            Binary::Add => Term::Add(a, b),
            Binary::Sub => Term::Sub(a, b),
            Binary::Mul => Term::Mul(a, b),
            Binary::Div => Term::Div(a, b),
            Binary::Mod => Term::Mod(a, b),
            Binary::Cat => Term::Cat(a, b),
            Binary::Eq => Term::Eq(a, b),
            Binary::Less => Term::Less(a, b),
            Binary::LessEq => Term::LessEq(a, b),
            Binary::And => Term::And(a, b),
            Binary::Or => Term::Or(a, b),
            Binary::Implies => Term::Implies(a, b),
        }
    }
}
