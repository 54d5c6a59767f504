//! Modules with one operation Main over integers. Each place is an offset in the file, from 0.

use math_terms::{Boxed, Items, Name};

/// An expression. Variables are counted from 0 in the order in which they are declared. A sign or a sum has its place.
#[derive(Debug, Drop)]
pub enum Expr {
    Number(i64),
    Variable(u32),
    Remaining,
    Minus(u32, Boxed<Expr>),
    Add(u32, Boxed<Expr>, Boxed<Expr>),
    Sub(u32, Boxed<Expr>, Boxed<Expr>),
}

/// What compares two numbers.
#[derive(Clone, Copy, Debug, PartialEq, Eq)]
pub enum Comparison {
    Equal,
    NotEqual,
    Less,
    LessEqual,
    Greater,
    GreaterEqual,
}

/// What decides between two paths.
#[derive(Debug, Drop)]
pub enum Guard {
    Compare(Comparison, Expr, Expr),
    Not(Boxed<Guard>),
    And(Boxed<Guard>, Boxed<Guard>),
    Or(Boxed<Guard>, Boxed<Guard>),
}

/// A statement. A Read has its place and its variable, an If the statements after `then` and those after `else`.
#[derive(Debug, Drop)]
pub enum Stmt {
    Read(u32, u32),
    Write(Expr),
    Assign(u32, Expr),
    If(Guard, Items<Stmt>, Items<Stmt>),
}

/// What Main claims of its output: nothing, by `true`, or that it is a chain of literals.
#[derive(Debug, Drop)]
pub enum Claim {
    True,
    Chain(Items<i64>),
}

/// A facility module whose only operation is Main, with the names of its streams and of its variables. `end_at` is the place
/// of Main's last `end`.
#[derive(Debug, Drop)]
pub struct Module {
    pub name: Name,
    pub input: Name,
    pub output: Name,
    pub claim: Claim,
    pub variables: Items<Name>,
    pub body: Items<Stmt>,
    pub end_at: u32,
}
