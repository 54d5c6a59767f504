//! A linked program: procedures with places, types and operations as numbers, each counted from 0.

use math_terms::Name;
use sqlite_items::{Boxed, Items};

/// A number of 64 signed bits, or a truth value.
#[derive(Clone, Copy, Debug, PartialEq, Eq)]
pub enum Scalar {
    Int(i64),
    Bool(bool),
}

/// A local variable, or a field of one.
#[derive(Clone, Copy, Debug, PartialEq, Eq)]
pub enum Spot {
    Local(u32),
    Field(u32, u32),
}

/// The form of a type: for an array its length and entry type, for a record its instance and field types.
#[derive(Debug, Drop)]
pub enum TypeForm {
    Int,
    Bool,
    Array(u32, u32),
    Record(u32, Items<u32>),
}

/// What an instance has for a parameter of its concept: a type's number, or a number.
#[derive(Clone, Copy, Debug, PartialEq, Eq)]
pub enum Argument {
    OfType(u32),
    Number(i64),
}

/// An instance of a concept, with the concept's arguments in order. The first is the module of Main.
#[derive(Debug, Drop)]
pub struct Instance {
    pub path: Items<Name>,
    pub concept: Name,
    pub realization: Option<Name>,
    pub arguments: Items<Argument>,
}

/// The mode of a parameter.
#[derive(Clone, Copy, Debug, PartialEq, Eq)]
pub enum Mode {
    Alters,
    Clears,
    Evaluates,
    Preserves,
    Replaces,
    Restores,
    Updates,
}

/// A procedure. In `modes` and `params`, which has types, stream parameters are left out; `streams` has for each of them,
/// in order, its place among the heading's parameters, and whether it is an In_Stream. `locals` has the variables' types.
#[derive(Debug, Drop)]
pub struct Proc {
    pub instance: u32,
    pub operation: Name,
    pub modes: Items<Mode>,
    pub params: Items<u32>,
    pub streams: Items<(u32, bool)>,
    pub result: Option<u32>,
    pub locals: Items<u32>,
    pub body: Items<LStmt>,
}

/// A statement.
#[derive(Debug, Drop)]
pub enum LStmt {
    LSet(Spot, LExpr),
    LRead(Spot),
    LWrite(LExpr),
    LIf(LExpr, Items<LStmt>, Items<LStmt>),
}

/// An expression.
#[derive(Debug, Drop)]
pub enum LExpr {
    Const(Scalar),
    Get(Spot),
    Remaining,
    Not(Boxed<LExpr>),
    Op(BinOp, Boxed<LExpr>, Boxed<LExpr>),
}

/// An operator of two operands.
#[derive(Clone, Copy, Debug, PartialEq, Eq)]
pub enum BinOp {
    Add,
    Sub,
    Eq,
    NotEq,
    Less,
    LessEq,
    Greater,
    GreaterEq,
    And,
    Or,
}

/// A linked program.
#[derive(Debug, Drop)]
pub struct Linked {
    pub instances: Items<Instance>,
    pub types: Items<TypeForm>,
    pub procs: Items<Proc>,
    pub main: u32,
}
