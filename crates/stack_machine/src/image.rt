//! Images: types, procedures and instructions.

use math_terms::Name;
use source_meaning::{Scalar, Spot, TypeForm};
use sqlite_items::Items;

/// An instruction. Addresses and numbers of types count from 0.
#[derive(Clone, Copy, Debug, PartialEq, Eq)]
pub enum Instr {
    Push(Scalar),
    Load(Spot),
    Store(Spot),
    Add,
    Sub,
    Eq,
    Less,
    LessEq,
    Not,
    And,
    Or,
    Jump(u32),
    JumpFalse(u32),
    Init(Spot, u32),
    Return,
    ReadIn(Spot),
    Remaining,
    WriteOut,
}

/// What a local holds; a hole is a local that is not initialized.
#[derive(Clone, Copy, Debug, PartialEq, Eq)]
pub enum Cell {
    Int(i64),
    Bool(bool),
    Hole,
}

/// A procedure: its name, the address of its first instruction, for each parameter that is no stream whether it is given,
/// whether it has a result, and the number of its locals.
#[derive(Debug, Drop)]
pub struct ProcInfo {
    pub name: Name,
    pub start: u32,
    pub given: Items<bool>,
    pub result: bool,
    pub locals: u32,
}

/// A program of the machine.
#[derive(Debug, Drop)]
pub struct Image {
    pub types: Items<TypeForm>,
    pub procs: Items<ProcInfo>,
    pub code: Items<Instr>,
    pub main: u32,
}

/// Why a run stopped: no frame is left, the steps are spent, the sink failed, or memory ran out.
#[derive(Clone, Copy, Debug, PartialEq, Eq)]
pub enum Stop {
    Halted,
    StepsSpent,
    SinkFault,
    NoMemory,
}
