//! The stack machine, the code of a linked program, and that the code does what the program means.
#![tactic(auto)]

mod codegen;
mod image;
pub mod laws;
mod machine;
mod operands;
mod operators;
mod running;

pub use codegen::{CodeError, compile};
pub use image::{Cell, Image, Instr, ProcInfo, Stop};
pub use machine::run;
pub use source_meaning::{Scalar, Spot, TypeForm};
