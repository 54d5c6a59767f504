//! Linked programs, and what they mean.
#![tactic(auto)]

mod events;
mod interpreter;
mod linked;
mod operators;
mod running;
mod state;
mod trace;

pub use interpreter::meaning;
pub use linked::{
    Argument, BinOp, Instance, LExpr, LStmt, Linked, Mode, Proc, Scalar, Spot, TypeForm,
};
pub use trace::{CValue, End, Event, MeaningError, Trace, WrongKind};
