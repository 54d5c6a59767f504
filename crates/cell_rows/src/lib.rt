//! The rows of sequents whose formulas stand in cells.
#![tactic(auto)]

mod atoms;
mod columns;
mod difference;
mod fact;
mod filling;
mod forms;
mod formula;
mod gathering;
mod lines;
mod naming;
mod order;
mod refuting;
mod room;
mod sequent;
mod sheet;

pub use difference::Short;
pub use room::Room;
pub use sequent::CellSequent;
