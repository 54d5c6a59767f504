//! The checks of a component before its conditions: the first mistake, in the order names, arguments, sorts, types and modes.
#![tactic(auto)]

mod checking;
mod mistake;

pub use checking::{mistake_alone, mistake_at, mistake_of};
pub use mistake::Mistake;
