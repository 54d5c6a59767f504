//! The conditions of a module, made in order and proved.
#![tactic(auto)]

mod answers;
mod checking;
mod deciding;
mod formulas;
mod judge;
pub mod laws;
mod link;
mod names;
mod numbers;
mod path;
mod proving;
mod terms;
mod variables;
mod walk;

pub use answers::{conditions, first_unproved};
pub use link::link_main;
pub use proving::Unproved;
