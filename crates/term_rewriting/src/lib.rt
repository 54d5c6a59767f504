//! Rewriting rules on terms.
#![tactic(auto)]

mod node;
mod rewriting;
mod taking;

pub use rewriting::apply;
