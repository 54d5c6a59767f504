//! The rules of types and modes in the bodies of procedures, and all breaches of a component.
#![tactic(auto)]

mod arguments;
mod bodies;
mod body;
mod callee;
mod changes;
mod expressions;
mod places;
mod statements;

pub use bodies::check_modes;
pub use type_rules::ModeError;
