//! The sorts of assertions: whether each clause of a component has the sort that its place asks for.
#![tactic(auto)]

mod clause;
mod component;
mod error;
mod expression;
mod family;
mod heading;
mod known;
mod laws;
mod names;
mod procedure;
mod types;

pub use component::check_math;
pub use error::SortError;
pub use laws::accepted_have_sorts;
