//! Rewriting rules on terms in cells. No memory is taken.
#![tactic(auto)]

mod chains;
mod children;
mod concatenations;
mod equations;
mod forms;
mod joins;
mod known;
mod lengths;
mod making;
mod names;
mod pairs;
mod parts;
mod reversals;
mod rewriting;
mod rewritten;
mod sketch;
mod spine;
mod tuples;

pub use rewriting::Rule;
pub use rewritten::{Conditions, Full, Rewritten};
