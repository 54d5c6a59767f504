//! Refutation of linear inequalities by plain elimination of atoms.
#![tactic(auto)]

mod elimination;
mod laws;
mod multipliers;
mod rows_in_hand;

pub use elimination::{Multipliers, RefuteError, refute};
pub use laws::refutations_refute;
pub use math_terms::Line;
