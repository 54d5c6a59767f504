//! Sequents, the conditions of components, and how sequents are split.
#![tactic(auto)]

mod cases;
mod formulas;
mod laws;
mod sequent;
mod splitting;

pub use laws::{one_leaf_list, splits_end, splits_keep_validity};
pub use math_terms::VcName;
pub use sequent::{Sequent, SplitError, Vc, VcKind};
pub use splitting::{leaves, split, split_formula};
