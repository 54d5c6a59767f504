//! Rewriting rules on strings, tuples and equations, with their side conditions.
#![tactic(auto)]

mod laws;

pub use laws::{chains_open, rewritings_hold, rules_keep_truth};
