//! The search for certificates.
#![tactic(auto)]

mod closing;
mod laws;
mod linear;
mod search;

pub use laws::{found_is_legal, one_search};
pub use search::{ProveError, prove};
