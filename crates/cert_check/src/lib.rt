//! Checking certificates.
#![tactic(auto)]

mod cases;
mod closing;
mod desk;
mod laws;
mod path;
mod places;
mod verdict;
mod walk;

pub use desk::{Desk, check};
pub use laws::legal_is_valid;
pub use verdict::Verdict;
