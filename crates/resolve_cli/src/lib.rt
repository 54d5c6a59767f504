//! The top call: words, files and input in, a status and bytes out.
#![tactic(auto)]

pub mod answer_laws;
mod notes;
mod running;
mod status;
mod top;

pub use status::{LinkError, Status};
pub use top::resolve;
