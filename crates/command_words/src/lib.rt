//! The command line's words.
#![tactic(auto)]

mod words;

pub use words::{Command, read_command};
