//! The conditions of a module's Main, and its linked program.
#![tactic(auto)]

pub mod laws;
