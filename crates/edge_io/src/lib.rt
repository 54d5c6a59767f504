//! The outside: sources, sinks and shelves of files, in memory and of the system.
#![tactic(auto)]

pub mod adapters;
mod calls;
pub mod calm;
pub mod laws;
mod left;
pub mod listed;
pub mod memory;
pub mod numbers;
pub mod pairs;
pub mod shelf;
pub mod sink;
pub mod source;
