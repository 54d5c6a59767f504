//! Modules that are built so far, with one operation Main over integers, and how they come from the tree of a file.
#![tactic(auto)]

mod bodies;
mod claims;
mod expressions;
mod file;
mod heading;
mod module;
mod names;
mod numbers;
mod room;
mod statements;
mod truths;

pub use file::{Shape, built_is_formed, main_module};
pub use module::{Claim, Comparison, Expr, Guard, Module, Stmt};
