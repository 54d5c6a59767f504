//! The table of components: who is there, by name, and whom a component names.
#![tactic(auto)]

mod error;
mod slots;
mod table;
mod uses;

pub use error::NameError;
pub use table::{Table, is_array_template, name_of};
