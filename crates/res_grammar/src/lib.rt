//! The language of component files: which tokens are a text, and at which token others are refused.
#![tactic(auto)]

mod class;
mod classes;
mod closing_name;
mod expressions;
mod grammars;
pub mod marks;
mod nesting;
mod own_name;
mod place;
mod reading;
mod tables;
mod watches;

pub use class::{class_of, class_of_word};
pub use expressions::{PrefixReading, read_expression};
pub use grammars::{grammar_of_expressions, grammar_of_texts};
pub use place::place_of;
pub use reading::{Reading, one_answer, one_derivation, read_text};
pub use watches::Fault;
