//! Reading by a grammar that is given as data, of which one token decides each step.
//!
//! What a grammar says stands in specs/Grammar and specs/Texts; that one token decides is the test of specs/Predictive;
//! rules on more than classes are the watches of specs/Watch.
#![tactic(auto)]

mod form;
mod laws;
mod prefix;
mod reader;
mod stack;

pub use form::{Grammar, Move, Symbol};
pub use laws::{along, fair_watch, made_is_derived, one_derivation, one_way};
pub use prefix::{Prefix, derive_prefix};
pub use reader::{Answer, derive, symbols_of};
pub use stack::Stack;
