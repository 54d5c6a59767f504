//! Expressions: what the actions of the grammar build of them, and reading one.
#![tactic(auto)]

mod action;
mod operands;
mod reading;
mod syntax;
mod word;

pub use action::{ExprAction, expr_action};
pub use operands::{Operands, add_to, taken, taken_word};
pub use reading::{expr, refusal};
pub use syntax::{SyntaxError, SyntaxKind};
pub use word::{Word, name_of, negated, value_of};
