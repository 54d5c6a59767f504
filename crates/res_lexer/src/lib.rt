//! The tokens of a component's text.
#![tactic(auto)]

mod laws;
mod lexer;
mod pieces;
mod reserved;
pub mod symbol;
mod token;

pub use laws::{one_reading, one_refusal, read_or_refused, reads_back, tokens_lie};
pub use lexer::tokens;
pub use reserved::is_reserved;
pub use token::{LexError, Token, TokenKind};
