//! The lines of reports: why a file or a component is refused.
#![tactic(auto)]

mod lines;
mod mistakes;

pub use lines::{kind_text, lex_line, not_built_line, syntax_line, unproved_line};
pub use mistakes::mistake_line;
