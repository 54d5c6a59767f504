//! Identifiers: a character of XID_Start or `_`, and then characters of XID_Continue, in UTF-8.
#![tactic(auto)]

mod characters;
mod laws;
mod names;

pub use laws::identifier_laws;
pub use names::{identifier_len, is_identifier};
