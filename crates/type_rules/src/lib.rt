//! The rules of types and modes for what a component declares: its names, facilities, representation, headings and variables.
#![tactic(auto)]

mod concepts;
mod declarations;
mod error;
mod headings;
mod least;
mod names;
mod origin;

pub use concepts::{
    asked_of, concept_headings, concept_in, declarations_of, enhancement_headings, enhancement_in,
    own_concept,
};
pub use declarations::{note_declarations, scope_of};
pub use error::ModeError;
pub use headings::{heading_named, is_evaluates, is_kept, is_main};
pub use least::{Breach, Least};
pub use origin::{Origin, Scope, differ, is_known_scalar, is_known_stream, is_no_scalar};
