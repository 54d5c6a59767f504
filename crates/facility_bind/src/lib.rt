//! What a declaration of a facility binds: the types and operations that it gives, with its arguments put for the formals of
//! its concept.
#![tactic(auto)]

mod arguments;
mod arrays;
mod binding;
mod bound;
mod clauses;
mod error;
mod formals;
mod numbers;
mod scope;

pub use binding::bind;
pub use bound::{Bound, BoundHeading};
pub use error::ArgError;
pub use formals::{concept_in, declarations_of, enhancement_in, own_concept};
pub use scope::{Scope, TypeName};
