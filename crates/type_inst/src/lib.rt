//! Types whose formals are bound, what their values are, and what assertions say of them as terms.
#![tactic(auto)]

mod assertion;
mod descriptor;
mod family;
mod formals;
mod model;
mod types;

pub use assertion::{Meaning, term_of};
pub use descriptor::desc_of;
pub use formals::{add_numbers, given_numbers, given_types, types_of};
pub use model::part_names;
pub use types::{BoundFamily, FormalArg, TypeInst};
