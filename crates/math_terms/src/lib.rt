//! Mathematical terms: what the assertions of components are made of, with their values.
#![tactic(auto)]

mod descriptor;
mod evaluation;
mod filling;
mod form;
mod insertion;
mod kinds;
mod laws;
mod meeting;
mod mentions;
mod name;
mod nodes;
mod operations;
mod position;
mod replacing;
mod sort_rules;
mod sorts;
mod substitution;
mod subterms;
mod term;
mod together;
mod value;
mod view;

pub use descriptor::{Desc, Shape, Sort, copy_descs, copy_sorts};
pub use evaluation::truth;
pub use filling::{fill, filled};
pub use form::Form;
pub use kinds::kind_of;
pub use laws::{
    all_may_be_asked, equality_is_sameness, filling_keeps_kinds, filling_keeps_truth,
    filling_keeps_values, same_terms_are_equal, sorted_are_well, sorts_have_kinds,
    strings_have_kinds, substitution_keeps_kinds, substitution_keeps_values, values_have_kinds,
};
pub use meeting::meet;
pub use mentions::others_do_not_matter;
pub use name::{Line, Name, NoMemory, RowName, TermError, VcName};
pub use position::Position;
pub use replacing::replaced;
pub use sort_rules::{
    sort_of_initial, sort_of_one, sort_of_part, sort_of_projection, sort_of_two, sort_of_variable,
};
pub use sorts::sort_of;
pub use sqlite_items::{Boxed, Items};
pub use substitution::substitute;
pub use term::{Formula, Term, boxed, copy_terms};
pub use together::{both, with};
pub use value::{Value, copy_values};
pub use view::{Binary, Unary, View};
