//! Linear arithmetic over the integers: the linear forms of terms, and rows of numbers, which inequalities are added up and made
//! smaller by.
#![tactic(auto)]

mod facts;
mod first_rows;
mod forms;
mod gathering;
mod laws;
mod linear_form;
mod number;
mod row;
mod table;
mod texts;
mod vectors;

pub use first_rows::rows;
pub use laws::{
    forms_keep_values, linear_tests_are_sound, refuted_rows_clash, rows_fit, rows_follow,
};
pub use linear_form::linear;
pub use math_terms::RowName;
pub use number::Number;
pub use row::{Wide, combine, largest, reduce};
pub use table::{LinearForm, RowError, RowTable};
pub use texts::text_of;
