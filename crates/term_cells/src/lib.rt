//! Terms in one vector of cells, whose room is taken once.
#![tactic(auto)]

mod arity;
mod before;
mod cell;
mod cells;
mod count;
mod head;
mod kind;
mod laws;
mod load;
mod making;
mod marks;
mod reading;
mod same;

pub use before::Scratch;
pub use cell::Cell;
pub use cells::Cells;
pub use laws::{
    leaves_open, node_stands_next, one_opens, parts_last, parts_open, quotient_stands,
    standing_lasts, standing_needs, standing_opens, standing_tells, stands_below_next, two_opens,
};
