//! Files: what the actions of the grammar build of them, and reading one.
#![tactic(auto)]

mod action;
mod components;
mod facilities;
mod headings;
mod models;
mod reading;
mod stacks;
mod state;
mod statements;

pub use action::{
    Action, ComponentAction, FacilityAction, HeadingAction, ModelAction, StmtAction, action_of,
};
pub use reading::{ParseError, one_spelling, parse};
pub use state::State;
