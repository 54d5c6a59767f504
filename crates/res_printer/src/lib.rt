//! Canonical texts of components.
#![tactic(auto)]

mod component;
mod expression;
mod facility;
mod heading;
mod model;
mod print;
mod procedure;
mod statement;
mod text;

pub use component::print_component;
