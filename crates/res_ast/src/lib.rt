//! The tree of a component: what its text says, with the place of each part, and nothing that is found out about it.
#![tactic(auto)]

mod component;
mod copying;
mod expression;
mod facility;
mod heading;
mod model;
mod procedure;
mod statement;

pub use component::{Component, Concept, Enhancement, FacilityModule, Realization};
pub use copying::{TryCopy, copy_items, copy_option};
pub use expression::{BinOp, Expr, Form, copy_exprs};
pub use facility::{FacArg, FacDecl};
pub use heading::{Formal, Heading, Mode, PType, Param};
pub use model::{Family, MPart, MType};
pub use procedure::{LocalOp, Procedure, Rep};
pub use sqlite_items::{Boxed, Items};
pub use statement::{Place, Stmt, copy_stmts};
