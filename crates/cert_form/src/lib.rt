//! Certificates: the steps by which a sequent is shown to be valid.
#![tactic(auto)]

mod cert;

pub use cert::{Cert, NamedCert, Step};
pub use math_terms::{Line, RowName, VcName};
