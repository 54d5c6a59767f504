//! Which condition is not proved.

use vc_sequents::VcKind;

/// The first condition of a module that does not count as proved: its number, from 1, its kind, and its place in the file.
#[derive(Clone, Copy, Debug, PartialEq, Eq)]
pub struct Unproved {
    pub number: u32,
    pub kind: VcKind,
    pub at: u32,
}
