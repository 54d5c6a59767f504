//! What a check answers.

/// A certificate is legal; or the step of that number, from 0, is the first that is not allowed or is left over, or with the number of
/// steps one is missing; or the desk has too little room.
#[derive(Clone, Copy, Debug, PartialEq, Eq)]
pub enum Verdict {
    Legal,
    Illegal { step: u32 },
    DeskFull,
}
