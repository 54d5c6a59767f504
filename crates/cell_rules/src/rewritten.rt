//! What a rewriting answers.

/// There is no room.
#[derive(Clone, Copy, Debug)]
pub struct Full;

/// The places of side conditions.
#[derive(Clone, Copy, Debug)]
pub enum Conditions {
    None,
    One(u32),
    Two(u32, u32),
    Three(u32, u32, u32),
}

/// What a rule gives: the place of the new term, and those of the side conditions.
#[derive(Clone, Copy, Debug)]
pub struct Rewritten {
    pub place: u32,
    pub conditions: Conditions,
}
