//! Sketches: what a rule gives, before it is put into cells. A number in a sketch is a place where a term stands.

/// A number of at most two nodes.
#[derive(Clone, Copy, Debug)]
pub(crate) enum Small {
    At(u32),
    Constant(i64),
    Length(u32),
}

/// A sum, a difference, or less.
#[derive(Clone, Copy, Debug)]
pub(crate) enum Count {
    Just(Small),
    Sum(Small, Small),
    Difference(Small, Small),
}

/// A string. A part has its two bounds before its string.
#[derive(Clone, Copy, Debug)]
pub(crate) enum Text {
    At(u32),
    Empty,
    Reversed(u32),
    Part(Count, Count, u32),
}

/// What stands in the place of a node.
#[derive(Clone, Copy, Debug)]
pub(crate) enum Written {
    Truth(bool),
    Count(Count),
    Text(Text),
    Reversed(Text),
    Cat(Text, Text),
    Cats(Text, Text, Text),
}

/// A side condition.
#[derive(Clone, Copy, Debug)]
pub(crate) struct AtMost {
    pub less: Count,
    pub more: Count,
}

/// Side conditions.
#[derive(Clone, Copy, Debug)]
pub(crate) enum Bounds {
    None,
    One(AtMost),
    Two(AtMost, AtMost),
    Three(AtMost, AtMost, AtMost),
}

/// What a rule gives: what is written, and under which side conditions.
#[derive(Clone, Copy, Debug)]
pub(crate) struct Sketch {
    pub written: Written,
    pub bounds: Bounds,
}
