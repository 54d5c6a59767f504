//! What holds of every identifier.

ghost use Rattle.identifiers.specs.Laws.{BeginsNone, EndEndsAll, Ends, EndsAll, PlainAreAscii, Stands};

/// Where identifiers begin and end. The call does nothing.
pub fn identifier_laws()
    ensures stands { Stands }
    ensures ends { Ends }
    ensures begins_none { BeginsNone }
    ensures ends_all { EndsAll }
    ensures end_ends_all { EndEndsAll }
    ensures plain { PlainAreAscii }
{}
