//! Laws of the definitions. The functions do nothing: their contracts are what is proved.

ghost use Rattle.term_cells.specs.Laws.{LeavesOpen, NodeStandsNext, OneOpens, PartsLast, PartsOpen, QuotientStands, StandingLasts, StandingNeeds, StandingOpens, StandingTells, StandsBelowNext, TwoOpens};

/// What stands at a place stays there when cells are added.
#[tactic(auto, using(crate::proofs::Lasting::stands_append))]
pub fn standing_lasts()
    ensures { StandingLasts }
{}

/// What stands at a place depends on the cells up to it alone.
#[tactic(auto, using(crate::proofs::Lasting::stands_inside, crate::proofs::Lasting::stands_take))]
pub fn standing_needs()
    ensures { StandingNeeds }
{}

/// Two terms that stand at one place are equal.
#[tactic(auto, using(crate::proofs::Telling::stands_tells))]
pub fn standing_tells()
    ensures { StandingTells }
{}

/// A node whose children stand is made by one more cell.
#[tactic(auto, using(crate::proofs::Building::node_stands_next))]
pub fn node_stands_next()
    ensures { NodeStandsNext }
{}

/// What stands somewhere can be the child of the next cell.
#[tactic(auto, using(crate::proofs::ByForm::below_next))]
pub fn stands_below_next()
    ensures { StandsBelowNext }
{}

/// A cell tells the form, the own number and the children of the term at its place.
#[tactic(auto, using(crate::proofs::ByForm::standing_opens))]
pub fn standing_opens()
    ensures { StandingOpens }
{}

/// The cell of a form with one child tells the term.
#[tactic(auto, using(crate::proofs::ByForm::one_opens))]
pub fn one_opens()
    ensures { OneOpens }
{}

/// The cell of a form with two children tells the term.
#[tactic(auto, using(crate::proofs::ByForm::two_opens))]
pub fn two_opens()
    ensures { TwoOpens }
{}

/// The cell of a number, a truth value or a variable tells the term.
#[tactic(auto, using(crate::proofs::ByForm::leaves_open))]
pub fn leaves_open()
    ensures { LeavesOpen }
{}

/// Beside each remainder stands the quotient.
pub fn quotient_stands()
    ensures { QuotientStands }
{}

/// A cell tells the list of parts at its place.
#[tactic(auto, using(crate::proofs::Listing::list_opens))]
pub fn parts_open()
    ensures { PartsOpen }
{}

/// A list of parts stays at its place when cells are added.
#[tactic(auto, using(crate::proofs::Listing::parts_append))]
pub fn parts_last()
    ensures { PartsLast }
{}
