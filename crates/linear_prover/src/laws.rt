//! Laws of the definitions. The functions do nothing: their contracts are what is proved.

ghost use Rattle.linear_prover.specs.Laws.{RefutationsRefute};

/// The lines that elimination finds refute the table.
pub fn refutations_refute()
    ensures { RefutationsRefute }
{}
