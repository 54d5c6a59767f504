//! Laws of the definitions. The functions do nothing: their contracts are what is proved.

ghost use Rattle.vc_sequents.specs.Ending.{SplitsEnd};
ghost use Rattle.vc_sequents.specs.Laws.{OneLeafList, SplitsKeepValidity};

use math_terms::values_have_kinds;

/// A sequent is valid exactly where the sequents are that one of its formulas gives.
pub fn splits_keep_validity()
    ensures { SplitsKeepValidity }
{
    values_have_kinds();
}

/// A sequent has one list of leaves.
pub fn one_leaf_list()
    ensures { OneLeafList }
{}

/// Splitting comes to an end: each split leaves less work.
pub fn splits_end()
    ensures { SplitsEnd }
{}
