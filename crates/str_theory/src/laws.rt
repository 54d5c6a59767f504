//! What the rules keep. The functions do nothing: their contracts are what is proved.

ghost use Rattle.str_theory.specs.Laws.{ChainsOpen, RulesKeepTruth};
ghost use Rattle.str_theory.specs.Steps.{RewritingsHold};

use math_terms::{equality_is_sameness, same_terms_are_equal, strings_have_kinds};
use num_theory::forms_keep_values;

/// A rule at any position keeps the truth of a formula, where its side conditions and the fact that it uses are true.
pub fn rules_keep_truth()
    ensures { RulesKeepTruth }
{
    strings_have_kinds();
    equality_is_sameness();
    same_terms_are_equal();
    forms_keep_values();
}

/// A sequent holds where those of a rewriting do.
pub fn rewritings_hold()
    ensures { RewritingsHold }
{
    rules_keep_truth();
}

/// What the parts of a term's chain are.
#[tactic(auto, using(crate::proofs::ChainValues::chains_open))]
pub fn chains_open()
    ensures { ChainsOpen }
{}
