//! Laws of the definitions. The functions do nothing: their contracts are what is proved.

ghost use Rattle.vc_prover.specs.Laws.{FoundIsLegal, OneSearch};

use linear_prover::refutations_refute;
use num_theory::rows_fit;

/// A search finds one list of steps.
pub fn one_search()
    ensures { OneSearch }
{}

/// The steps that a search finds are a legal certificate.
pub fn found_is_legal()
    ensures { FoundIsLegal }
{
    refutations_refute();
    rows_fit();
}
