//! Laws of the definitions. The functions do nothing: their contracts are what is proved.

ghost use Rattle.cert_check.specs.Laws.{LegalIsValid};

use math_terms::{equality_is_sameness, same_terms_are_equal};
use num_theory::linear_tests_are_sound;
use vc_sequents::splits_keep_validity;

/// A sequent with a legal certificate is valid.
pub fn legal_is_valid()
    ensures { LegalIsValid }
{
    equality_is_sameness();
    same_terms_are_equal();
    linear_tests_are_sound();
    splits_keep_validity();
}
