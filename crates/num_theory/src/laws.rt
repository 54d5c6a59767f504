//! Laws of the definitions. The functions do nothing: their contracts are what is proved.

ghost use Rattle.num_theory.specs.Laws.{FormsKeepValues, LinearTestsAreSound, RefutedRowsClash, RowsFit, RowsFollow};

use math_terms::{equality_is_sameness, same_terms_are_equal};

/// A linear form has the number of its term.
pub fn forms_keep_values()
    ensures { FormsKeepValues }
{
    same_terms_are_equal();
}

/// The rows of formulas are true wherever the formulas are.
pub fn rows_follow()
    ensures { RowsFollow }
{
    same_terms_are_equal();
    equality_is_sameness();
}

/// Where formulas make few atoms and rows, these are a table that can be refuted.
pub fn rows_fit()
    ensures { RowsFit }
{}

/// Rows of one length that lines refute are not all true.
pub fn refuted_rows_clash()
    ensures { RefutedRowsClash }
{}

/// Where named rows of a sequent are refuted, its goal is true wherever its hypotheses are.
pub fn linear_tests_are_sound()
    ensures { LinearTestsAreSound }
{
    same_terms_are_equal();
    equality_is_sameness();
}
