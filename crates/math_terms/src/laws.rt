//! Laws of the definitions. The functions do nothing: their contracts are what is proved.

ghost use Rattle.math_terms.specs.Laws.{AllMayBeAsked, FillingKeepsKinds, FillingKeepsTruth, FillingKeepsValues, SubstitutionKeepsValues, SubstitutionKeepsKinds, EqualityIsSameness, SameTermsAreEqual, ValuesHaveKinds, StringsHaveKinds, SortsHaveKinds, SortedAreWell};

/// A substituted term has the value of the term where the variable has the value of what is put for it.
pub fn substitution_keeps_values()
    ensures { SubstitutionKeepsValues }
{}

/// Values are equal exactly where they are the same.
#[tactic(auto, using(crate::proofs::Sameness::same_decides))]
pub fn equality_is_sameness()
    ensures { EqualityIsSameness }
{}

/// Terms are equal exactly where they are the same, node by node.
#[tactic(auto, using(crate::proofs::SameTerms::same_term_decides))]
pub fn same_terms_are_equal()
    ensures { SameTermsAreEqual }
{}

/// Values are of the kinds of their terms.
pub fn values_have_kinds()
    ensures { ValuesHaveKinds }
{}

/// Terms that have sorts are of the kinds of these.
pub fn sorts_have_kinds()
    ensures { SortsHaveKinds }
{}

/// Terms of the kind of strings have strings as values.
pub fn strings_have_kinds()
    ensures { StringsHaveKinds }
{}

/// Formulas that have the sort of truth values are well-valued.
pub fn sorted_are_well()
    ensures { SortedAreWell }
{}

/// Substitution for a variable of the same value keeps terms well-valued.
pub fn substitution_keeps_kinds()
    ensures { SubstitutionKeepsKinds }
{}

/// A filled term has the value of the term where the variables and type parameters mean what is put for them.
pub fn filling_keeps_values()
    ensures { FillingKeepsValues }
{}

/// A filled formula is true where the formula is under an interpretation that makes of the type parameters what is put for
/// them.
pub fn filling_keeps_truth()
    ensures { FillingKeepsTruth }
{}

/// Filling keeps terms well-valued, and their values.
pub fn filling_keeps_kinds()
    ensures { FillingKeepsKinds }
{}

/// Where each value passes, well-valued terms ask only of values that pass.
pub fn all_may_be_asked()
    ensures { AllMayBeAsked }
{}
