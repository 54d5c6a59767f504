//! Laws of the definitions. The functions do nothing: their contracts are what is proved.

ghost use Rattle.main_form.specs.Formed.{IsForm};
ghost use Rattle.main_form.specs.declared.module.Module.{Module};
ghost use Rattle.main_prover.specs.Proving.{NoneFirst, OneFirst, ProvedIsValid};
ghost use Rattle.main_vcs.specs.Linking.{main_of};
ghost use Rattle.main_vcs.specs.Soundness.{IsLinkOf};
ghost use Rattle.source_meaning.specs.Formed.{IsFormed};
ghost use Rattle.source_meaning.specs.declared.linked.Linked.{Linked};

use cert_check::legal_is_valid;
use math_terms::{equality_is_sameness, substitution_keeps_values};
use vc_prover::found_is_legal;

/// Where all conditions of a module count as proved, all are valid.
pub fn proved_is_valid()
    ensures { ProvedIsValid }
{
    found_is_legal();
    legal_is_valid();
    substitution_keeps_values();
    equality_is_sameness();
}

/// A module has at most one first unproved condition.
pub fn one_first()
    ensures { OneFirst }
{}

/// Where all conditions count as proved there is no first unproved one.
pub fn none_first()
    ensures { NoneFirst }
{}

/// The linked program of a module is formed.
pub fn modules_are_formed()
    ensures { (m : Module) (l : Linked) → IsForm m → IsLinkOf m l → IsFormed l (main_of m) }
{}
