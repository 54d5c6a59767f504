//! The concept that a component is of, and what a declaration of a facility takes from its concept and its enhancements.

ghost use Rattle.std.specs.Prelude.{◌≡◌};
ghost use Rattle.std.specs.Option.{option_copied};
ghost use Rattle.type_rules.specs.Concepts as spec;

use math_terms::Name;
use module_table::Table;
use res_ast::{Component, Concept, Enhancement, FacDecl, Heading, Realization};

/// The concept of this name.
pub fn concept_in<'t>(table: &'t Table, name: &Name) -> Option<&'t Concept>
    ensures { option_copied result ≡ spec.concept_in table.now name.now }
{
    match table.find(name) {
        Some(Component::Concept(concept)) => Some(concept),
        _ => None,
    }
}

/// The enhancement of this name.
pub fn enhancement_in<'t>(table: &'t Table, name: &Name) -> Option<&'t Enhancement>
    ensures { option_copied result ≡ spec.enhancement_in table.now name.now }
{
    match table.find(name) {
        Some(Component::Enhancement(enhancement)) => Some(enhancement),
        _ => None,
    }
}

/// The concept that a component is of: itself, or the one that an enhancement or a realization names. A module is of none.
pub fn own_concept<'t>(table: &'t Table, component: &'t Component) -> Option<&'t Concept>
    ensures { option_copied result ≡ spec.own_concept table.now component.now }
{
    match component {
        Component::Concept(concept) => Some(concept),
        Component::Enhancement(enhancement) => concept_in(table, &enhancement.concept),
        Component::Realization(realization) => concept_in(table, &realization.concept),
        Component::Facility(_) => None,
    }
}

/// The declarations of facilities, in the order of the text.
pub fn declarations_of(component: &Component) -> &[FacDecl]
    ensures { result.now ≡ spec.declarations component.now }
{
    match component {
        Component::Realization(realization) => realization.facilities.as_slice(),
        Component::Facility(module) => module.facilities.as_slice(),
        _ => &[],
    }
}

/// The headings of the concept of this name.
pub fn concept_headings<'t>(table: &'t Table, name: &Name) -> &'t [Heading]
    ensures { result.now ≡ spec.concept_headings table.now name.now }
{
    match concept_in(table, name) {
        Some(concept) => concept.headings.as_slice(),
        None => &[],
    }
}

/// The headings of the enhancement of this name.
pub fn enhancement_headings<'t>(table: &'t Table, name: &Name) -> &'t [Heading]
    ensures { result.now ≡ spec.enhancement_headings table.now name.now }
{
    match enhancement_in(table, name) {
        Some(enhancement) => enhancement.headings.as_slice(),
        None => &[],
    }
}

/// The headings that a realization has procedures for.
pub fn asked_of<'t>(table: &'t Table, realization: &Realization) -> &'t [Heading]
    ensures { result.now ≡ spec.asked table.now realization.now }
{
    match &realization.enhancement {
        Some(enhancement) => enhancement_headings(table, enhancement),
        None => concept_headings(table, &realization.concept),
    }
}
