//! The formals that a component sees: those of the concept that it is of.

ghost use Rattle.std.specs.Prelude.{◌≡◌, ◌+◌, ◌++◌, ◌∷◌, [], IfOk};
ghost use Rattle.std.specs.Option.{option_copied};
ghost use Rattle.facility_bind.specs.Formals as spec;

use crate::numbers::sum;
use math_terms::{Name, NoMemory, Term};
use module_table::Table;
use res_ast::{Component, Concept, Enhancement, FacDecl, Formal};
use sqlite_items::Items;
use std::alloc::Global;
use type_inst::{FormalArg, TypeInst};

/// The concept of this name.
pub fn concept_in<'t>(table: &'t Table, name: &Name) -> Option<&'t Concept>
    ensures { option_copied result ≡ spec.concept_in table.now name.now }
{
    match table.find(name) {
        Some(Component::Concept(concept)) => Some(concept),
        _ => None,
    }
}

/// The enhancement of this name.
pub fn enhancement_in<'t>(table: &'t Table, name: &Name) -> Option<&'t Enhancement>
    ensures { option_copied result ≡ spec.enhancement_in table.now name.now }
{
    match table.find(name) {
        Some(Component::Enhancement(enhancement)) => Some(enhancement),
        _ => None,
    }
}

/// The concept that a component is of: itself, or the one that an enhancement or a realization names. A module is of none.
pub fn own_concept<'t>(table: &'t Table, component: &'t Component) -> Option<&'t Concept>
    ensures { option_copied result ≡ spec.own_concept table.now component.now }
{
    match component {
        Component::Concept(concept) => Some(concept),
        Component::Enhancement(enhancement) => concept_in(table, &enhancement.concept),
        Component::Realization(realization) => concept_in(table, &realization.concept),
        Component::Facility(_) => None,
    }
}

/// The declarations of facilities, in the order of the text.
pub fn declarations_of(component: &Component) -> &[FacDecl]
    ensures { result.now ≡ spec.declarations component.now }
{
    match component {
        Component::Realization(realization) => realization.facilities.as_slice(),
        Component::Facility(module) => module.facilities.as_slice(),
        _ => &[],
    }
}

/// The formals, as their own concept sees them: types as parameters from 0 on, Integers as variables from 1 on.
pub(crate) fn own_formals(
    alloc: Global,
    formals: &[Formal],
) -> Result<Items<(Name, FormalArg)>, NoMemory>
    ensures { IfOk result (λ fs. fs ≡ spec.own_formals formals.now) }
{
    let mut out = Items::new(alloc);
    let mut next_type = 0;
    let mut next_integer = 1;
    for formal in formals {
        let name = formal.name.copy(alloc)?;
        if formal.is_type {
            out.push((name, FormalArg::Type(TypeInst::Param(next_type))))?;
            next_type = sum(next_type, 1)?;
        } else {
            out.push((name, FormalArg::Number(Term::Var(next_integer))))?;
            next_integer = sum(next_integer, 1)?;
        }
    }
    Ok(out)
}
