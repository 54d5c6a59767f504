//! Components.

ghost use Rattle.std.specs.Prelude.{◌≡◌, IfOk, OnOk};
ghost use Rattle.res_printer.specs.Components as spec;

use crate::expression::write_expression;
use crate::heading::{write_clause, write_formals, write_uses};
use crate::model::write_model;
use crate::print::{print_each, write_closing};
use crate::procedure::write_representation;
use crate::statement::write_claim;
use crate::text::Text;
use math_terms::{Name, NoMemory};
use res_ast::{Component, Concept, Enhancement, Expr, FacilityModule, Family, Realization};
use std::alloc::Global;

fn write_opening(out: &mut Text, word: &[u8], name: &Name) -> Result<(), NoMemory>
    ensures { OnOk result (out.new ≡ spec.opening word.now name.now out.old) }
{
    out.says(name.bytes())?;
    out.says(word)
}

#[tactic(auto, unfolding(crate::specs::Components::initially))]
fn write_initial(out: &mut Text, initial: &Expr) -> Result<(), NoMemory>
    ensures { OnOk result (out.new ≡ spec.initially initial.now out.old) }
{
    write_claim(out, b"ensures", initial)?;
    out.says(b"initialization")
}

fn write_exemplar(out: &mut Text, name: &Name) -> Result<(), NoMemory>
    ensures { OnOk result (out.new ≡ spec.exemplar name.now out.old) }
{
    out.ends_line(b";")?;
    out.says(name.bytes())?;
    out.says(b"exemplar")
}

#[tactic(auto, unfolding(crate::specs::Components::is_modeled_by))]
fn write_is_modeled_by(out: &mut Text) -> Result<(), NoMemory>
    ensures { OnOk result (out.new ≡ spec.is_modeled_by out.old) }
{
    out.says(b"by")?;
    out.says(b"modeled")?;
    out.says(b"is")
}

#[tactic(auto, unfolding(crate::specs::Components::modeled))]
fn write_modeled(alloc: Global, out: &mut Text, family: &Family) -> Result<(), NoMemory>
    ensures { OnOk result (out.new ≡ spec.modeled family.now out.old) }
{
    out.ends_line(b";")?;
    write_model(alloc, out, family.model.parts.as_slice())?;
    write_is_modeled_by(out)?;
    out.says(family.name.bytes())?;
    out.says(b"Family")?;
    out.says(b"Type")
}

fn write_family_of(alloc: Global, out: &mut Text, family: &Family) -> Result<(), NoMemory>
    ensures { OnOk result (out.new ≡ spec.family_of family.now out.old) }
{
    write_initial(out, &family.initial)?;
    write_clause(out, b"constraint", &family.constraint)?;
    write_exemplar(out, &family.exemplar)?;
    write_modeled(alloc, out, family)
}

fn write_family(alloc: Global, out: &mut Text, family: &Option<Family>) -> Result<(), NoMemory>
    ensures { OnOk result (out.new ≡ spec.family family.now out.old) }
{
    match family {
        Some(family) => write_family_of(alloc, out, family),
        None => Ok(()),
    }
}

fn write_concept(alloc: Global, out: &mut Text, concept: &Concept) -> Result<(), NoMemory>
    ensures { OnOk result (out.new ≡ spec.concept concept.now out.old) }
{
    write_closing(out, &concept.name)?;
    print_each(out, concept.headings.as_slice())?;
    write_family(alloc, out, &concept.family)?;
    write_clause(out, b"requires", &concept.requires_clause)?;
    write_uses(out, concept.uses.as_slice())?;
    out.ends_line(b";")?;
    write_formals(out, concept.formals.as_slice())?;
    write_opening(out, b"Concept", &concept.name)
}

fn write_enhancement(out: &mut Text, enhancement: &Enhancement) -> Result<(), NoMemory>
    ensures { OnOk result (out.new ≡ spec.enhancement enhancement.now out.old) }
{
    write_closing(out, &enhancement.name)?;
    print_each(out, enhancement.headings.as_slice())?;
    write_uses(out, enhancement.uses.as_slice())?;
    out.ends_line(b";")?;
    out.says(enhancement.concept.bytes())?;
    out.says(b"for")?;
    write_opening(out, b"Enhancement", &enhancement.name)
}

// What a realization is for: a concept, or an enhancement of it.
fn write_purpose(out: &mut Text, enhancement: &Option<Name>, concept: &Name) -> Result<(), NoMemory>
    ensures { OnOk result (out.new ≡ spec.purpose enhancement.now concept.now out.old) }
{
    out.says(concept.bytes())?;
    match enhancement {
        Some(name) => {
            out.says(b"of")?;
            out.says(name.bytes())
        }
        None => Ok(()),
    }
}

fn write_realization(out: &mut Text, realization: &Realization) -> Result<(), NoMemory>
    ensures { OnOk result (out.new ≡ spec.realization realization.now out.old) }
{
    write_closing(out, &realization.name)?;
    print_each(out, realization.procs.as_slice())?;
    print_each(out, realization.locals.as_slice())?;
    write_representation(out, &realization.rep)?;
    print_each(out, realization.facilities.as_slice())?;
    write_uses(out, realization.uses.as_slice())?;
    out.ends_line(b";")?;
    write_purpose(out, &realization.enhancement, &realization.concept)?;
    out.says(b"for")?;
    write_opening(out, b"Realization", &realization.name)
}

fn write_facility(out: &mut Text, facility: &FacilityModule) -> Result<(), NoMemory>
    ensures { OnOk result (out.new ≡ spec.facility_module facility.now out.old) }
{
    write_closing(out, &facility.name)?;
    print_each(out, facility.operations.as_slice())?;
    print_each(out, facility.facilities.as_slice())?;
    write_uses(out, facility.uses.as_slice())?;
    out.ends_line(b";")?;
    write_opening(out, b"Facility", &facility.name)
}

fn write_component(alloc: Global, out: &mut Text, component: &Component) -> Result<(), NoMemory>
    ensures { OnOk result (out.new ≡ spec.piece_of component.now out.old) }
{
    match component {
        Component::Concept(concept) => write_concept(alloc, out, concept),
        Component::Enhancement(enhancement) => write_enhancement(out, enhancement),
        Component::Realization(realization) => write_realization(out, realization),
        Component::Facility(facility) => write_facility(out, facility),
    }
}

/// The canonical text of a component, which does not depend on any places in it.
pub fn print_component(alloc: Global, component: &Component) -> Result<Vec<u8>, NoMemory>
    ensures { IfOk result (λ text. text.items ≡ spec.canonical component.now) }
{
    let mut out = Text::new(alloc);
    write_component(alloc, &mut out, component)?;
    Ok(out.bytes())
}
