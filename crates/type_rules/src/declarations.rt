//! The breaches in what a component declares.

ghost use Rattle.std.specs.Prelude.{◌≡◌, [], is_none, take, OnOk};
ghost use Rattle.std.specs.List.{enumerate_from, flat_map, zip};
ghost use Rattle.std.specs.Option.{option_copied, option_map_or};
ghost use Rattle.type_rules.specs.Breaches.{least_of};
ghost use Rattle.type_rules.specs.Declarations as spec;
ghost use Rattle.type_rules.specs.Headings as headings;
ghost use Rattle.type_rules.specs.Origins.{scope, scope_in};
ghost use Rattle.type_rules.specs.working.Seen.{seen_scope};

use crate::concepts::{asked_of, concept_in, declarations_of, own_concept};
use crate::headings::{
    note_against, note_main, note_operations, note_procedure, note_typed, note_value_type,
};
use crate::least::{Breach, Least};
use crate::names::{note_declared_twice, note_fields_twice, note_given_twice, note_parts_twice};
use crate::origin::Scope;
use math_terms::{Name, NoMemory};
use module_table::{Table, is_array_template};
use res_ast::{
    Component, Concept, FacArg, FacDecl, Family, Formal, Heading, LocalOp, MPart, Procedure,
    Realization, Rep,
};
use std::alloc::Global;

// ---- families

fn note_known_part<'c>(scope: &Scope<'c>, at: u32, part: &'c MPart, least: &mut Least<'c>)
    ensures { least.new ≡ least_of least.old (spec.part_known (seen_scope scope.now) at part.now) }
{
    if let MPart::Param(name) = part {
        least.note_if(!scope.is_type_formal(name), Breach::OfType { at });
    }
}

fn note_part<'c>(
    alloc: Global,
    scope: &Scope<'c>,
    at: u32,
    part: &'c MPart,
    least: &mut Least<'c>,
) -> Result<(), NoMemory>
    ensures { OnOk result (least.new ≡ least_of least.old (spec.part_breaches (seen_scope scope.now) at part.now)) }
{
    note_known_part(scope, at, part, least);
    note_parts_twice(alloc, at, part, least)
}

fn note_family<'c>(
    alloc: Global,
    scope: &Scope<'c>,
    family: &'c Family,
    least: &mut Least<'c>,
) -> Result<(), NoMemory>
    ensures { OnOk result (least.new ≡ least_of least.old (spec.family (seen_scope scope.now) family.now)) }
{
    for part in family.model.parts.as_slice() {
        note_part(alloc, scope, family.at, part, least)?;
    }
    Ok(())
}

// ---- facilities

fn note_argument<'c>(
    scope: &Scope<'c>,
    hides: bool,
    is_type: bool,
    argument: &'c FacArg,
    least: &mut Least<'c>,
)
    ensures { least.new ≡ least_of least.old (spec.argument scope.now.table.now (seen_scope scope.now) hides (is_type, argument.now)) }
{
    if let FacArg::OfType(ptype) = argument {
        if is_type {
            note_value_type(scope, hides, ptype, least);
        }
    }
}

fn note_array_arguments<'c>(
    scope: &Scope<'c>,
    hides: bool,
    arguments: &'c [FacArg],
    least: &mut Least<'c>,
)
    ensures { least.new ≡ least_of least.old (spec.array_arguments scope.now.table.now (seen_scope scope.now) hides arguments.now) }
{
    if let Some(entry) = arguments.first() {
        note_argument(scope, hides, true, entry, least);
    }
}

fn note_arguments<'c>(
    scope: &Scope<'c>,
    hides: bool,
    formals: &[Formal],
    arguments: &'c [FacArg],
    least: &mut Least<'c>,
)
    ensures { least.new ≡ least_of least.old (flat_map (spec.argument_for scope.now.table.now (seen_scope scope.now) hides) (zip formals.now arguments.now)) }
{
    for k in 0..formals.len().min(arguments.len()) {
        note_argument(scope, hides, formals[k].is_type, &arguments[k], least);
    }
}

fn note_facility<'c>(
    alloc: Global,
    scope: &Scope<'c>,
    hides: bool,
    facility: &'c FacDecl,
    least: &mut Least<'c>,
) -> Result<(), NoMemory>
    ensures { OnOk result (least.new ≡ least_of least.old (spec.facility scope.now.table.now (seen_scope scope.now) hides facility.now)) }
{
    note_given_twice(alloc, scope.table, facility, least)?;
    let arguments = facility.args.as_slice();
    if is_array_template(&facility.concept) {
        note_array_arguments(scope, hides, arguments, least);
    } else if let Some(concept) = concept_in(scope.table, &facility.concept) {
        note_arguments(scope, hides, concept.formals.as_slice(), arguments, least);
    }
    Ok(())
}

fn note_declared<'c>(
    alloc: Global,
    table: &'c Table,
    concept: Option<&'c Concept>,
    hides: bool,
    declarations: &'c [FacDecl],
    least: &mut Least<'c>,
) -> Result<(), NoMemory>
    ensures { OnOk result (least.new ≡ least_of least.old (flat_map (λ d. spec.facility table.now (scope_in (option_copied concept.entry) (take d.0 declarations.now)) hides d.1) (enumerate_from 0 declarations.now))) }
{
    for index in 0..declarations.len() {
        let scope = Scope::behind(table, concept, &declarations[..index]);
        note_facility(alloc, &scope, hides, &declarations[index], least)?;
    }
    Ok(())
}

fn note_facilities<'c>(
    alloc: Global,
    table: &'c Table,
    component: &'c Component,
    hides: bool,
    least: &mut Least<'c>,
) -> Result<(), NoMemory>
    ensures { OnOk result (least.new ≡ least_of least.old (spec.facilities table.now component.now hides)) }
{
    note_declared(
        alloc,
        table,
        own_concept(table, component),
        hides,
        declarations_of(component),
        least,
    )
}

// ---- representations

// The family that a realization represents: that of its concept, and of an enhancement none.
fn family_of<'c>(table: &'c Table, own: &Realization) -> Option<&'c Family>
    ensures { option_copied result ≡ spec.family_of table.now own.now }
{
    if own.enhancement.is_some() {
        return None;
    }
    match concept_in(table, &own.concept) {
        Some(concept) => concept.family.as_ref(),
        None => None,
    }
}

fn stands_for(rep: &Rep, family: &Family) -> bool
    ensures { result ≡ spec.stands_for rep.now family.now }
{
    family.name.same(&rep.name) && family.exemplar.same(&rep.conc)
}

fn note_other_family<'c>(table: &'c Table, own: &Realization, rep: &'c Rep, least: &mut Least<'c>)
    ensures { least.new ≡ least_of least.old (spec.other_family table.now own.now rep.now) }
{
    let fits = match family_of(table, own) {
        Some(family) => stands_for(rep, family),
        None => false,
    };
    least.note_if(!fits, Breach::OfType { at: rep.at });
}

fn note_representation<'c>(
    alloc: Global,
    scope: &Scope<'c>,
    own: &'c Realization,
    least: &mut Least<'c>,
) -> Result<(), NoMemory>
    ensures { OnOk result (least.new ≡ least_of least.old (option_map_or (spec.representation scope.now.table.now (seen_scope scope.now) own.now) own.now.rep [])) }
{
    let Some(rep) = &own.rep else {
        return Ok(());
    };
    note_other_family(scope.table, own, rep, least);
    note_fields_twice(alloc, rep.fields.as_slice(), least)?;
    note_typed(
        scope,
        own.enhancement.is_none(),
        rep.fields.as_slice(),
        least,
    );
    Ok(())
}

// ---- what is missing

fn note_missing_family<'c>(table: &'c Table, own: &'c Realization, least: &mut Least<'c>)
    ensures { least.new ≡ least_of least.old (option_map_or (spec.missing_family own.now) (spec.family_of table.now own.now) []) }
{
    if let Some(family) = family_of(table, own) {
        let name = &family.name;
        least.note_if(
            own.rep.is_none(),
            Breach::Missing {
                at: own.end_at,
                name,
            },
        );
    }
}

fn has_procedure(own: &Realization, name: &Name) -> bool
    ensures { result ≡ spec.has_procedure own.now name.now }
{
    own.procs
        .as_slice()
        .iter()
        .any(|procedure| name.same(&procedure.heading.name))
}

fn note_missing_procedures<'c>(own: &'c Realization, asked: &'c [Heading], least: &mut Least<'c>)
    ensures { least.new ≡ least_of least.old (flat_map (spec.missing_procedure own.now) asked.now) }
{
    for heading in asked {
        let name = &heading.name;
        least.note_if(
            !has_procedure(own, name),
            Breach::Missing {
                at: own.end_at,
                name,
            },
        );
    }
}

fn note_missing<'c>(table: &'c Table, own: &'c Realization, least: &mut Least<'c>)
    ensures { least.new ≡ least_of least.old (spec.missing table.now own.now) }
{
    note_missing_family(table, own, least);
    note_missing_procedures(own, asked_of(table, own), least);
}

// ---- components

fn note_locals<'c>(
    alloc: Global,
    scope: &Scope<'c>,
    own: &'c Realization,
    locals: &'c [LocalOp],
    least: &mut Least<'c>,
) -> Result<(), NoMemory>
    ensures { OnOk result (least.new ≡ least_of least.old (flat_map (λ l. headings.procedure scope.now.table.now (seen_scope scope.now) (is_none own.now.enhancement) l.procedure) locals.now)) }
{
    for local in locals {
        note_procedure(
            alloc,
            scope,
            own.enhancement.is_none(),
            &local.procedure,
            least,
        )?;
    }
    Ok(())
}

fn note_procedures<'c>(
    alloc: Global,
    scope: &Scope<'c>,
    own: &'c Realization,
    procedures: &'c [Procedure],
    least: &mut Least<'c>,
) -> Result<(), NoMemory>
    ensures { OnOk result (least.new ≡ least_of least.old (flat_map (spec.asked_procedure scope.now.table.now (seen_scope scope.now) own.now) procedures.now)) }
{
    let asked = asked_of(scope.table, own);
    for procedure in procedures {
        note_procedure(alloc, scope, own.enhancement.is_none(), procedure, least)?;
        note_against(asked, &procedure.heading, least);
    }
    Ok(())
}

fn note_realization<'c>(
    alloc: Global,
    scope: &Scope<'c>,
    own: &'c Realization,
    least: &mut Least<'c>,
) -> Result<(), NoMemory>
    ensures { OnOk result (least.new ≡ least_of least.old (spec.realization scope.now.table.now (seen_scope scope.now) own.now)) }
{
    note_representation(alloc, scope, own, least)?;
    note_locals(alloc, scope, own, own.locals.as_slice(), least)?;
    note_procedures(alloc, scope, own, own.procs.as_slice(), least)?;
    note_missing(scope.table, own, least);
    Ok(())
}

fn note_module_operations<'c>(
    alloc: Global,
    scope: &Scope<'c>,
    operations: &'c [LocalOp],
    least: &mut Least<'c>,
) -> Result<(), NoMemory>
    ensures { OnOk result (least.new ≡ least_of least.old (flat_map (spec.module_operation scope.now.table.now (seen_scope scope.now)) operations.now)) }
{
    for operation in operations {
        note_procedure(alloc, scope, false, &operation.procedure, least)?;
        note_main(&operation.procedure.heading, least);
    }
    Ok(())
}

fn hides_family(component: &Component) -> bool
    ensures { result ≡ spec.hides_family component.now }
{
    match component {
        Component::Realization(own) => own.enhancement.is_none(),
        _ => false,
    }
}

fn note_parts<'c>(
    alloc: Global,
    scope: &Scope<'c>,
    component: &'c Component,
    least: &mut Least<'c>,
) -> Result<(), NoMemory>
    ensures { OnOk result (least.new ≡ least_of least.old (spec.parts scope.now.table.now (seen_scope scope.now) component.now)) }
{
    match component {
        Component::Concept(own) => {
            if let Some(family) = &own.family {
                note_family(alloc, scope, family, least)?;
            }
            note_operations(alloc, scope, own.headings.as_slice(), least)
        }
        Component::Enhancement(own) => note_operations(
            alloc,
            scope,
            own.headings.as_slice(),
            least,
        ),
        Component::Realization(own) => note_realization(alloc, scope, own, least),
        Component::Facility(own) => note_module_operations(
            alloc,
            scope,
            own.operations.as_slice(),
            least,
        ),
    }
}

/// What is known in a component, behind all of its declarations of facilities.
pub fn scope_of<'c>(table: &'c Table, component: &'c Component) -> Scope<'c>
    ensures scope { seen_scope result ≡ scope table.now component.now }
    ensures table { result.table.now ≡ table.now }
{
    Scope::behind(
        table,
        own_concept(table, component),
        declarations_of(component),
    )
}

/// Notes the breaches in what a component declares.
pub fn note_declarations<'c>(
    alloc: Global,
    table: &'c Table,
    component: &'c Component,
    least: &mut Least<'c>,
) -> Result<(), NoMemory>
    ensures { OnOk result (least.new ≡ least_of least.old (spec.declarations_breaches table.now component.now)) }
{
    note_declared_twice(alloc, table, component, least)?;
    note_facilities(alloc, table, component, hides_family(component), least)?;
    note_parts(alloc, &scope_of(table, component), component, least)
}
