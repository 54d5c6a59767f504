//! The clauses of components, and the first that is refused.

ghost use Rattle.std.specs.Prelude.{◌≡◌, ◌⊎◌, ◌++◌, None, Some, IfOk, OnOk, MatchResult, map};
ghost use Rattle.std.specs.List.{flat_map};
ghost use Rattle.std.specs.Option.{option_copied};
ghost use Rattle.math_types.specs.Components as spec;
ghost use Rattle.math_types.specs.working.Seen.{seen_group};

use crate::clause::{Group, add_alone, check_groups};
use crate::error::SortError;
use crate::family::{add_family, add_representation, own_fields};
use crate::heading::add_heading;
use crate::known::Known;
use crate::names::add_numbers;
use crate::procedure::add_procedure;
use facility_bind::{Scope, declarations_of, own_concept};
use math_terms::{Name, NoMemory, Sort};
use module_table::Table;
use res_ast::{Component, Concept, Expr, Heading, LocalOp, Procedure, Realization};
use sqlite_items::Items;
use std::alloc::Global;
use type_inst::types_of;

/// Whether each clause of a component has the sort that its place asks for. The names that the component has of other components
/// are looked up in the table; a type that nothing declares counts as Integer.
pub fn check_math(alloc: Global, c: &Component, table: &Table) -> Result<(), SortError>
    ensures { MatchResult result (λ _. spec.first_unsorted table.now c.now ≡ None) (λ e. (e ≡ SortError.NoMemory) ⊎ (spec.first_unsorted table.now c.now ≡ Some e)) }
{
    let scope = Scope::behind(alloc, table, c, declarations_of(c))?;
    let types = types_of(alloc, scope.formals.as_slice())?;
    let groups = groups_of(alloc, &scope, own_concept(table, c), c)?;
    check_groups(alloc, types.as_slice(), groups.as_slice())
}

/// The clauses of a component, in the order of its text.
fn groups_of<'c>(
    alloc: Global,
    scope: &Scope,
    own: Option<&Concept>,
    c: &'c Component,
) -> Result<Items<Group<'c>>, NoMemory>
    ensures { IfOk result (λ gs. map seen_group gs ≡ spec.groups_in scope.now (option_copied own.entry) c.now) }
{
    let mut groups = Items::new(alloc);
    match c {
        Component::Concept(concept) => {
            add_concept_requires(alloc, &mut groups, scope, &concept.requires_clause)?;
            add_family(alloc, &mut groups, scope, &concept.family)?;
            add_headings(alloc, &mut groups, scope, concept.headings.as_slice())?;
        }
        Component::Enhancement(enhancement) => {
            add_headings(alloc, &mut groups, scope, enhancement.headings.as_slice())?;
        }
        Component::Realization(realization) => {
            add_realization(alloc, &mut groups, scope, own, realization)?;
        }
        Component::Facility(module) => {
            add_locals(
                alloc,
                &mut groups,
                scope,
                &None,
                module.operations.as_slice(),
            )?;
        }
    }
    Ok(groups)
}

/// Adds the requires clause of a concept, which knows the Integer formals alone.
fn add_concept_requires<'c>(
    alloc: Global,
    groups: &mut Items<Group<'c>>,
    scope: &Scope,
    clause: &'c Option<Expr>,
) -> Result<(), NoMemory>
    ensures { OnOk result (map seen_group groups.new ≡ map seen_group groups.old ++ spec.if_there (spec.concept_requires scope.now) clause.now) }
{
    match clause {
        Some(e) => {
            let mut known = Items::new(alloc);
            add_numbers(alloc, &mut known, scope)?;
            add_alone(alloc, groups, known, Sort::B, e)
        }
        None => Ok(()),
    }
}

fn add_headings<'c>(
    alloc: Global,
    groups: &mut Items<Group<'c>>,
    scope: &Scope,
    headings: &'c [Heading],
) -> Result<(), NoMemory>
    ensures { OnOk result (map seen_group groups.new ≡ map seen_group groups.old ++ flat_map (spec.heading scope.now) headings.now) }
{
    for heading in headings {
        add_heading(alloc, groups, scope, heading)?;
    }
    Ok(())
}

fn add_realization<'c>(
    alloc: Global,
    groups: &mut Items<Group<'c>>,
    scope: &Scope,
    own: Option<&Concept>,
    realization: &'c Realization,
) -> Result<(), NoMemory>
    ensures { OnOk result (map seen_group groups.new ≡ map seen_group groups.old ++ spec.realization scope.now (option_copied own.entry) realization.now) }
{
    let fields = own_fields(alloc, scope, realization)?;
    add_representation(alloc, groups, scope, own, &realization.rep)?;
    add_locals(alloc, groups, scope, &fields, realization.locals.as_slice())?;
    add_procedures(alloc, groups, scope, &fields, realization.procs.as_slice())
}

fn add_locals<'c>(
    alloc: Global,
    groups: &mut Items<Group<'c>>,
    scope: &Scope,
    own: &Option<Items<(Name, Sort)>>,
    locals: &'c [LocalOp],
) -> Result<(), NoMemory>
    ensures { OnOk result (map seen_group groups.new ≡ map seen_group groups.old ++ flat_map (spec.local scope.now own.now) locals.now) }
{
    for local in locals {
        add_procedure(alloc, groups, scope, own, &local.procedure)?;
    }
    Ok(())
}

fn add_procedures<'c>(
    alloc: Global,
    groups: &mut Items<Group<'c>>,
    scope: &Scope,
    own: &Option<Items<(Name, Sort)>>,
    procedures: &'c [Procedure],
) -> Result<(), NoMemory>
    ensures { OnOk result (map seen_group groups.new ≡ map seen_group groups.old ++ flat_map (spec.procedure scope.now own.now) procedures.now) }
{
    for procedure in procedures {
        add_procedure(alloc, groups, scope, own, procedure)?;
    }
    Ok(())
}
