//! The clauses of families and of their representations.

ghost use Rattle.std.specs.Prelude.{◌≡◌, ◌++◌, ◌∷◌, Some, true, IfOk, OnOk, map};
ghost use Rattle.std.specs.Option.{option_copied};
ghost use Rattle.math_types.specs.Components as spec;
ghost use Rattle.math_types.specs.Types.{sort};
ghost use Rattle.math_types.specs.working.Seen.{seen, seen_group};

use crate::clause::{Clause, Group};
use crate::heading::sort_written;
use crate::known::Known;
use crate::names::{add_numbers, value};
use crate::procedure::{add_clause, by_fields};
use crate::types::{own_family, sort_of_type};
use facility_bind::Scope;
use math_terms::{Name, NoMemory, Sort, both};
use res_ast::{Concept, Expr, Family, PType, Realization, Rep};
use sqlite_items::Items;
use std::alloc::Global;

/// Adds the clauses of a family.
pub(crate) fn add_family<'c>(
    alloc: Global,
    groups: &mut Items<Group<'c>>,
    scope: &Scope,
    family: &'c Option<Family>,
) -> Result<(), NoMemory>
    ensures { OnOk result (map seen_group groups.new ≡ map seen_group groups.old ++ spec.family scope.now family.now) }
{
    match family {
        Some(family) => {
            let known = exemplar_alone(alloc, scope, family)?;
            let mut clauses = Items::new(alloc);
            add_constraint(&mut clauses, &family.constraint)?;
            add_clause(&mut clauses, Sort::B, &family.initial)?;
            groups.push(Group { known, clauses })?;
            Ok(())
        }
        None => Ok(()),
    }
}

fn add_constraint<'c>(
    clauses: &mut Items<Clause<'c>>,
    constraint: &'c Option<Expr>,
) -> Result<(), NoMemory>
    ensures { OnOk result (map seen clauses.new ≡ map seen clauses.old ++ spec.constraint_of constraint.now) }
{
    match constraint {
        Some(e) => add_clause(clauses, Sort::B, e),
        None => Ok(()),
    }
}

/// What the clauses of a family know.
fn exemplar_alone(alloc: Global, scope: &Scope, family: &Family) -> Result<Items<Known>, NoMemory>
    ensures { IfOk result (λ ks. ks ≡ spec.exemplar scope.now family.now ∷ spec.numbers scope.now) }
{
    let mut out = Items::new(alloc);
    out.push(exemplar(alloc, scope, family)?)?;
    add_numbers(alloc, &mut out, scope)?;
    Ok(out)
}

/// The exemplar, a value of the own family.
fn exemplar(alloc: Global, scope: &Scope, family: &Family) -> Result<Known, NoMemory>
    ensures { IfOk result (λ k. k ≡ spec.exemplar scope.now family.now) }
{
    let own = own_family(alloc)?;
    value(alloc, scope, true, false, &family.exemplar, own.get())
}

/// Adds the clauses of a representation.
pub(crate) fn add_representation<'c>(
    alloc: Global,
    groups: &mut Items<Group<'c>>,
    scope: &Scope,
    own: Option<&Concept>,
    rep: &'c Option<Rep>,
) -> Result<(), NoMemory>
    ensures { OnOk result (map seen_group groups.new ≡ map seen_group groups.old ++ spec.representation scope.now (option_copied own.entry) rep.now) }
{
    match rep {
        Some(rep) => {
            let known = names_of_rep(alloc, scope, family_in(own), rep)?;
            let wanted = own_sort(alloc, scope)?;
            let mut clauses = Items::new(alloc);
            add_clause(&mut clauses, Sort::B, &rep.convention)?;
            add_clause(&mut clauses, wanted, &rep.correspondence)?;
            groups.push(Group { known, clauses })?;
            Ok(())
        }
        None => Ok(()),
    }
}

/// The family of the own concept.
fn family_in<'k>(own: Option<&'k Concept>) -> Option<&'k Family>
    ensures { option_copied result ≡ spec.family_in (option_copied own.entry) }
{
    match own {
        Some(concept) => match &concept.family {
            Some(family) => Some(family),
            None => None,
        },
        None => None,
    }
}

/// The sort of the values of the own family.
fn own_sort(alloc: Global, scope: &Scope) -> Result<Sort, NoMemory>
    ensures { IfOk result (λ s. s ≡ sort scope.now.families spec.own_family) }
{
    let own = own_family(alloc)?;
    sort_of_type(alloc, scope.families.as_slice(), own.get())
}

/// What the clauses of a representation know.
fn names_of_rep(
    alloc: Global,
    scope: &Scope,
    family: Option<&Family>,
    rep: &Rep,
) -> Result<Items<Known>, NoMemory>
    ensures { IfOk result (λ ks. ks ≡ spec.represents scope.now rep.now (option_copied family.entry) ++ spec.numbers scope.now) }
{
    let mut out = Items::new(alloc);
    if let Some(family) = family {
        out.push(represented_exemplar(alloc, scope, family, rep)?)?;
    }
    add_numbers(alloc, &mut out, scope)?;
    Ok(out)
}

/// The exemplar by its fields alone.
fn represented_exemplar(
    alloc: Global,
    scope: &Scope,
    family: &Family,
    rep: &Rep,
) -> Result<Known, NoMemory>
    ensures { IfOk result (λ k. k ≡ spec.represented (Some (spec.fields scope.now rep.now)) true (spec.exemplar scope.now family.now)) }
{
    let fields = fields_of(alloc, scope, rep.fields.as_slice())?;
    let whole = exemplar(alloc, scope, family)?;
    by_fields(alloc, fields.as_slice(), whole)
}

/// The fields with their sorts.
fn fields_of(
    alloc: Global,
    scope: &Scope,
    fields: &[(Name, PType)],
) -> Result<Items<(Name, Sort)>, NoMemory>
    ensures { IfOk result (λ fs. fs ≡ map (spec.field scope.now) fields.now) }
{
    let mut out = Items::new(alloc);
    for field in fields {
        out.push(field_of(alloc, scope, field)?)?;
    }
    Ok(out)
}

fn field_of(alloc: Global, scope: &Scope, field: &(Name, PType)) -> Result<(Name, Sort), NoMemory>
    ensures { IfOk result (λ f. f ≡ spec.field scope.now field.now) }
{
    let (name, sort) = both(field.0.copy(alloc), sort_written(alloc, scope, &field.1))?;
    Ok((name, sort))
}

/// The fields by which a realization of a concept represents the own family; none of an enhancement's.
pub(crate) fn own_fields(
    alloc: Global,
    scope: &Scope,
    realization: &Realization,
) -> Result<Option<Items<(Name, Sort)>>, NoMemory>
    ensures { IfOk result (λ fs. fs ≡ spec.own_fields scope.now realization.now) }
{
    if realization.enhancement.is_some() {
        return Ok(None);
    }
    match &realization.rep {
        Some(rep) => Ok(Some(fields_of(alloc, scope, rep.fields.as_slice())?)),
        None => Ok(Some(Items::new(alloc))),
    }
}
