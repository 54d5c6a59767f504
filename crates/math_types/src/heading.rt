//! The clauses of headings.

ghost use Rattle.std.specs.Prelude.{◌≡◌, ◌++◌, ◌∷◌, [], Some, IfOk, OnOk, map};
ghost use Rattle.facility_bind.specs.Scopes.{type_in};
ghost use Rattle.math_types.specs.Components as spec;
ghost use Rattle.math_types.specs.Types.{sort};
ghost use Rattle.math_types.specs.working.Seen.{seen_group};

use crate::clause::{Group, add_alone};
use crate::names::{Speech, names};
use crate::types::{sort_of_type, written};
use facility_bind::Scope;
use math_terms::{NoMemory, Sort};
use res_ast::{Expr, Form, Heading, PType};
use sqlite_items::Items;
use std::alloc::Global;

/// Adds the clauses of a heading.
pub(crate) fn add_heading<'c>(
    alloc: Global,
    groups: &mut Items<Group<'c>>,
    scope: &Scope,
    heading: &'c Heading,
) -> Result<(), NoMemory>
    ensures { OnOk result (map seen_group groups.new ≡ map seen_group groups.old ++ spec.heading scope.now heading.now) }
{
    add_requires(alloc, groups, scope, heading)?;
    add_ensures(alloc, groups, scope, heading)
}

fn add_requires<'c>(
    alloc: Global,
    groups: &mut Items<Group<'c>>,
    scope: &Scope,
    heading: &'c Heading,
) -> Result<(), NoMemory>
    ensures { OnOk result (map seen_group groups.new ≡ map seen_group groups.old ++ spec.if_there (spec.requires_of scope.now heading.now) heading.now.requires_clause) }
{
    match &heading.requires_clause {
        Some(e) => {
            let known = names(alloc, scope, Speech::Requires, heading)?;
            add_alone(alloc, groups, known, Sort::B, e)
        }
        None => Ok(()),
    }
}

fn add_ensures<'c>(
    alloc: Global,
    groups: &mut Items<Group<'c>>,
    scope: &Scope,
    heading: &'c Heading,
) -> Result<(), NoMemory>
    ensures { OnOk result (map seen_group groups.new ≡ map seen_group groups.old ++ spec.if_there (spec.ensures_of scope.now heading.now) heading.now.ensures_clause) }
{
    match &heading.ensures_clause {
        Some(e) => match &heading.result {
            Some(t) => add_value(alloc, groups, scope, heading, e, t),
            None => {
                let known = names(alloc, scope, Speech::Ensures, heading)?;
                add_alone(alloc, groups, known, Sort::B, e)
            }
        },
        None => Ok(()),
    }
}

/// Adds what the ensures clause of a function says to be its result.
fn add_value<'c>(
    alloc: Global,
    groups: &mut Items<Group<'c>>,
    scope: &Scope,
    heading: &'c Heading,
    e: &'c Expr,
    t: &PType,
) -> Result<(), NoMemory>
    ensures { OnOk result (map seen_group groups.new ≡ map seen_group groups.old ++ spec.ensures_for scope.now heading.now e.now (Some t.now) ∷ []) }
{
    let known = names(alloc, scope, Speech::Value, heading)?;
    let wanted = sort_written(alloc, scope, t)?;
    add_alone(alloc, groups, known, wanted, right_side(e))
}

/// The sort of the type that a text means.
pub(crate) fn sort_written(alloc: Global, scope: &Scope, t: &PType) -> Result<Sort, NoMemory>
    ensures { IfOk result (λ s. s ≡ sort scope.now.families (type_in scope.now t.now)) }
{
    let t = written(alloc, scope, t)?;
    sort_of_type(alloc, scope.families.as_slice(), t.get())
}

/// The right side of an equation.
fn right_side(e: &Expr) -> &Expr
    ensures { result.now ≡ spec.right_side e.now }
{
    match &e.form {
        Form::Binary(_, _, right) => right.get(),
        _ => e,
    }
}
