//! Binding: what a declaration of a facility gives to the component in which it stands.

ghost use Rattle.std.specs.Prelude.{◌≡◌, ◌⊎◌, ◌+◌, ◌++◌, ◌∷◌, [], None, Some, Ok, Err, IfOk, OnOk, MatchResult, map};
ghost use Rattle.std.specs.Option.{option_copied, option_map};
ghost use Rattle.facility_bind.specs.Bounds as spec;
ghost use Rattle.facility_bind.specs.Scopes as scopes;
ghost use Rattle.facility_bind.specs.Clauses as clauses;

use crate::arguments::{check, kinds_of};
use crate::arrays::bind_array;
use crate::bound::{Bound, BoundHeading};
use crate::clauses::{Binding, result_number};
use crate::error::ArgError;
use crate::formals::{concept_in, declarations_of, enhancement_in};
use crate::scope::{Scope, one};
use math_terms::{Formula, Name, NoMemory, both};
use module_table::{Table, is_array_template};
use res_ast::{Component, Concept, FacDecl, Family, Heading, Mode, PType, Param};
use sqlite_items::Items;
use std::alloc::Global;
use type_inst::TypeInst;

/// Binds the declaration of a facility of that number in a component, from 0 in the order of the text. Where there is none, or
/// where its concept is not held, nothing is bound.
pub fn bind(
    alloc: Global,
    component: &Component,
    facility: u32,
    table: &Table,
) -> Result<Bound, ArgError>
    ensures { MatchResult result (λ b. spec.bound table.now component.now facility ≡ Ok b) (λ e. (e ≡ ArgError.NoMemory) ⊎ (spec.bound table.now component.now facility ≡ Err e)) }
{
    let declarations = declarations_of(component);
    let number = facility as usize;
    match declarations.get(number) {
        Some(declaration) => {
            bind_behind(
                alloc,
                table,
                component,
                &declarations[..number],
                declaration,
            )
        }
        None => Ok(nothing(alloc)),
    }
}

/// Binds a declaration that stands behind these.
fn bind_behind(
    alloc: Global,
    table: &Table,
    component: &Component,
    before: &[FacDecl],
    declaration: &FacDecl,
) -> Result<Bound, ArgError>
    ensures { MatchResult result (λ b. spec.bound_in table.now (scopes.scope table.now component.now before.now) declaration.now ≡ Ok b) (λ e. (e ≡ ArgError.NoMemory) ⊎ (spec.bound_in table.now (scopes.scope table.now component.now before.now) declaration.now ≡ Err e)) }
{
    let scope = Scope::behind(alloc, table, component, before)?;
    bind_in(alloc, table, &scope, declaration)
}

/// Binds a declaration that sees this scope.
fn bind_in(
    alloc: Global,
    table: &Table,
    scope: &Scope,
    declaration: &FacDecl,
) -> Result<Bound, ArgError>
    ensures { MatchResult result (λ b. spec.bound_in table.now scope.now declaration.now ≡ Ok b) (λ e. (e ≡ ArgError.NoMemory) ⊎ (spec.bound_in table.now scope.now declaration.now ≡ Err e)) }
{
    if is_array_template(&declaration.concept) {
        check(alloc, scope, &[true, false], declaration)?;
        let arguments = scope.arguments(alloc, declaration.args.as_slice())?;
        return Ok(bind_array(alloc, scope, arguments)?);
    }
    match concept_in(table, &declaration.concept) {
        Some(concept) => bind_instance(alloc, table, scope, declaration, concept),
        None => Ok(nothing(alloc)),
    }
}

fn bind_instance(
    alloc: Global,
    table: &Table,
    scope: &Scope,
    declaration: &FacDecl,
    concept: &Concept,
) -> Result<Bound, ArgError>
    ensures { MatchResult result (λ b. spec.bound_instance table.now scope.now declaration.now (Some concept.now) ≡ Ok b) (λ e. (e ≡ ArgError.NoMemory) ⊎ (spec.bound_instance table.now scope.now declaration.now (Some concept.now) ≡ Err e)) }
{
    let kinds = kinds_of(alloc, concept.formals.as_slice())?;
    check(alloc, scope, kinds.as_slice(), declaration)?;
    Ok(instance(alloc, table, scope, declaration, concept)?)
}

/// That nothing is bound.
pub(crate) fn nothing(alloc: Global) -> Bound
    ensures { result ≡ spec.nothing }
{
    Bound {
        requires_clause: None,
        headings: Items::new(alloc),
        types: Items::new(alloc),
    }
}

/// What an instance of a concept gives, where its arguments fit.
fn instance(
    alloc: Global,
    table: &Table,
    scope: &Scope,
    declaration: &FacDecl,
    concept: &Concept,
) -> Result<Bound, NoMemory>
    ensures { IfOk result (λ b. b ≡ spec.instance table.now scope.now declaration.now concept.now) }
{
    let inner = inner_of(alloc, scope, declaration, concept)?;
    let binding = Binding {
        scope,
        inner: &inner,
        family: &concept.family,
    };
    let headings = headings_of(alloc, table, &binding, declaration, concept)?;
    let types = own_type(alloc, &declaration.name, &concept.family)?;
    Ok(Bound {
        requires_clause: required(alloc, &binding, concept)?,
        headings,
        types,
    })
}

/// What is known in the concept of an instance.
#[tactic(auto, unfolding(crate::specs::Bounds::inner))]
fn inner_of(
    alloc: Global,
    scope: &Scope,
    declaration: &FacDecl,
    concept: &Concept,
) -> Result<Scope, NoMemory>
    ensures { IfOk result (λ s. s ≡ spec.inner declaration.now.name (scopes.given_to scope.now concept.now.formals declaration.now.args) concept.now.family) }
{
    let args = declaration.args.as_slice();
    let formals = scope.given_to(alloc, concept.formals.as_slice(), args)?;
    let path = one(alloc, &declaration.name)?;
    Scope::of_family(alloc, path.as_slice(), formals, &concept.family)
}

/// The requires clause of the concept.
fn required(
    alloc: Global,
    binding: &Binding<'_>,
    concept: &Concept,
) -> Result<Option<Formula>, NoMemory>
    ensures { IfOk result (λ o. o ≡ option_map (clauses.clause binding.now.scope.now binding.now.inner.now.formals 0 []) concept.now.requires_clause) }
{
    let put = binding.put(alloc, 0)?;
    binding.clause_if_there(alloc, &put, 0, Items::new(alloc), &concept.requires_clause)
}

/// The headings of the concept, and then those of the enhancements.
fn headings_of(
    alloc: Global,
    table: &Table,
    binding: &Binding<'_>,
    declaration: &FacDecl,
    concept: &Concept,
) -> Result<Items<BoundHeading>, NoMemory>
    ensures { IfOk result (λ hs. hs ≡ map (spec.heading binding.now.scope.now binding.now.inner.now binding.now.family.now) (spec.headings table.now concept.now declaration.now)) }
{
    let mut out = Items::new(alloc);
    add_headings(alloc, &mut out, binding, concept.headings.as_slice())?;
    for pair in declaration.enhanced.as_slice() {
        if let Some(enhancement) = enhancement_in(table, &pair.0) {
            add_headings(alloc, &mut out, binding, enhancement.headings.as_slice())?;
        }
    }
    Ok(out)
}

fn add_headings(
    alloc: Global,
    out: &mut Items<BoundHeading>,
    binding: &Binding<'_>,
    headings: &[Heading],
) -> Result<(), NoMemory>
    ensures { OnOk result (out.new ≡ out.old ++ map (spec.heading binding.now.scope.now binding.now.inner.now binding.now.family.now) headings.now) }
{
    for heading in headings {
        out.push(bound_heading(alloc, binding, heading)?)?;
    }
    Ok(())
}

#[tactic(auto, unfolding(crate::specs::Bounds::heading))]
fn bound_heading(
    alloc: Global,
    binding: &Binding<'_>,
    heading: &Heading,
) -> Result<BoundHeading, NoMemory>
    ensures { IfOk result (λ h. h ≡ spec.heading binding.now.scope.now binding.now.inner.now binding.now.family.now heading.now) }
{
    let params = heading.params.as_slice();
    let lists = both(
        modes_of(alloc, params),
        types_of(alloc, binding.inner, params),
    );
    let types = both(lists, result_of(alloc, binding.inner, &heading.result));
    let clauses = clauses_of(alloc, binding, heading);
    let (name, (types, clauses)) = both(heading.name.copy(alloc), both(types, clauses))?;
    let ((modes, types), result) = types;
    Ok(BoundHeading {
        name,
        modes,
        types,
        result,
        requires_clause: clauses.0,
        ensures_clause: clauses.1,
    })
}

/// The requires clause and the ensures clause of a heading.
fn clauses_of(
    alloc: Global,
    binding: &Binding<'_>,
    heading: &Heading,
) -> Result<(Option<Formula>, Option<Formula>), NoMemory>
    ensures before { IfOk result (λ p. p.0 ≡ option_map (clauses.clause binding.now.scope.now binding.now.inner.now.formals (clauses.result_number heading.now) (clauses.requires_names binding.now.family.now heading.now)) heading.now.requires_clause) }
    ensures after { IfOk result (λ p. p.1 ≡ option_map (clauses.clause binding.now.scope.now binding.now.inner.now.formals (clauses.result_number heading.now) (clauses.ensures_names binding.now.family.now heading.now)) heading.now.ensures_clause) }
{
    let before = result_number(heading)?;
    let put = binding.put(alloc, before)?;
    let incoming = binding.requires_names(alloc, heading)?;
    let outgoing = binding.ensures_names(alloc, heading)?;
    both(
        binding.clause_if_there(alloc, &put, before, incoming, &heading.requires_clause),
        binding.clause_if_there(alloc, &put, before, outgoing, &heading.ensures_clause),
    )
}

fn modes_of(alloc: Global, params: &[Param]) -> Result<Items<Mode>, NoMemory>
    ensures { IfOk result (λ ms. ms ≡ map (λ p. p.mode) params.now) }
{
    let mut out = Items::new(alloc);
    for param in params {
        out.push(param.mode)?;
    }
    Ok(out)
}

fn types_of(alloc: Global, scope: &Scope, params: &[Param]) -> Result<Items<TypeInst>, NoMemory>
    ensures { IfOk result (λ ts. ts ≡ map (λ p. scopes.type_in scope.now p.ptype) params.now) }
{
    let mut out = Items::new(alloc);
    for param in params {
        out.push(scope.type_of(alloc, &param.ptype)?)?;
    }
    Ok(out)
}

fn result_of(
    alloc: Global,
    scope: &Scope,
    written: &Option<PType>,
) -> Result<Option<TypeInst>, NoMemory>
    ensures { IfOk result (λ o. o ≡ option_map (scopes.type_in scope.now) written.now) }
{
    match written {
        Some(t) => Ok(Some(scope.type_of(alloc, t)?)),
        None => Ok(None),
    }
}

/// The family that an instance gives.
fn own_type(
    alloc: Global,
    facility: &Name,
    family: &Option<Family>,
) -> Result<Items<(Name, TypeInst)>, NoMemory>
    ensures { IfOk result (λ ts. ts ≡ spec.own_type facility.now family.now) }
{
    let mut out = Items::new(alloc);
    if let Some(family) = family {
        let (name, path) = both(family.name.copy(alloc), one(alloc, facility))?;
        out.push((name, TypeInst::Family(path)))?;
    }
    Ok(out)
}
