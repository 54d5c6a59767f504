//! The first mistake of a component.

ghost use Rattle.std.specs.Prelude.{◌≡◌, [], None, Some, IfOk, slice_get};
ghost use Rattle.std.specs.Option.{option_and_then, option_map};
ghost use Rattle.facility_bind.specs.Bounds.{bound};
ghost use Rattle.math_types.specs.Components.{first_unsorted};
ghost use Rattle.type_modes.specs.Modes.{first_breach};
ghost use Rattle.module_table.specs.Slots.{uses_in};
ghost use Rattle.module_table.specs.Tables.{held, name_of};
ghost use Rattle.component_checks.specs.Checks as spec;

use crate::mistake::Mistake;
use facility_bind::{ArgError, bind, declarations_of};
use math_terms::NoMemory;
use math_types::{SortError, check_math};
use module_table::{NameError, Table, name_of};
use res_ast::Component;
use sqlite_items::Items;
use std::alloc::Global;
use type_modes::{ModeError, check_modes};

// A mistake in the names of other components.
fn in_names(alloc: Global, c: &Component, table: &Table) -> Result<Option<Mistake>, NoMemory>
    requires { held table.now (name_of c.now) ≡ Some c.now }
    ensures { IfOk result (λ m. m ≡ spec.in_names (uses_in table.now c.now)) }
{
    match table.uses_of(alloc, name_of(c)) {
        Ok(_) => Ok(None),
        Err(NameError::NoMemory) => Err(NoMemory),
        Err(e) => Ok(Some(Mistake::Names(e))),
    }
}

// A mistake in the arguments of the declaration of that number, from 0.
fn in_args(
    alloc: Global,
    c: &Component,
    number: usize,
    table: &Table,
) -> Result<Option<Mistake>, NoMemory>
    ensures { IfOk result (λ m. m ≡ spec.in_args (bound table.now c.now number)) }
{
    if number > u32::MAX as usize {
        return Err(NoMemory);
    }
    match bind(alloc, c, number as u32, table) {
        Ok(_) => Ok(None),
        Err(ArgError::NoMemory) => Err(NoMemory),
        Err(e) => Ok(Some(Mistake::Args(e))),
    }
}

// The first mistake in the arguments of declarations.
fn in_declarations(alloc: Global, c: &Component, table: &Table) -> Result<Option<Mistake>, NoMemory>
    ensures { IfOk result (λ m. m ≡ spec.in_declarations table.now c.now) }
{
    for number in 0..declarations_of(c).len() {
        if let Some(mistake) = in_args(alloc, c, number, table)? {
            return Ok(Some(mistake));
        }
    }
    Ok(None)
}

// A mistake in the sorts of clauses.
fn in_sorts(alloc: Global, c: &Component, table: &Table) -> Result<Option<Mistake>, NoMemory>
    ensures { IfOk result (λ m. m ≡ option_map Mistake.Sorts (first_unsorted table.now c.now)) }
{
    match check_math(alloc, c, table) {
        Ok(()) => Ok(None),
        Err(SortError::NoMemory) => Err(NoMemory),
        Err(e) => Ok(Some(Mistake::Sorts(e))),
    }
}

// A mistake in types and modes.
fn in_modes(alloc: Global, c: &Component, table: &Table) -> Result<Option<Mistake>, NoMemory>
    ensures { IfOk result (λ m. m ≡ option_map Mistake.Modes (first_breach table.now c.now)) }
{
    match check_modes(alloc, c, table) {
        Ok(()) => Ok(None),
        Err(ModeError::NoMemory) => Err(NoMemory),
        Err(e) => Ok(Some(Mistake::Modes(e))),
    }
}

// The first mistake of a component that the table holds.
fn mistake_in(alloc: Global, c: &Component, table: &Table) -> Result<Option<Mistake>, NoMemory>
    requires { held table.now (name_of c.now) ≡ Some c.now }
    ensures { IfOk result (λ m. m ≡ spec.mistake_in table.now c.now) }
{
    if let Some(mistake) = in_names(alloc, c, table)? {
        return Ok(Some(mistake));
    }
    if let Some(mistake) = in_declarations(alloc, c, table)? {
        return Ok(Some(mistake));
    }
    if let Some(mistake) = in_sorts(alloc, c, table)? {
        return Ok(Some(mistake));
    }
    in_modes(alloc, c, table)
}

/// The first mistake of the component of that number, from 0, in a table: in the order names, arguments, sorts, types and modes.
/// Where the table has no component of that number there is none.
pub fn mistake_at(alloc: Global, table: &Table, number: usize) -> Result<Option<Mistake>, NoMemory>
    ensures { IfOk result (λ m. m ≡ option_and_then (spec.mistake_in table.now) (slice_get table.now number)) }
{
    match table.at(number) {
        Some(c) => mistake_in(alloc, c, table),
        None => Ok(None),
    }
}

/// The first mistake of a component that is alone.
pub fn mistake_alone(alloc: Global, c: Component) -> Result<Option<Mistake>, NoMemory>
    ensures { IfOk result (λ m. m ≡ spec.mistake_alone c) }
{
    let mut table = Table::new(alloc);
    match table.add(alloc, c) {
        Ok(()) => mistake_at(alloc, &table, 0),
        Err(NameError::NoMemory) => Err(NoMemory),
        Err(e) => Ok(Some(Mistake::Names(e))),
    }
}

/// The mistake of the component of a file that has one. In a file with several, or with none, nothing is looked at.
pub fn mistake_of(alloc: Global, components: Items<Component>) -> Result<Option<Mistake>, NoMemory>
    ensures { IfOk result (λ m. m ≡ spec.mistake_of components) }
{
    let mut rest = components;
    if rest.len() != 1 {
        return Ok(None);
    }
    match rest.pop() {
        Some(c) => mistake_alone(alloc, c),
        None => Ok(None),
    }
}
