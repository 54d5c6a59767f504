//! A table of components, and whom the last of them names.

use crate::saying::say_bytes;
use crate::trouble::Trouble;
use module_table::{NameError, Table, name_of};
use res_ast::{Component, TryCopy};
use std::alloc::Global;

/// Why a table or a list of names is not answered.
pub fn say_name_error(said: &mut String, e: &NameError) -> Result<(), Trouble> {
    match e {
        NameError::Duplicate { name } => {
            write!(said, " Duplicate")?;
            say_bytes(said, name.bytes())
        }
        NameError::Unknown { name, at } => {
            write!(said, " Unknown at {at}")?;
            say_bytes(said, name.bytes())
        }
        NameError::WrongKind { name, at } => {
            write!(said, " WrongKind at {at}")?;
            say_bytes(said, name.bytes())
        }
        NameError::NoMemory => Err(Trouble::NoMemory),
    }
}

/// The table of copies of the components, in their order.
pub fn filled(alloc: Global, components: &[Component]) -> Result<Table, NameError> {
    let mut table = Table::new(alloc);
    for component in components {
        let component = component.copy(alloc)?;
        table.add(alloc, component)?;
    }
    Ok(table)
}

fn say_uses(
    alloc: Global,
    said: &mut String,
    table: &Table,
    component: &Component,
) -> Result<(), Trouble> {
    match table.uses_of(alloc, name_of(component)) {
        Ok(names) => {
            for name in names.as_slice() {
                say_bytes(said, name.bytes())?;
            }
            Ok(())
        }
        Err(e) => say_name_error(said, &e),
    }
}

/// Whom the last component names, in a table of all; or why there is no such table, or no such list.
pub fn say_table(
    alloc: Global,
    said: &mut String,
    components: &[Component],
) -> Result<(), Trouble> {
    match filled(alloc, components) {
        Ok(table) => match components.last() {
            Some(component) => say_uses(alloc, said, &table, component),
            None => Err(Trouble::NotUnderstood),
        },
        Err(e) => say_name_error(said, &e),
    }
}
