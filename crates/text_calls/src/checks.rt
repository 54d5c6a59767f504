//! What is wrong with components before their conditions are made.

use crate::saying::{say, say_bytes};
use crate::tables::{filled, say_name_error};
use crate::trouble::Trouble;
use component_checks::{Mistake, mistake_at};
use module_table::{Table, name_of};
use report_lines::mistake_line;
use res_ast::Component;
use std::alloc::Global;

fn say_refusal(
    alloc: Global,
    said: &mut String,
    component: &Component,
    mistake: &Mistake,
) -> Result<(), Trouble> {
    let line = mistake_line(alloc, name_of(component).bytes(), mistake)?;
    say_bytes(said, line.bytes())
}

// Whether a component has a mistake, which then is said.
fn say_mistake(
    alloc: Global,
    said: &mut String,
    table: &Table,
    number: usize,
) -> Result<bool, Trouble> {
    let mistake = mistake_at(alloc, table, number)?;
    match (table.at(number), &mistake) {
        (Some(component), Some(mistake)) => {
            say_refusal(alloc, said, component, mistake)?;
            Ok(true)
        }
        _ => Ok(false),
    }
}

fn say_mistakes(alloc: Global, said: &mut String, table: &Table) -> Result<(), Trouble> {
    let mut fine = true;
    for number in 0..table.len() {
        if say_mistake(alloc, said, table, number)? {
            fine = false;
        }
    }
    if fine {
        say(said, "fine")?;
    }
    Ok(())
}

/// The refusal of each component that has a mistake, in a table of all, or that all are fine; or why there is no such table.
pub fn say_checks(
    alloc: Global,
    said: &mut String,
    components: &[Component],
) -> Result<(), Trouble> {
    match filled(alloc, components) {
        Ok(table) => say_mistakes(alloc, said, &table),
        Err(e) => say_name_error(said, &e),
    }
}
