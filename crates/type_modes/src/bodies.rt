//! All breaches of a component.

ghost use Rattle.std.specs.Prelude.{◌≡◌, ◌⊎◌, None, Some, MatchResult};
ghost use Rattle.type_rules.specs.Breaches.{least_of};
ghost use Rattle.type_modes.specs.Bodies.{bodies_breaches, procedure_breaches};
ghost use Rattle.type_modes.specs.Modes.{first_breach};
ghost use Rattle.type_rules.specs.declared.error.ModeError.TheVariants.{NoMemory};

use crate::body::Body;
use crate::callee::{procedure_at, procedure_count};
use module_table::Table;
use res_ast::{Component, Procedure};
use std::alloc::Global;
use type_rules::{Least, ModeError, note_declarations};

// Notes the breaches in the body of the procedure of a number, from 0.
fn note_procedure<'c>(
    table: &'c Table,
    component: &'c Component,
    number: usize,
    procedure: &'c Procedure,
    least: &mut Least<'c>,
)
    ensures { least.new ≡ least_of least.old (procedure_breaches table.now component.now (number, procedure.now)) }
{
    let body = Body::new(table, component, number, procedure);
    body.statements(procedure.body.as_slice(), least);
}

// Notes the breaches in the bodies of a component.
fn note_bodies<'c>(table: &'c Table, component: &'c Component, least: &mut Least<'c>)
    ensures { least.new ≡ least_of least.old (bodies_breaches table.now component.now) }
{
    for k in 0..procedure_count(component) {
        if let Some(procedure) = procedure_at(component, k) {
            note_procedure(table, component, k, procedure, least);
        }
    }
}

/// Checks the types and modes of a component. It answers the breach at the smallest place, there the first by its kind, and of
/// several of one kind the first in the text.
pub fn check_modes(alloc: Global, c: &Component, table: &Table) -> Result<(), ModeError>
    ensures { MatchResult result (λ _. first_breach table.now c.now ≡ None) (λ e. (e ≡ NoMemory) ⊎ (first_breach table.now c.now ≡ Some e)) }
{
    let mut least = Least::new();
    note_declarations(alloc, table, c, &mut least)?;
    note_bodies(table, c, &mut least);
    least.answer(alloc)
}
