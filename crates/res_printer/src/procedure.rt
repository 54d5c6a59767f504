//! Procedures, local operations and representations.

ghost use Rattle.std.specs.Prelude.{◌≡◌, OnOk};
ghost use Rattle.res_printer.specs.Components as spec;
ghost use Rattle.res_printer.specs.Pieces.{each};

use crate::expression::write_expression;
use crate::heading::{write_clause, write_operation};
use crate::print::{Print, print_each, write_closing};
use crate::statement::{write_claim, write_statements};
use crate::text::Text;
use math_terms::{Name, NoMemory};
use res_ast::{LocalOp, PType, Procedure, Rep};

// A field with its type.
impl Print for (Name, PType) {
    ghost use Rattle.res_printer.specs.Components.{field};

    ghost piece = { field };

    fn print(&self, out: &mut Text) -> Result<(), NoMemory> {
        out.ends_line(b";")?;
        self.1.print(out)?;
        out.says(b":")?;
        out.says(self.0.bytes())
    }
}

#[tactic(auto, using(crate::proofs::Lists::each_end))]
fn write_variables(out: &mut Text, variables: &[(Name, PType)]) -> Result<(), NoMemory>
    ensures { OnOk result (out.new ≡ each spec.variable variables.now out.old) }
{
    for variable in variables.iter().rev() {
        variable.print(out)?;
        out.says(b"Var")?;
    }
    Ok(())
}

fn write_body(out: &mut Text, procedure: &Procedure) -> Result<(), NoMemory>
    ensures { OnOk result (out.new ≡ spec.body procedure.now out.old) }
{
    write_closing(out, &procedure.heading.name)?;
    write_statements(out, procedure.body.as_slice())?;
    write_variables(out, procedure.vars.as_slice())?;
    write_clause(out, b"decreasing", &procedure.metric)
}

impl Print for LocalOp {
    ghost use Rattle.res_printer.specs.Components.{local};

    ghost piece = { local };

    fn print(&self, out: &mut Text) -> Result<(), NoMemory> {
        write_body(out, &self.procedure)?;
        out.says(b"Procedure")?;
        self.procedure.heading.print(out)
    }
}

impl Print for Procedure {
    ghost use Rattle.res_printer.specs.Components.{procedure};

    ghost piece = { procedure };

    fn print(&self, out: &mut Text) -> Result<(), NoMemory> {
        write_body(out, self)?;
        write_operation(out, b"Procedure", &self.heading)
    }
}

#[tactic(auto, unfolding(crate::specs::Components::represented))]
fn write_represented(out: &mut Text) -> Result<(), NoMemory>
    ensures { OnOk result (out.new ≡ spec.represented out.old) }
{
    out.says(b"Record")?;
    out.says(b"by")?;
    out.says(b"represented")?;
    out.says(b"is")
}

#[tactic(auto, unfolding(crate::specs::Components::record_of))]
fn write_record(out: &mut Text, rep: &Rep) -> Result<(), NoMemory>
    ensures { OnOk result (out.new ≡ spec.record_of rep.now out.old) }
{
    out.ends_line(b";")?;
    out.says(b"end")?;
    print_each(out, rep.fields.as_slice())?;
    write_represented(out)?;
    out.says(rep.name.bytes())?;
    out.says(b"Type")
}

#[tactic(auto, unfolding(crate::specs::Components::correspondence))]
fn write_correspondence(out: &mut Text, rep: &Rep) -> Result<(), NoMemory>
    ensures { OnOk result (out.new ≡ spec.correspondence rep.now out.old) }
{
    out.ends_line(b";")?;
    write_expression(out, &rep.correspondence)?;
    out.says(b"=")?;
    out.says(rep.conc.bytes())?;
    out.says(b".")?;
    out.says(b"Conc")?;
    out.says(b"correspondence")
}

fn write_rep(out: &mut Text, rep: &Rep) -> Result<(), NoMemory>
    ensures { OnOk result (out.new ≡ spec.rep rep.now out.old) }
{
    write_correspondence(out, rep)?;
    write_claim(out, b"convention", &rep.convention)?;
    write_record(out, rep)
}

/// Writes a representation, if there is one.
pub(crate) fn write_representation(out: &mut Text, rep: &Option<Rep>) -> Result<(), NoMemory>
    ensures { OnOk result (out.new ≡ spec.representation rep.now out.old) }
{
    match rep {
        Some(rep) => write_rep(out, rep),
        None => Ok(()),
    }
}
