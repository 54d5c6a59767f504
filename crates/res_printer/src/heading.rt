//! Types, clauses and headings.

ghost use Rattle.std.specs.Prelude.{◌≡◌, OnOk};
ghost use Rattle.res_printer.specs.Components as spec;

use crate::print::{Print, print_with_commas, print_with_semicolons};
use crate::statement::write_claim;
use crate::text::Text;
use math_terms::{Name, NoMemory};
use res_ast::{Expr, Formal, Heading, Mode, PType, Param};

impl Print for PType {
    ghost use Rattle.res_printer.specs.Components.{ptype};

    ghost piece = { ptype };

    fn print(&self, out: &mut Text) -> Result<(), NoMemory> {
        out.says_qualified(&self.facility, &self.name)
    }
}

/// Writes a clause, if there is one.
pub(crate) fn write_clause(
    out: &mut Text,
    word: &[u8],
    clause: &Option<Expr>,
) -> Result<(), NoMemory>
    ensures { OnOk result (out.new ≡ spec.clause word.now clause.now out.old) }
{
    match clause {
        Some(e) => write_claim(out, word, e),
        None => Ok(()),
    }
}

/// Writes the names of the components that are used.
pub(crate) fn write_uses(out: &mut Text, names: &[Name]) -> Result<(), NoMemory>
    ensures { OnOk result (out.new ≡ spec.uses names.now out.old) }
{
    if names.is_empty() {
        return Ok(());
    }
    out.ends_line(b";")?;
    print_with_commas(out, names)?;
    out.says(b"uses")
}

fn mode_word(mode: Mode) -> &'static [u8]
    ensures { result.now ≡ spec.mode_word mode }
{
    match mode {
        Mode::Alters => b"alters",
        Mode::Clears => b"clears",
        Mode::Evaluates => b"evaluates",
        Mode::Preserves => b"preserves",
        Mode::Replaces => b"replaces",
        Mode::Restores => b"restores",
        Mode::Updates => b"updates",
    }
}

impl Print for Param {
    ghost use Rattle.res_printer.specs.Components.{param};

    ghost piece = { param };

    fn print(&self, out: &mut Text) -> Result<(), NoMemory> {
        self.ptype.print(out)?;
        out.says(b":")?;
        out.says(self.name.bytes())?;
        out.says(mode_word(self.mode))
    }
}

fn write_result(out: &mut Text, result_type: &Option<PType>) -> Result<(), NoMemory>
    ensures { OnOk result (out.new ≡ spec.result_type result_type.now out.old) }
{
    match result_type {
        Some(ptype) => {
            ptype.print(out)?;
            out.says(b":")
        }
        None => Ok(()),
    }
}

/// Writes the word, the name, the parameters and the result of an operation.
pub(crate) fn write_operation(
    out: &mut Text,
    word: &[u8],
    heading: &Heading,
) -> Result<(), NoMemory>
    ensures { OnOk result (out.new ≡ spec.operation word.now heading.now out.old) }
{
    out.ends_line(b";")?;
    write_result(out, &heading.result)?;
    out.says(b")")?;
    print_with_semicolons(out, heading.params.as_slice())?;
    out.says(b"(")?;
    out.says(heading.name.bytes())?;
    out.says(word)
}

impl Print for Heading {
    ghost use Rattle.res_printer.specs.Components.{heading};

    ghost piece = { heading };

    fn print(&self, out: &mut Text) -> Result<(), NoMemory> {
        write_clause(out, b"ensures", &self.ensures_clause)?;
        write_clause(out, b"requires", &self.requires_clause)?;
        write_operation(out, b"Operation", self)
    }
}

impl Print for Formal {
    ghost use Rattle.res_printer.specs.Components.{formal};

    ghost piece = { formal };

    fn print(&self, out: &mut Text) -> Result<(), NoMemory> {
        if self.is_type {
            out.says(self.name.bytes())?;
            out.says(b"type")
        } else {
            out.says(b"Integer")?;
            out.says(b":")?;
            out.says(self.name.bytes())?;
            out.says(b"evaluates")
        }
    }
}

/// Writes the formals of a concept in their parentheses.
pub(crate) fn write_formals(out: &mut Text, formals: &[Formal]) -> Result<(), NoMemory>
    ensures { OnOk result (out.new ≡ spec.formals formals.now out.old) }
{
    if formals.is_empty() {
        return Ok(());
    }
    out.says(b")")?;
    print_with_semicolons(out, formals)?;
    out.says(b"(")
}
