//! Statements, and the places that they change.

ghost use Rattle.std.specs.Prelude.{◌≡◌, ◌∷◌, [], map, OnOk};
ghost use Rattle.res_printer.specs.Expressions.{arguments, expression, written};
ghost use Rattle.res_printer.specs.Pieces.{comma, qualified, row, semicolon, separated};
ghost use Rattle.res_printer.specs.Statements as spec;

use crate::expression::{write_arguments, write_expression};
use crate::print::{Print, print_with_commas};
use crate::text::Text;
use math_terms::{Name, NoMemory};
use res_ast::{Expr, Place, Stmt};

impl Print for Place {
    ghost use Rattle.res_printer.specs.Statements.{place};

    ghost piece = { place };

    fn print(&self, out: &mut Text) -> Result<(), NoMemory> {
        match &self.field {
            Some(field) => out.says_dotted(&self.base, field),
            None => out.says(self.base.bytes()),
        }
    }
}

fn write_swap(out: &mut Text, x: &Place, y: &Place) -> Result<(), NoMemory>
    ensures { OnOk result (out.new ≡ spec.swap x.now y.now out.old) }
{
    out.ends_line(b";")?;
    y.print(out)?;
    out.says(b":=:")?;
    x.print(out)
}

fn write_assignment(out: &mut Text, x: &Place, e: &Expr) -> Result<(), NoMemory>
    ensures { OnOk result (out.new ≡ spec.assignment x.now e.now out.old) }
{
    out.ends_line(b";")?;
    write_expression(out, e)?;
    out.says(b":=")?;
    x.print(out)
}

fn write_call(
    out: &mut Text,
    facility: &Option<Name>,
    name: &Name,
    args: &[Expr],
) -> Result<(), NoMemory>
    ensures { OnOk result (out.new ≡ spec.call facility.now name.now args.now out.old) }
{
    out.ends_line(b";")?;
    write_arguments(out, args)?;
    out.says_qualified(facility, name)
}

/// Writes a word, an expression and a semicolon.
pub(crate) fn write_claim(out: &mut Text, word: &[u8], e: &Expr) -> Result<(), NoMemory>
    ensures { OnOk result (out.new ≡ spec.claim word.now e.now out.old) }
{
    out.ends_line(b";")?;
    write_expression(out, e)?;
    out.says(word)
}

fn write_end(out: &mut Text) -> Result<(), NoMemory>
    ensures { OnOk result (out.new ≡ spec.end out.old) }
{
    out.ends_line(b";")?;
    out.says(b"end")
}

fn write_changing(out: &mut Text, changed: &[Place]) -> Result<(), NoMemory>
    ensures { OnOk result (out.new ≡ spec.changing changed.now out.old) }
{
    out.ends_line(b";")?;
    print_with_commas(out, changed)?;
    out.says(b"changing")
}

#[tactic(auto, unfolding(crate::specs::Statements::claims))]
fn write_claims(out: &mut Text, invariant: &Expr, metric: &Expr) -> Result<(), NoMemory>
    ensures { OnOk result (out.new ≡ spec.claims invariant.now metric.now out.old) }
{
    write_claim(out, b"decreasing", metric)?;
    write_claim(out, b"maintaining", invariant)
}

// What stands before the body of a loop.
fn write_head(
    out: &mut Text,
    guard: &Expr,
    changed: &[Place],
    invariant: &Expr,
    metric: &Expr,
) -> Result<(), NoMemory>
    ensures { OnOk result (out.new ≡ spec.head guard.now changed.now invariant.now metric.now out.old) }
{
    out.ends_line(b"do")?;
    write_claims(out, invariant, metric)?;
    write_changing(out, changed)?;
    write_expression(out, guard)?;
    out.says(b"While")
}

#[cycle(write)]
fn write_statement(out: &mut Text, statement: &Stmt) -> Result<(), NoMemory>
    ensures { OnOk result (out.new ≡ spec.statement statement.now out.old) }
{
    match statement {
        Stmt::Swap(_, x, y) => write_swap(out, x, y),
        Stmt::Assign(_, x, e) => write_assignment(out, x, e),
        Stmt::Call(_, facility, name, args) => write_call(out, facility, name, args.as_slice()),
        Stmt::If(_, guard, first, second) => {
            write_end(out)?;
            write_otherwise(out, second.as_slice())?;
            write_statements(out, first.as_slice())?;
            out.ends_line(b"then")?;
            write_expression(out, guard)?;
            out.says(b"If")
        }
        Stmt::While(_, guard, changed, invariant, metric, body) => {
            write_end(out)?;
            write_statements(out, body.as_slice())?;
            write_head(out, guard, changed.as_slice(), invariant, metric)
        }
    }
}

#[cycle(write)]
fn write_otherwise(out: &mut Text, list: &[Stmt]) -> Result<(), NoMemory>
    ensures { OnOk result (out.new ≡ spec.otherwise (map spec.statement list.now) out.old) }
{
    if list.is_empty() {
        return Ok(());
    }
    write_statements(out, list)?;
    out.ends_line(b"else")
}

/// Writes statements one behind the other.
#[cycle(write)]
#[tactic(auto, using(crate::proofs::Lists::each_map_end))]
pub(crate) fn write_statements(out: &mut Text, list: &[Stmt]) -> Result<(), NoMemory>
    ensures { OnOk result (out.new ≡ spec.block (map spec.statement list.now) out.old) }
{
    for statement in list.iter().rev() {
        write_statement(out, statement)?;
    }
    Ok(())
}
