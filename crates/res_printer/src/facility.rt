//! Declarations of facilities.

ghost use Rattle.std.specs.Prelude.{◌≡◌, OnOk};
ghost use Rattle.res_printer.specs.Components as spec;

use crate::print::{Print, print_each, print_with_commas};
use crate::text::Text;
use math_terms::{Name, NoMemory};
use res_ast::{FacArg, FacDecl};

impl Print for FacArg {
    ghost use Rattle.res_printer.specs.Components.{argument};

    ghost piece = { argument };

    fn print(&self, out: &mut Text) -> Result<(), NoMemory> {
        match self {
            FacArg::OfType(ptype) => ptype.print(out),
            FacArg::Number(_, n) => out.says_number(*n),
        }
    }
}

fn write_facility_arguments(out: &mut Text, args: &[FacArg]) -> Result<(), NoMemory>
    ensures { OnOk result (out.new ≡ spec.facility_arguments args.now out.old) }
{
    if args.is_empty() {
        return Ok(());
    }
    out.says(b")")?;
    print_with_commas(out, args)?;
    out.says(b"(")
}

fn write_realized_by(out: &mut Text, name: &Name) -> Result<(), NoMemory>
    ensures { OnOk result (out.new ≡ spec.realized_by name.now out.old) }
{
    out.says(name.bytes())?;
    out.says(b"by")?;
    out.says(b"realized")
}

fn write_realized(out: &mut Text, realization: &Option<Name>) -> Result<(), NoMemory>
    ensures { OnOk result (out.new ≡ spec.realized realization.now out.old) }
{
    match realization {
        Some(name) => write_realized_by(out, name),
        None => Ok(()),
    }
}

// An enhancement with its realization.
impl Print for (Name, Name) {
    ghost use Rattle.res_printer.specs.Components.{enhanced};

    ghost piece = { enhanced };

    fn print(&self, out: &mut Text) -> Result<(), NoMemory> {
        write_realized_by(out, &self.1)?;
        out.says(self.0.bytes())?;
        out.says(b"by")?;
        out.says(b"enhanced")
    }
}

impl Print for FacDecl {
    ghost use Rattle.res_printer.specs.Components.{facility};

    ghost piece = { facility };

    fn print(&self, out: &mut Text) -> Result<(), NoMemory> {
        out.ends_line(b";")?;
        print_each(out, self.enhanced.as_slice())?;
        write_realized(out, &self.realization)?;
        write_facility_arguments(out, self.args.as_slice())?;
        out.says(self.concept.bytes())?;
        out.says(b"is")?;
        out.says(self.name.bytes())?;
        out.says(b"Facility")
    }
}
