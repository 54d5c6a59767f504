//! What is written as one piece of a text, and lists of it.

ghost use Rattle.std.specs.Prelude.{◌≡◌, ◌∷◌, [], ℕ, List, OnOk};
ghost use Rattle.res_printer.specs.Pieces.{closing, comma, each, row, semicolon, separated};

use crate::text::Text;
use math_terms::{Name, NoMemory};

/// What has a canonical text.
pub(crate) trait Print: Drop {
    ghost piece: { Self → List ℕ → List ℕ };

    /// Writes it before what has been written.
    fn print(&self, out: &mut Text) -> Result<(), NoMemory>
        ensures { OnOk result (out.new ≡ piece self.now out.old) };
}

impl Print for Name {
    ghost use Rattle.res_printer.specs.Pieces.{says};

    ghost piece = { says };

    fn print(&self, out: &mut Text) -> Result<(), NoMemory> {
        out.says(self.bytes())
    }
}

/// Writes items one behind the other.
#[tactic(auto, using(crate::proofs::Lists::each_end))]
pub(crate) fn print_each<T: Print>(out: &mut Text, items: &[T]) -> Result<(), NoMemory>
    ensures { OnOk result (out.new ≡ each T.piece items.now out.old) }
{
    for item in items.iter().rev() {
        item.print(out)?;
    }
    Ok(())
}

/// Writes items, each behind a comma.
#[tactic(auto, using(crate::proofs::Lists::each_end))]
pub(crate) fn print_behind_commas<T: Print>(out: &mut Text, items: &[T]) -> Result<(), NoMemory>
    ensures { OnOk result (out.new ≡ each (λ x. row (comma ∷ T.piece x ∷ [])) items.now out.old) }
{
    for item in items.iter().rev() {
        item.print(out)?;
        out.says(b",")?;
    }
    Ok(())
}

/// Writes items, each behind a semicolon.
#[tactic(auto, using(crate::proofs::Lists::each_end))]
pub(crate) fn print_behind_semicolons<T: Print>(out: &mut Text, items: &[T]) -> Result<(), NoMemory>
    ensures { OnOk result (out.new ≡ each (λ x. row (semicolon ∷ T.piece x ∷ [])) items.now out.old) }
{
    for item in items.iter().rev() {
        item.print(out)?;
        out.ends_line(b";")?;
    }
    Ok(())
}

/// Writes items with commas between them.
pub(crate) fn print_with_commas<T: Print>(out: &mut Text, items: &[T]) -> Result<(), NoMemory>
    ensures { OnOk result (out.new ≡ separated comma T.piece items.now out.old) }
{
    match items.split_first() {
        Some((first, more)) => {
            print_behind_commas(out, more)?;
            first.print(out)
        }
        None => Ok(()),
    }
}

/// Writes items with semicolons between them.
pub(crate) fn print_with_semicolons<T: Print>(out: &mut Text, items: &[T]) -> Result<(), NoMemory>
    ensures { OnOk result (out.new ≡ separated semicolon T.piece items.now out.old) }
{
    match items.split_first() {
        Some((first, more)) => {
            print_behind_semicolons(out, more)?;
            first.print(out)
        }
        None => Ok(()),
    }
}

/// Writes the last word of what has this name.
pub(crate) fn write_closing(out: &mut Text, name: &Name) -> Result<(), NoMemory>
    ensures { OnOk result (out.new ≡ closing name.now out.old) }
{
    out.ends_line(b";")?;
    out.says(name.bytes())?;
    out.says(b"end")
}
