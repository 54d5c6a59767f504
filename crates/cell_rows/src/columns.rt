//! The columns of named rows: the atoms that occur in them.

ghost use Rattle.std.specs.Prelude.{◌≡◌, ◌<◌, ◌≤◌, ◌||◌, ℕ, Bool, List, ◌∷◌, IfOk, IfSome, OnErr, Option, length, map, true};
ghost use Rattle.std.specs.List.{filter};
ghost use Rattle.math_terms.specs.declared.term.Term.{Term};
ghost use Rattle.num_theory.specs.Linear.{Product};
ghost use Rattle.num_theory.specs.Naming.{find_rows};
ghost use Rattle.term_cells.specs.declared.cell.Cell as shape;
ghost use Rattle.term_cells.specs.Standing.{stands};
ghost use Rattle.term_cells.specs.Placed.{AllStand};
ghost use Rattle.cell_rows.specs.working.Atoms.{AtomsOrShort};
ghost use Rattle.cell_rows.specs.working.Columns.{RowUsed, UsedIs, has_product};
ghost use Rattle.cell_rows.specs.Forms.{ProductsStand};
ghost use Rattle.cell_rows.specs.RowsStand.{Row, RowStands};
ghost use Rattle.cell_rows.specs.Sequents.{SameRoom, TableStands, table_of};
ghost use Rattle.cell_rows.specs.working.Small.{Small};

use crate::difference::{CellRow, Short};
use crate::sequent::CellTable;
use crate::sheet::Sheet;
use math_terms::RowName;
use num_theory::Number;
use term_cells::Cells;

impl<'a> CellTable<'a> {
    /// Flags the atoms that occur in the named rows. The answer is whether all these rows are there.
    pub(crate) fn use_rows(
        &self,
        names: &[RowName],
        sheet: &mut Sheet,
        used: &mut [bool],
    ) -> Result<bool, Short>
        requires readable { length self.now.sequent.cells.now.0 ≤ sheet.old.scratch }
        requires same_length { length used.old ≡ length self.now.atoms.now }
        ensures room { SameRoom sheet.old sheet.new }
        ensures used { (hs : List Term) (g : Term) → TableStands self.now hs g → IfOk result (λ found. UsedIs (find_rows (length hs) (table_of self.now.sequent hs g).sums names.now) (table_of self.now.sequent hs g).atoms found used.new) }
        ensures short { (hs : List Term) (g : Term) (most : ℕ) → TableStands self.now hs g → Small most (g ∷ hs) → OnErr result (length sheet.old.marks.items < most) }
    {
        clear(used);
        for name in names {
            let Ok(row) = self.row_named(*name, sheet) else {
                return Err(Short);
            };
            if !use_found(self.sequent.cells, self.atoms, row, &sheet.marks, used) {
                return Ok(false);
            }
        }
        Ok(true)
    }
}

/// Flags the atoms of a row, where there is one.
fn use_found(
    cells: &Cells,
    atoms: &[u32],
    row: Option<CellRow>,
    marks: &[(Number, u32)],
    used: &mut [bool],
) -> bool
    requires row_fits { IfSome row (λ r. r.count ≤ length marks.now) }
    requires same_length { length used.old ≡ length atoms.now }
    ensures { (ts : List Term) (r : Option Row) (before : Term → Bool) → AllStand cells.now.0 ts atoms.now → RowStands cells.now.0 r row marks.now → used.old ≡ map before ts → RowUsed r ts before result used.new }
{
    match row {
        Some(row) => {
            use_row(cells, atoms, &marks[..row.count], used);
            true
        }
        None => false,
    }
}

/// Clears all flags.
fn clear(used: &mut [bool])
    ensures { (ts : List Term) → length used.old ≡ length ts → used.new ≡ map (λ t. Bool.false) ts }
{
    if used.is_empty() {
        return;
    }
    used[0] = false;
    clear(&mut used[1..]);
}

/// Flags the atoms that have a product among these.
fn use_row(cells: &Cells, atoms: &[u32], marks: &[(Number, u32)], used: &mut [bool])
    requires { length used.old ≡ length atoms.now }
    ensures { (ts : List Term) (ps : List Product) (before : Term → Bool) → AllStand cells.now.0 ts atoms.now → ProductsStand cells.now.0 ps marks.now → used.old ≡ map before ts → used.new ≡ map (λ t. has_product ps t || before t) ts }
{
    if atoms.is_empty() {
        return;
    }
    used[0] = either(has_mark(cells, atoms[0], marks), used[0]);
    use_row(cells, &atoms[1..], marks, &mut used[1..]);
}

fn either(a: bool, b: bool) -> bool
    ensures { result ≡ (a || b) }
{
    a || b
}

/// Whether the atom at a place has a product among these.
fn has_mark(cells: &Cells, atom: u32, marks: &[(Number, u32)]) -> bool
    ensures { (t : Term) (ps : List Product) → stands cells.now.0 t atom ≡ true → ProductsStand cells.now.0 ps marks.now → result ≡ has_product ps t }
{
    if marks.is_empty() {
        return false;
    }
    if cells.same(atom, marks[0].1) {
        return true;
    }
    has_mark(cells, atom, &marks[1..])
}

/// Puts the places with a flag at the start of the columns. The answer is how many they are, none where there are fewer columns.
pub(crate) fn keep_columns(atoms: &[u32], used: &[bool], columns: &mut [u32]) -> Option<usize>
    requires { length used.now ≡ length atoms.now }
    ensures within { IfSome result (λ n. n ≤ length columns.new) }
    ensures kept { (cells : List shape.Cell) (ts : List Term) (test : Term → Bool) → AllStand cells ts atoms.now → used.now ≡ map test ts → AtomsOrShort cells (filter test ts) result columns.new }
{
    if atoms.is_empty() {
        return Some(0);
    }
    if !used[0] {
        return keep_columns(&atoms[1..], &used[1..], columns);
    }
    if columns.is_empty() {
        return None;
    }
    columns[0] = atoms[0];
    let more = keep_columns(&atoms[1..], &used[1..], &mut columns[1..])?;
    Some(more + 1)
}
