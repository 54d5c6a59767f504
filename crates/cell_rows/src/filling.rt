//! Named rows of a sequent as rows of numbers, with a column for each atom that occurs in them.

ghost use Rattle.std.specs.Prelude.{◌≡◌, ◌+◌, ◌<◌, ◌≤◌, ◌⊎◌, ◌++◌, ℕ, [], ◌∷◌, List, IfOk, IfSome, IsSome, OnErr, OnOk, Some, length, map, slice_set, take, true};
ghost use Rattle.math_terms.specs.declared.term.Term.{Term};
ghost use Rattle.num_theory.specs.declared.number.Number.TheVariants.{Exact};
ghost use Rattle.num_theory.specs.Linear.{Product};
ghost use Rattle.num_theory.specs.Naming.{find_rows};
ghost use Rattle.num_theory.specs.Number.{exact, is_narrow};
ghost use Rattle.num_theory.specs.Rows.{reduced};
ghost use Rattle.num_theory.specs.Table as spec;
ghost use Rattle.term_cells.specs.Standing.{stands};
ghost use Rattle.term_cells.specs.Placed.{AllStand};
ghost use Rattle.cell_rows.specs.Forms.{ProductsStand};
ghost use Rattle.cell_rows.specs.working.RowsIn.{RowsIn};
ghost use Rattle.cell_rows.specs.RowsStand.{are_narrow};
ghost use Rattle.cell_rows.specs.Sequents.{SameRoom, TableStands, table_of};
ghost use Rattle.cell_rows.specs.working.Small.{Small};

use crate::difference::Short;
use crate::sequent::CellTable;
use crate::sheet::Sheet;
use math_terms::RowName;
use num_theory::{Number, reduce};
use term_cells::Cells;

impl<'a> CellTable<'a> {
    /// Writes the named rows, reduced, with these columns, each into a place of 64 numbers.
    pub(crate) fn fill_rows(
        &self,
        names: &[RowName],
        columns: &[u32],
        sheet: &mut Sheet,
        places: &mut [[i32; 64]],
    ) -> Result<(), Short>
        requires readable { length self.now.sequent.cells.now.0 ≤ sheet.old.scratch }
        requires narrow { length columns.now ≤ 63 }
        ensures room { SameRoom sheet.old sheet.new }
        ensures fits { OnOk result (length names.now ≤ length places.new) }
        ensures filled { (hs : List Term) (g : Term) (cols : List Term) (named : List spec.Sum) → TableStands self.now hs g → AllStand self.now.sequent.cells.now.0 cols columns.now
            → find_rows (length hs) (table_of self.now.sequent hs g).sums names.now ≡ Some named → IfOk result (λ _. RowsIn (length cols + 1) (length named) (map (spec.row_of cols) named) places.new) }
        ensures short { (hs : List Term) (g : Term) (cols : List Term) (named : List spec.Sum) (most : ℕ) → TableStands self.now hs g → AllStand self.now.sequent.cells.now.0 cols columns.now → Small most (g ∷ hs)
            → find_rows (length hs) (table_of self.now.sequent hs g).sums names.now ≡ Some named → OnErr result ((length sheet.old.marks.items < most) ⊎ (length places.old < length names.now)) }
    {
        if places.len() < names.len() {
            return Err(Short);
        }
        for k in 0..names.len() {
            let Ok(found) = self.row_named(names[k], sheet) else {
                return Err(Short);
            };
            let Some(row) = found else {
                return Err(Short);
            };
            let marks = &sheet.marks[..row.count];
            let Some(numbers) = row_in_columns(self.sequent.cells, columns, marks, row.constant)
            else {
                return Err(Short);
            };
            places[k] = numbers;
        }
        Ok(())
    }
}

/// A row with these columns, reduced.
fn row_in_columns(
    cells: &Cells,
    columns: &[u32],
    marks: &[(Number, u32)],
    constant: Number,
) -> Option<[i32; 64]>
    requires { length columns.now ≤ 63 }
    ensures found { (cols : List Term) (ps : List Product) → AllStand cells.now.0 cols columns.now → ProductsStand cells.now.0 ps marks.now → are_narrow ps ≡ true → is_narrow constant ≡ true → IsSome result }
    ensures row { (cols : List Term) (ps : List Product) → AllStand cells.now.0 cols columns.now → ProductsStand cells.now.0 ps marks.now → IfSome result (λ row. take (length cols + 1) row ≡ reduced (map (λ t. spec.coefficient t ps) cols ++ exact constant ∷ [])) }
{
    let mut numbers = [0; 64];
    if write_reduced(cells, columns, marks, constant, &mut numbers) {
        Some(numbers)
    } else {
        None
    }
}

/// The same at the start of a slice. The answer is no where a number is wide.
fn write_reduced(
    cells: &Cells,
    columns: &[u32],
    marks: &[(Number, u32)],
    constant: Number,
    out: &mut [i32],
) -> bool
    requires { length columns.now + 1 ≤ length out.old }
    ensures writes { (cols : List Term) (ps : List Product) → AllStand cells.now.0 cols columns.now → ProductsStand cells.now.0 ps marks.now → are_narrow ps ≡ true → is_narrow constant ≡ true → result ≡ true }
    ensures written { (cols : List Term) (ps : List Product) → AllStand cells.now.0 cols columns.now → ProductsStand cells.now.0 ps marks.now → result ≡ true → take (length cols + 1) out.new ≡ reduced (map (λ t. spec.coefficient t ps) cols ++ exact constant ∷ []) }
{
    let end = columns.len() + 1;
    if !write_row(cells, columns, marks, constant, &mut out[..end]) {
        return false;
    }
    reduce(&mut out[..end]);
    true
}

/// The coefficients of the columns, and the constant.
fn write_row(
    cells: &Cells,
    columns: &[u32],
    marks: &[(Number, u32)],
    constant: Number,
    out: &mut [i32],
) -> bool
    requires { length out.old ≡ length columns.now + 1 }
    ensures writes { (cols : List Term) (ps : List Product) → AllStand cells.now.0 cols columns.now → ProductsStand cells.now.0 ps marks.now → are_narrow ps ≡ true → is_narrow constant ≡ true → result ≡ true }
    ensures written { (cols : List Term) (ps : List Product) → AllStand cells.now.0 cols columns.now → ProductsStand cells.now.0 ps marks.now → result ≡ true → out.new ≡ map (λ t. spec.coefficient t ps) cols ++ exact constant ∷ [] }
{
    if columns.is_empty() {
        return write_first(constant, out);
    }
    if !write_first(coefficient(cells, columns[0], marks), out) {
        return false;
    }
    write_row(cells, &columns[1..], marks, constant, &mut out[1..])
}

/// Writes a number, unless it is wide.
fn write_first(number: Number, out: &mut [i32]) -> bool
    ensures writes { 0 < length out.old → is_narrow number ≡ true → result ≡ true }
    ensures written { result ≡ true → out.new ≡ slice_set out.old 0 (exact number) }
{
    if out.is_empty() || !number.is_narrow() {
        return false;
    }
    out[0] = number.exact();
    true
}

/// The coefficient of the atom at a place, 0 where it has no product.
fn coefficient(cells: &Cells, atom: u32, marks: &[(Number, u32)]) -> Number
    ensures { (t : Term) (ps : List Product) → stands cells.now.0 t atom ≡ true → ProductsStand cells.now.0 ps marks.now → result ≡ Exact (spec.coefficient t ps) }
{
    if marks.is_empty() {
        return Number::Exact(0);
    }
    if cells.same(atom, marks[0].1) {
        return marks[0].0;
    }
    coefficient(cells, atom, &marks[1..])
}
