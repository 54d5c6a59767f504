//! The atoms of rows, as places in the order in which the atoms first occur.

ghost use Rattle.std.specs.Prelude.{◌≡◌, ◌≤◌, List, IfSome, Option, length, take, true};
ghost use Rattle.std.specs.List.{list_any};
ghost use Rattle.math_terms.specs.declared.term.Term.{Term};
ghost use Rattle.math_terms.specs.Heads.{same_term};
ghost use Rattle.num_theory.specs.Linear.{Product};
ghost use Rattle.num_theory.specs.Table as spec;
ghost use Rattle.term_cells.specs.Standing.{stands};
ghost use Rattle.term_cells.specs.Placed.{AllStand};
ghost use Rattle.cell_rows.specs.working.Atoms.{AtomsOrShort, with_row};
ghost use Rattle.cell_rows.specs.Forms.{ProductsStand};
ghost use Rattle.cell_rows.specs.RowsStand.{Row, RowStands};

use crate::difference::CellRow;
use num_theory::Number;
use term_cells::Cells;

/// Whether the atom at a place is among those at other places.
fn has_atom(cells: &Cells, atom: u32, places: &[u32]) -> bool
    ensures { (t : Term) (ts : List Term) → stands cells.now.0 t atom ≡ true → AllStand cells.now.0 ts places.now → result ≡ list_any (same_term t) ts }
{
    if places.is_empty() {
        return false;
    }
    if cells.same(atom, places[0]) {
        return true;
    }
    has_atom(cells, atom, &places[1..])
}

/// Adds an atom behind the first `count`, unless it is among them. The answer is how many there are then, none where there is no room.
fn add_atom(cells: &Cells, atom: u32, count: usize, places: &mut [u32]) -> Option<usize>
    requires { count ≤ length places.old }
    ensures within { IfSome result (λ n. n ≤ length places.new) }
    ensures added { (t : Term) (ts : List Term) → stands cells.now.0 t atom ≡ true → AllStand cells.now.0 ts (take count places.old) → AtomsOrShort cells.now.0 (spec.with_atom ts t) result places.new }
{
    if has_atom(cells, atom, &places[..count]) {
        return Some(count);
    }
    if count >= places.len() {
        return None;
    }
    places[count] = atom;
    Some(count + 1)
}

/// Adds the atoms of products.
pub(crate) fn add_atoms(
    cells: &Cells,
    marks: &[(Number, u32)],
    count: usize,
    places: &mut [u32],
) -> Option<usize>
    requires { count ≤ length places.old }
    ensures within { IfSome result (λ n. n ≤ length places.new) }
    ensures added { (ts : List Term) (ps : List Product) → AllStand cells.now.0 ts (take count places.old) → ProductsStand cells.now.0 ps marks.now → AtomsOrShort cells.now.0 (spec.with_atoms ts ps) result places.new }
{
    if marks.is_empty() {
        return Some(count);
    }
    let count = add_atom(cells, marks[0].1, count, places)?;
    add_atoms(cells, &marks[1..], count, places)
}

/// Adds the atoms of a row, whose products are the first of the marks.
pub(crate) fn add_row(
    cells: &Cells,
    row: Option<CellRow>,
    marks: &[(Number, u32)],
    count: usize,
    places: &mut [u32],
) -> Option<usize>
    requires counted { count ≤ length places.old }
    requires row_fits { IfSome row (λ r. r.count ≤ length marks.now) }
    ensures within { IfSome result (λ n. n ≤ length places.new) }
    ensures added { (ts : List Term) (r : Option Row) → AllStand cells.now.0 ts (take count places.old) → RowStands cells.now.0 r row marks.now → AtomsOrShort cells.now.0 (with_row ts r) result places.new }
{
    match row {
        Some(row) => add_atoms(cells, &marks[..row.count], count, places),
        None => Some(count),
    }
}
