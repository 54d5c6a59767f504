//! Whether lines refute the named rows of a sequent, in room that is passed.

ghost use Rattle.std.specs.Prelude.{◌≡◌, ◌+◌, ◌<◌, ◌≤◌, ◌⊎◌, ℕ, ◌∷◌, List, IfOk, OnErr, Some, length, map, sum};
ghost use Rattle.math_terms.specs.declared.term.Term.{Term};
ghost use Rattle.math_terms.specs.Terms.{nodes};
ghost use Rattle.num_theory.specs.Lines as numbers;
ghost use Rattle.num_theory.specs.Naming.{find_rows, linear_test, occurs, rows_refute};
ghost use Rattle.num_theory.specs.Table as spec;
ghost use Rattle.term_cells.specs.KindShown.{sorts_of_vars};
ghost use Rattle.term_cells.specs.Placed.{AllStand};
ghost use Rattle.cell_rows.specs.Sequents.{SameRoom, StandsIn, TableStands, table_of};
ghost use Rattle.cell_rows.specs.working.Small.{Small};

use crate::columns::keep_columns;
use crate::difference::Short;
use crate::lines::refutes;
use crate::sequent::{CellSequent, CellTable};
use crate::sheet::Sheet;
use math_terms::{Line, RowName};

// No more atoms may occur in the named rows.
const MOST_COLUMNS: usize = 63;

impl<'a> CellSequent<'a> {
    /// Whether the lines refute the named rows. Room for the atoms is at `atoms`.
    pub(crate) fn is_refuted(
        &self,
        names: &[RowName],
        lines: &[Line],
        sheet: &mut Sheet,
        atoms: &mut [u32],
        used: &mut [bool],
        places: &mut [[i32; 64]],
    ) -> Result<bool, Short>
        requires readable { length self.now.cells.now.0 ≤ sheet.old.scratch }
        requires many { length self.now.cells.now.0 ≤ length atoms.old }
        requires same_length { length used.old ≡ length atoms.old }
        ensures room { SameRoom sheet.old sheet.new }
        ensures exact { (hs : List Term) (g : Term) → StandsIn self.now hs g → IfOk result (λ b. b ≡ linear_test (sorts_of_vars self.now.vars.now) hs g names.now lines.now) }
        ensures short { (hs : List Term) (g : Term) → StandsIn self.now hs g → OnErr result ((length sheet.old.marks.items < sum (map nodes hs) + nodes g) ⊎ (length places.old < length names.now + length lines.now)) }
    {
        let Some(count) = self.gather(sheet, atoms) else {
            return Err(Short);
        };
        let table = CellTable {
            sequent: *self,
            atoms: &atoms[..count],
        };
        table.is_refuted(names, lines, sheet, &mut used[..count], places)
    }
}

impl<'a> CellTable<'a> {
    /// Whether the lines refute the named rows.
    fn is_refuted(
        &self,
        names: &[RowName],
        lines: &[Line],
        sheet: &mut Sheet,
        used: &mut [bool],
        places: &mut [[i32; 64]],
    ) -> Result<bool, Short>
        requires readable { length self.now.sequent.cells.now.0 ≤ sheet.old.scratch }
        requires same_length { length used.old ≡ length self.now.atoms.now }
        ensures room { SameRoom sheet.old sheet.new }
        ensures exact { (hs : List Term) (g : Term) → TableStands self.now hs g → IfOk result (λ b. b ≡ linear_test (sorts_of_vars self.now.sequent.vars.now) hs g names.now lines.now) }
        ensures short { (hs : List Term) (g : Term) (most : ℕ) → TableStands self.now hs g → Small most (g ∷ hs) → OnErr result ((length sheet.old.marks.items < most) ⊎ (length places.old < length names.now + length lines.now)) }
    {
        let Ok(found) = self.use_rows(names, sheet, used) else {
            return Err(Short);
        };
        if !found {
            return Ok(false);
        }
        self.used_refute(names, lines, used, sheet, places)
    }

    /// The same where all named rows are there, and their atoms are flagged.
    fn used_refute(
        &self,
        names: &[RowName],
        lines: &[Line],
        used: &[bool],
        sheet: &mut Sheet,
        places: &mut [[i32; 64]],
    ) -> Result<bool, Short>
        requires readable { length self.now.sequent.cells.now.0 ≤ sheet.old.scratch }
        requires same_length { length used.now ≡ length self.now.atoms.now }
        ensures room { SameRoom sheet.old sheet.new }
        ensures exact { (hs : List Term) (g : Term) (named : List spec.Sum) → TableStands self.now hs g → find_rows (length hs) (table_of self.now.sequent hs g).sums names.now ≡ Some named → used.now ≡ map (occurs named) (table_of self.now.sequent hs g).atoms → IfOk result (λ b. b ≡ rows_refute (table_of self.now.sequent hs g).atoms lines.now named) }
        ensures short { (hs : List Term) (g : Term) (named : List spec.Sum) (most : ℕ) → TableStands self.now hs g → find_rows (length hs) (table_of self.now.sequent hs g).sums names.now ≡ Some named → used.now ≡ map (occurs named) (table_of self.now.sequent hs g).atoms → Small most (g ∷ hs) → OnErr result ((length sheet.old.marks.items < most) ⊎ (length places.old < length names.now + length lines.now)) }
    {
        let mut columns = [0; MOST_COLUMNS];
        let Some(width) = keep_columns(self.atoms, used, &mut columns) else {
            return Ok(false);
        };
        self.columns_refute(names, lines, &columns[..width], sheet, places)
    }

    /// The same with these columns.
    fn columns_refute(
        &self,
        names: &[RowName],
        lines: &[Line],
        columns: &[u32],
        sheet: &mut Sheet,
        places: &mut [[i32; 64]],
    ) -> Result<bool, Short>
        requires readable { length self.now.sequent.cells.now.0 ≤ sheet.old.scratch }
        requires narrow { length columns.now ≤ 63 }
        ensures room { SameRoom sheet.old sheet.new }
        ensures exact { (hs : List Term) (g : Term) (cols : List Term) (named : List spec.Sum) → TableStands self.now hs g → AllStand self.now.sequent.cells.now.0 cols columns.now → find_rows (length hs) (table_of self.now.sequent hs g).sums names.now ≡ Some named → IfOk result (λ b. b ≡ numbers.refutes (map (spec.row_of cols) named) lines.now) }
        ensures short { (hs : List Term) (g : Term) (cols : List Term) (named : List spec.Sum) (most : ℕ) → TableStands self.now hs g → AllStand self.now.sequent.cells.now.0 cols columns.now → Small most (g ∷ hs) → find_rows (length hs) (table_of self.now.sequent hs g).sums names.now ≡ Some named → OnErr result ((length sheet.old.marks.items < most) ⊎ (length places.old < length names.now + length lines.now)) }
    {
        let Ok(()) = self.fill_rows(names, columns, sheet, places) else {
            return Err(Short);
        };
        refutes(lines, columns.len() + 1, names.len(), places)
    }
}
