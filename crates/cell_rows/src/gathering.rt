//! The atoms of all rows of a sequent, those of the facts on its atoms among them.

ghost use Rattle.std.specs.Prelude.{◌≡◌, ◌<◌, ◌≤◌, ℕ, List, [], ◌∷◌, IfNone, IfSome, Some, length, slice_get, take, true};
ghost use Rattle.math_terms.specs.declared.term.Term.{Term};
ghost use Rattle.math_terms.specs.Terms.{nodes};
ghost use Rattle.num_theory.specs.Table as spec;
ghost use Rattle.term_cells.specs.KindShown.{sorts_of_vars};
ghost use Rattle.term_cells.specs.Placed.{AllStand};
ghost use Rattle.term_cells.specs.Standing.{stands};
ghost use Rattle.cell_rows.specs.working.Atoms.{AtomsFound, with_fact_rows, with_row};
ghost use Rattle.cell_rows.specs.RowsStand.{fact_row, goal_row};
ghost use Rattle.cell_rows.specs.Sequents.{SameRoom, StandsIn, table_of};
ghost use Rattle.cell_rows.specs.working.Small.{Small};
ghost use Rattle.cell_rows.specs.working.Tame.{Tame};

use crate::atoms::add_row;
use crate::fact::count_facts;
use crate::formula::Which;
use crate::sequent::CellSequent;
use crate::sheet::Sheet;
use term_cells::Cells;

// No certificate comes to as many atoms.
const MOST_ATOMS: u64 = 1 << 32;

impl<'a> CellSequent<'a> {
    /// Puts the atoms of the rows of the sequent at the start of the slice. The answer is how many they are, none where there is no room.
    pub(crate) fn gather(&self, sheet: &mut Sheet, places: &mut [u32]) -> Option<usize>
        requires { length self.now.cells.now.0 ≤ sheet.old.scratch }
        ensures room { SameRoom sheet.old sheet.new }
        ensures within { IfSome result (λ n. n ≤ length places.new) }
        ensures atoms { (hs : List Term) (g : Term) → StandsIn self.now hs g → AtomsFound self.now.cells.now.0 (table_of self.now hs g).atoms result places.new }
        ensures short { (hs : List Term) (g : Term) (most : ℕ) → StandsIn self.now hs g → Small most (g ∷ hs) → length self.now.cells.now.0 ≤ length places.old → IfNone result (length sheet.old.marks.items < most) }
    {
        let count = self.add_formulas(sheet, places)?;
        let count = self.add_goal(sheet, count, places)?;
        add_facts_from(self.cells, 0, MOST_ATOMS, sheet, count, places)
    }

    /// Puts the atoms of the rows of the hypotheses at the start of the slice.
    fn add_formulas(&self, sheet: &mut Sheet, places: &mut [u32]) -> Option<usize>
        requires { length self.now.cells.now.0 ≤ sheet.old.scratch }
        ensures room { SameRoom sheet.old sheet.new }
        ensures within { IfSome result (λ n. n ≤ length places.new) }
        ensures added { (hs : List Term) → AllStand self.now.cells.now.0 hs self.now.hyps.now → AtomsFound self.now.cells.now.0 (spec.atoms_of [] (spec.sums_from (sorts_of_vars self.now.vars.now) 1 hs)) result places.new }
        ensures short { (hs : List Term) (size : ℕ) → AllStand self.now.cells.now.0 hs self.now.hyps.now → Small size hs → length self.now.cells.now.0 ≤ length places.old → IfNone result (length sheet.old.marks.items < size) }
    {
        let mut count = 0;
        for p in self.hyps {
            count = self.add_formula(*p, sheet, count, places)?;
        }
        Some(count)
    }

    /// Adds the atoms of the two rows that a formula may have.
    fn add_formula(
        &self,
        p: u32,
        sheet: &mut Sheet,
        count: usize,
        places: &mut [u32],
    ) -> Option<usize>
        requires readable { length self.now.cells.now.0 ≤ sheet.old.scratch }
        requires counted { count ≤ length places.old }
        ensures room { SameRoom sheet.old sheet.new }
        ensures within { IfSome result (λ n. n ≤ length places.new) }
        ensures added { (k : ℕ) (t : Term) (ts : List Term) → stands self.now.cells.now.0 t p ≡ true → AllStand self.now.cells.now.0 ts (take count places.old) → AtomsFound self.now.cells.now.0 (spec.atoms_of ts (spec.sums_of (sorts_of_vars self.now.vars.now) k t)) result places.new }
        ensures short { (t : Term) (ts : List Term) (size : ℕ) → stands self.now.cells.now.0 t p ≡ true → AllStand self.now.cells.now.0 ts (take count places.old) → Tame size ts → nodes t ≤ size → length self.now.cells.now.0 ≤ length places.old → IfNone result (length sheet.old.marks.items < size) }
    {
        let Ok(first) = self.formula_row(Which::First, p, sheet) else {
            return None;
        };
        let count = add_row(self.cells, first, &sheet.marks, count, places)?;
        let Ok(second) = self.formula_row(Which::Second, p, sheet) else {
            return None;
        };
        add_row(self.cells, second, &sheet.marks, count, places)
    }

    /// Adds the atoms of the row of the negated goal.
    fn add_goal(&self, sheet: &mut Sheet, count: usize, places: &mut [u32]) -> Option<usize>
        requires readable { length self.now.cells.now.0 ≤ sheet.old.scratch }
        requires counted { count ≤ length places.old }
        ensures room { SameRoom sheet.old sheet.new }
        ensures within { IfSome result (λ n. n ≤ length places.new) }
        ensures added { (t : Term) (ts : List Term) → stands self.now.cells.now.0 t self.now.goal ≡ true → AllStand self.now.cells.now.0 ts (take count places.old) → AtomsFound self.now.cells.now.0 (with_row ts (goal_row t)) result places.new }
        ensures short { (t : Term) (ts : List Term) (size : ℕ) → stands self.now.cells.now.0 t self.now.goal ≡ true → AllStand self.now.cells.now.0 ts (take count places.old) → Tame size ts → nodes t ≤ size → length self.now.cells.now.0 ≤ length places.old → IfNone result (length sheet.old.marks.items < size) }
    {
        let Ok(row) = self.goal_row(sheet) else {
            return None;
        };
        add_row(self.cells, row, &sheet.marks, count, places)
    }
}

/// Adds the atoms of the facts on the atoms from place i of the slice on, those that are added among them, of so many atoms at most.
fn add_facts_from(
    cells: &Cells,
    i: usize,
    most: u64,
    sheet: &mut Sheet,
    count: usize,
    places: &mut [u32],
) -> Option<usize>
    requires readable { length cells.now.0 ≤ sheet.old.scratch }
    requires counted { count ≤ length places.old }
    ensures room { SameRoom sheet.old sheet.new }
    ensures within { IfSome result (λ n. n ≤ length places.new) }
    ensures added { (g : spec.Gathered) → AllStand cells.now.0 g.atoms (take count places.old) → AtomsFound cells.now.0 (spec.with_all_facts most i g).atoms result places.new }
    ensures short { (ts : List Term) (size : ℕ) → AllStand cells.now.0 ts (take count places.old) → Tame size ts → length cells.now.0 ≤ length places.old → IfNone result (length sheet.old.marks.items < size) }
{
    if most == 0 {
        return Some(count);
    }
    if i >= count {
        return Some(count);
    }
    let count = add_facts(cells, places[i], sheet, count, places)?;
    add_facts_from(cells, i + 1, most - 1, sheet, count, places)
}

/// Adds the atoms of the facts on the atom at a place.
fn add_facts(
    cells: &Cells,
    p: u32,
    sheet: &mut Sheet,
    count: usize,
    places: &mut [u32],
) -> Option<usize>
    requires readable { length cells.now.0 ≤ sheet.old.scratch }
    requires counted { count ≤ length places.old }
    ensures room { SameRoom sheet.old sheet.new }
    ensures within { IfSome result (λ n. n ≤ length places.new) }
    ensures added { (t : Term) (ts : List Term) → stands cells.now.0 t p ≡ true → AllStand cells.now.0 ts (take count places.old) → AtomsFound cells.now.0 (with_fact_rows ts (spec.facts_of t)) result places.new }
    ensures short { (t : Term) (ts : List Term) (size : ℕ) → stands cells.now.0 t p ≡ true → AllStand cells.now.0 ts (take count places.old) → Tame size ts → nodes t ≤ size → length cells.now.0 ≤ length places.old → IfNone result (length sheet.old.marks.items < size) }
{
    let facts = count_facts(cells, p);
    if facts == 0 {
        return Some(count);
    }
    let count = add_fact(cells, p, 0, sheet, count, places)?;
    if facts == 1 {
        return Some(count);
    }
    add_fact(cells, p, 1, sheet, count, places)
}

/// Adds the atoms of fact k, counted from 0, on the atom at a place.
fn add_fact(
    cells: &Cells,
    p: u32,
    k: u32,
    sheet: &mut Sheet,
    count: usize,
    places: &mut [u32],
) -> Option<usize>
    requires readable { length cells.now.0 ≤ sheet.old.scratch }
    requires counted { count ≤ length places.old }
    ensures room { SameRoom sheet.old sheet.new }
    ensures within { IfSome result (λ n. n ≤ length places.new) }
    ensures added { (t f : Term) (ts : List Term) → stands cells.now.0 t p ≡ true → slice_get (spec.facts_of t) k ≡ Some f → AllStand cells.now.0 ts (take count places.old) → AtomsFound cells.now.0 (with_row ts (fact_row f)) result places.new }
    ensures short { (t f : Term) (ts : List Term) (size : ℕ) → stands cells.now.0 t p ≡ true → slice_get (spec.facts_of t) k ≡ Some f → AllStand cells.now.0 ts (take count places.old) → Tame size ts → nodes t ≤ size → length cells.now.0 ≤ length places.old → IfNone result (length sheet.old.marks.items < size) }
{
    let Ok(row) = sheet.row_of_fact(cells, p, k) else {
        return None;
    };
    add_row(cells, row, &sheet.marks, count, places)
}
