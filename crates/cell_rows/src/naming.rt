//! The rows of a sequent by their names.

ghost use Rattle.std.specs.Prelude.{◌≡◌, ◌<◌, ◌≤◌, ℕ, List, ◌∷◌, IfOk, IfSome, OnErr, ◌^◌, take, length, option_and_then};
ghost use Rattle.std.specs.List.{flat_map};
ghost use Rattle.math_terms.specs.declared.term.Term.{Term};
ghost use Rattle.num_theory.specs.Table.{facts_of};
ghost use Rattle.term_cells.specs.KindShown.{sorts_of_vars};
ghost use Rattle.term_cells.specs.Placed.{AllStand};
ghost use Rattle.cell_rows.specs.working.Finding.{RowFound, numbered, row_by_name, row_of_some};
ghost use Rattle.cell_rows.specs.working.FormulaRows.{formula_row};
ghost use Rattle.cell_rows.specs.Sequents.{SameRoom, TableStands};
ghost use Rattle.cell_rows.specs.working.Small.{Small};

use crate::difference::{CellRow, Short};
use crate::fact::count_facts;
use crate::formula::Which;
use crate::sequent::{CellSequent, CellTable};
use crate::sheet::Sheet;
use math_terms::RowName;
use term_cells::Cells;

// No certificate comes to as many atoms.
const MOST_ATOMS: usize = 1 << 32;

impl<'a> CellTable<'a> {
    /// The row of this name, where there is one.
    pub(crate) fn row_named(
        &self,
        name: RowName,
        sheet: &mut Sheet,
    ) -> Result<Option<CellRow>, Short>
        requires { length self.now.sequent.cells.now.0 ≤ sheet.old.scratch }
        ensures room { SameRoom sheet.old sheet.new }
        ensures fits { IfOk result (λ row. IfSome row (λ r. r.count ≤ length sheet.new.marks.items)) }
        ensures row { (hs : List Term) (g : Term) → TableStands self.now hs g → RowFound self.now.sequent.cells.now.0 (row_by_name (sorts_of_vars self.now.sequent.vars.now) hs g name) result sheet.new.marks.items }
        ensures short { (hs : List Term) (g : Term) (most : ℕ) → TableStands self.now hs g → Small most (g ∷ hs) → OnErr result (length sheet.old.marks.items < most) }
    {
        let sequent = &self.sequent;
        match name {
            RowName::Hyp(k) => sequent.hypothesis_row(Which::First, k, sheet),
            RowName::Second(k) => sequent.hypothesis_row(Which::Second, k, sheet),
            RowName::Atom(k) => fact_numbered(sequent.cells, among_first(self.atoms), k, sheet),
            RowName::Goal => sequent.goal_row(sheet),
        }
    }
}

impl<'a> CellSequent<'a> {
    /// A row of the hypothesis of this number.
    fn hypothesis_row(
        &self,
        which: Which,
        k: u32,
        sheet: &mut Sheet,
    ) -> Result<Option<CellRow>, Short>
        requires { length self.now.cells.now.0 ≤ sheet.old.scratch }
        ensures room { SameRoom sheet.old sheet.new }
        ensures fits { IfOk result (λ row. IfSome row (λ r. r.count ≤ length sheet.new.marks.items)) }
        ensures row { (hs : List Term) → AllStand self.now.cells.now.0 hs self.now.hyps.now → RowFound self.now.cells.now.0 (option_and_then (formula_row which (sorts_of_vars self.now.vars.now)) (numbered hs k)) result sheet.new.marks.items }
        ensures short { (hs : List Term) (size : ℕ) → AllStand self.now.cells.now.0 hs self.now.hyps.now → Small size hs → OnErr result (length sheet.old.marks.items < size) }
    {
        let Some(p) = place_numbered(self.hyps, k) else {
            return Ok(None);
        };
        self.formula_row(which, p, sheet)
    }
}

/// The place of this number, counted from 1.
fn place_numbered(places: &[u32], k: u32) -> Option<u32>
    ensures { result ≡ numbered places.now k }
{
    if k == 0 {
        return None;
    }
    places.get(k as usize - 1).copied()
}

/// The places that count, which are all if there are not too many.
fn among_first(atoms: &[u32]) -> &[u32]
    ensures { result.now ≡ take (2 ^ 32) atoms.now }
{
    if atoms.len() > MOST_ATOMS {
        &atoms[..MOST_ATOMS]
    } else {
        atoms
    }
}

/// The row of the fact of this number, counted from 1, among the facts on atoms.
fn fact_numbered(
    cells: &Cells,
    atoms: &[u32],
    k: u32,
    sheet: &mut Sheet,
) -> Result<Option<CellRow>, Short>
    requires { length cells.now.0 ≤ sheet.old.scratch }
    ensures room { SameRoom sheet.old sheet.new }
    ensures fits { IfOk result (λ row. IfSome row (λ r. r.count ≤ length sheet.new.marks.items)) }
    ensures row { (ts : List Term) → AllStand cells.now.0 ts atoms.now → RowFound cells.now.0 (row_of_some (numbered (flat_map facts_of ts) k)) result sheet.new.marks.items }
    ensures short { (ts : List Term) (size : ℕ) → AllStand cells.now.0 ts atoms.now → Small size ts → OnErr result (length sheet.old.marks.items < size) }
{
    if k == 0 {
        return Ok(None);
    }
    let mut left = k - 1;
    for atom in atoms {
        let facts = count_facts(cells, *atom);
        if left < facts {
            return sheet.row_of_fact(cells, *atom, left);
        }
        left -= facts;
    }
    Ok(None)
}
