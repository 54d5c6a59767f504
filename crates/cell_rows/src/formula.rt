//! The rows of formulas, and those of the negations of goals.

ghost use Rattle.std.specs.Prelude.{◌≡◌, ◌+◌, ◌≤◌, ◌&&◌, pos, IfOk, IfSome, length, true};
ghost use Rattle.math_terms.specs.declared.term.Term.{Term};
ghost use Rattle.math_terms.specs.Kinds.{kind};
ghost use Rattle.math_terms.specs.Sorts.{is_z};
ghost use Rattle.math_terms.specs.Terms.{nodes};
ghost use Rattle.term_cells.specs.KindShown.{sorts_of_vars};
ghost use Rattle.term_cells.specs.Standing.{stands, stands_below};
ghost use Rattle.cell_rows.specs.working.FormulaRows.{formula_row};
ghost use Rattle.cell_rows.specs.RowsStand as spec;
ghost use Rattle.cell_rows.specs.Sequents.{SameRoom};

use crate::difference::{CellRow, Short, exchange};
use crate::sequent::CellSequent;
use crate::sheet::Sheet;
use math_terms::Form;
use term_cells::Cell;

/// Which row of a formula: an equation has a second one.
#[derive(Clone, Copy, Debug)]
pub(crate) enum Which {
    First,
    Second,
}

impl<'a> CellSequent<'a> {
    /// A row of the formula at a place, where there is one.
    pub(crate) fn formula_row(
        &self,
        which: Which,
        p: u32,
        sheet: &mut Sheet,
    ) -> Result<Option<CellRow>, Short>
        requires { length self.now.cells.now.0 ≤ sheet.old.scratch }
        ensures room { SameRoom sheet.old sheet.new }
        ensures fits { IfOk result (λ row. IfSome row (λ r. r.count ≤ length sheet.new.marks.items)) }
        ensures row { (t : Term) → stands self.now.cells.now.0 t p ≡ true → spec.RowOrShort self.now.cells.now.0 (formula_row which (sorts_of_vars self.now.vars.now) t) (nodes t) result sheet.new.marks.items }
    {
        match which {
            Which::First => self.first_row(p, sheet),
            Which::Second => self.second_row(p, sheet),
        }
    }

    /// The first row of the formula at a place, where there is one.
    fn first_row(&self, p: u32, sheet: &mut Sheet) -> Result<Option<CellRow>, Short>
        requires { length self.now.cells.now.0 ≤ sheet.old.scratch }
        ensures room { SameRoom sheet.old sheet.new }
        ensures fits { IfOk result (λ row. IfSome row (λ r. r.count ≤ length sheet.new.marks.items)) }
        ensures row { (t : Term) → stands self.now.cells.now.0 t p ≡ true → spec.RowOrShort self.now.cells.now.0 (spec.first_row (sorts_of_vars self.now.vars.now) t) (nodes t) result sheet.new.marks.items }
    {
        let Some(cell) = self.cells.at(p) else {
            return Ok(None);
        };
        if cell.is(Form::LessEq) {
            return sheet.comparison_row(self.cells, p, cell, 0);
        }
        if cell.is(Form::Less) {
            return sheet.comparison_row(self.cells, p, cell, -1);
        }
        if cell.is(Form::Eq) {
            return self.equation_row(p, cell, sheet);
        }
        Ok(None)
    }

    /// The second row of the formula at a place, where there is one.
    fn second_row(&self, p: u32, sheet: &mut Sheet) -> Result<Option<CellRow>, Short>
        requires { length self.now.cells.now.0 ≤ sheet.old.scratch }
        ensures room { SameRoom sheet.old sheet.new }
        ensures fits { IfOk result (λ row. IfSome row (λ r. r.count ≤ length sheet.new.marks.items)) }
        ensures row { (t : Term) → stands self.now.cells.now.0 t p ≡ true → spec.RowOrShort self.now.cells.now.0 (spec.second_row (sorts_of_vars self.now.vars.now) t) (nodes t) result sheet.new.marks.items }
    {
        let Some(cell) = self.cells.at(p) else {
            return Ok(None);
        };
        if cell.is(Form::Eq) {
            return self.equation_row(p, exchange(cell), sheet);
        }
        Ok(None)
    }

    /// The row of `first <= second` for the two children of a cell, where both are numbers.
    fn equation_row(&self, p: u32, cell: Cell, sheet: &mut Sheet) -> Result<Option<CellRow>, Short>
        requires { length self.now.cells.now.0 ≤ sheet.old.scratch }
        ensures room { SameRoom sheet.old sheet.new }
        ensures fits { IfOk result (λ row. IfSome row (λ r. r.count ≤ length sheet.new.marks.items)) }
        ensures row { (t u : Term) → stands_below (stands self.now.cells.now.0 t) cell.a p ≡ true → stands_below (stands self.now.cells.now.0 u) cell.b p ≡ true → spec.RowOrShort self.now.cells.now.0 (spec.equation_row (sorts_of_vars self.now.vars.now) t u (spec.difference_row (pos 0) t u)) (nodes u + nodes t) result sheet.new.marks.items }
    {
        if !self.are_numbers(cell) {
            return Ok(None);
        }
        sheet.comparison_row(self.cells, p, cell, 0)
    }

    /// The row of the negation of the goal, where there is one.
    pub(crate) fn goal_row(&self, sheet: &mut Sheet) -> Result<Option<CellRow>, Short>
        requires { length self.now.cells.now.0 ≤ sheet.old.scratch }
        ensures room { SameRoom sheet.old sheet.new }
        ensures fits { IfOk result (λ row. IfSome row (λ r. r.count ≤ length sheet.new.marks.items)) }
        ensures row { (t : Term) → stands self.now.cells.now.0 t self.now.goal ≡ true → spec.RowOrShort self.now.cells.now.0 (spec.goal_row t) (nodes t) result sheet.new.marks.items }
    {
        let Some(cell) = self.cells.at(self.goal) else {
            return Ok(None);
        };
        if cell.is(Form::Less) {
            return sheet.comparison_row(self.cells, self.goal, exchange(cell), 0);
        }
        if cell.is(Form::LessEq) {
            return sheet.comparison_row(self.cells, self.goal, exchange(cell), -1);
        }
        Ok(None)
    }

    /// Whether the kinds of a cell's first two children are that of numbers.
    fn are_numbers(&self, cell: Cell) -> bool
        ensures { (t u : Term) → stands self.now.cells.now.0 t cell.a ≡ true → stands self.now.cells.now.0 u cell.b ≡ true → result ≡ (is_z (kind (sorts_of_vars self.now.vars.now) t) && is_z (kind (sorts_of_vars self.now.vars.now) u)) }
    {
        self.is_number(cell.a) && self.is_number(cell.b)
    }

    fn is_number(&self, p: u32) -> bool
        ensures { (t : Term) → stands self.now.cells.now.0 t p ≡ true → result ≡ is_z (kind (sorts_of_vars self.now.vars.now) t) }
    {
        self.cells.is_number(p, self.vars)
    }
}
