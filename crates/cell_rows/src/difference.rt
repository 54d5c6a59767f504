//! Rows of comparisons: the form of the one side minus that of the other, as it is shown.

ghost use Rattle.std.specs.Prelude.{◌≡◌, ◌+◌, ◌≤◌, ℕ, IfOk, IfSome, drop, length, true};
ghost use Rattle.math_terms.specs.declared.term.Term.{Term};
ghost use Rattle.math_terms.specs.Terms.{nodes};
ghost use Rattle.num_theory.specs.Linear as spec;
ghost use Rattle.num_theory.specs.working.Making.{IsWellMade};
ghost use Rattle.term_cells.specs.Standing.{stands, stands_below};
ghost use Rattle.cell_rows.specs.Forms.{FormStands};
ghost use Rattle.cell_rows.specs.RowsStand.{RowOrShort, RowStands, difference_row, shifted};
ghost use Rattle.cell_rows.specs.Sequents.{SameRoom};

use crate::forms::{CellForm, MINUS_ONE, difference_form, plus, times};
use crate::order::shown;
use crate::sheet::Sheet;
use num_theory::Number;
use term_cells::{Cell, Cells};

/// How many products a row has, at the start of a slice, and its constant.
#[derive(Clone, Copy)]
pub(crate) struct CellRow {
    pub count: usize,
    pub constant: Number,
}

/// There are fewer places than were needed.
#[derive(Clone, Copy, Debug)]
pub struct Short;

impl Sheet {
    /// The row of a form, whose products are at the start, with a number added to its constant, where both are narrow.
    pub(crate) fn row_of_form(
        &mut self,
        cells: &Cells,
        form: CellForm,
        shift: i64,
    ) -> Option<CellRow>
        requires readable { length cells.now.0 ≤ self.old.scratch }
        requires within { form.count ≤ length self.old.marks.items }
        ensures room { SameRoom self.old self.new }
        ensures fits { IfSome result (λ r. r.count ≤ length self.new.marks.items) }
        ensures row { (f : spec.Form) (most : ℕ) → IsWellMade f → FormStands cells.now.0 f most form self.old.marks.items → RowStands cells.now.0 (shifted shift (spec.shown_form f)) result self.new.marks.items }
    {
        if !form.is_narrow {
            return None;
        }
        let constant = form.constant.plus(Number::Exact(i128::from(shift)));
        if !constant.is_narrow() {
            return None;
        }
        let count = shown(cells, form.count, &mut self.scratch, &mut self.marks);
        Some(CellRow { count, constant })
    }

    /// The row of `first <= second` for the two children of a cell, and with the shift -1 that of `first < second`.
    pub(crate) fn comparison_row(
        &mut self,
        cells: &Cells,
        p: u32,
        cell: Cell,
        shift: i64,
    ) -> Result<Option<CellRow>, Short>
        requires { length cells.now.0 ≤ self.old.scratch }
        ensures room { SameRoom self.old self.new }
        ensures fits { IfOk result (λ row. IfSome row (λ r. r.count ≤ length self.new.marks.items)) }
        ensures row { (t u : Term) → stands_below (stands cells.now.0 t) cell.a p ≡ true → stands_below (stands cells.now.0 u) cell.b p ≡ true → RowOrShort cells.now.0 (difference_row shift t u) (nodes u + nodes t) result self.new.marks.items }
    {
        let exchanged = exchange(cell);
        let Some(form) = difference_form(cells, p, exchanged, &mut self.marks) else {
            return Err(Short);
        };
        Ok(self.row_of_form(cells, form, shift))
    }
}

/// The same cell with its first two children exchanged.
pub(crate) fn exchange(cell: Cell) -> Cell
    ensures { result ≡ record cell { a = cell.b; b = cell.a } }
{
    Cell {
        form: cell.form,
        own: cell.own,
        a: cell.b,
        b: cell.a,
        c: cell.c,
    }
}

/// The first form minus the second, whose products come behind those of the first.
pub(crate) fn minus(
    cells: &Cells,
    f: CellForm,
    g: CellForm,
    marks: &mut [(Number, u32)],
) -> CellForm
    requires { f.count + g.count ≤ length marks.old }
    ensures fits { result.count ≤ length marks.new }
    ensures form { (a b : spec.Form) (m n : ℕ) → FormStands cells.now.0 a m f marks.old → FormStands cells.now.0 b n g (drop f.count marks.old) → FormStands cells.now.0 (spec.plus a (spec.times spec.minus_one b)) (m + n) result marks.new }
{
    let negated = times(MINUS_ONE, g, &mut marks[f.count..]);
    plus(cells, f, negated, marks)
}
