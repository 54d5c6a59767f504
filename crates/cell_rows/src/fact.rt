//! Facts on the atoms at places, and their forms. No term is made for a fact.

ghost use Rattle.std.specs.Prelude.{◌≡◌, ◌+◌, ◌≤◌, ℕ, List, pos, negsuc, true, IfOk, IfSome, Some, length, slice_get};
ghost use Rattle.math_terms.specs.declared.term.Term.{Term};
ghost use Rattle.math_terms.specs.declared.term.Term.TheViews.{out-Term};
ghost use Rattle.math_terms.specs.Terms.{nodes};
ghost use Rattle.num_theory.specs.Linear as spec;
ghost use Rattle.num_theory.specs.Table.{facts_of};
ghost use Rattle.term_cells.specs.declared.cell.Cell as shape;
ghost use Rattle.term_cells.specs.Standing.{stands, stands_below};
ghost use Rattle.cell_rows.specs.working.Facts.{literal_of, lower_form, multiple_form, upper_form, last_form};
ghost use Rattle.cell_rows.specs.Forms.{FormOrShort};
ghost use Rattle.cell_rows.specs.RowsStand.{RowOrShort, fact_form, fact_row};
ghost use Rattle.cell_rows.specs.Sequents.{SameRoom};

use crate::difference::{CellRow, Short, minus};
use crate::forms::{CellForm, atom_form, constant_form, form_below, multiple, plus};
use crate::sheet::Sheet;
use math_terms::Form;
use num_theory::Number;
use term_cells::{Cell, Cells};

/// The number at a place, 0 where there is another term.
fn literal(cells: &Cells, p: u32) -> i64
    ensures { (t : Term) → stands cells.now.0 t p ≡ true → result ≡ literal_of (out-Term t) }
{
    let Some(cell) = cells.at(p) else {
        return 0;
    };
    if cell.is(Form::Num) { cell.own } else { 0 }
}

/// How many facts there are on the atom at a place.
pub(crate) fn count_facts(cells: &Cells, p: u32) -> u32
    ensures few { result ≤ 2 }
    ensures count { (t : Term) → stands cells.now.0 t p ≡ true → result ≡ length (facts_of t) }
{
    let Some(cell) = cells.at(p) else {
        return 0;
    };
    if cell.is(Form::Len) {
        return 1;
    }
    if cell.is(Form::Div) {
        return if literal(cells, cell.b) > 0 { 2 } else { 0 };
    }
    0
}

impl Sheet {
    /// The row of fact k, counted from 0, on the atom at a place.
    pub(crate) fn row_of_fact(
        &mut self,
        cells: &Cells,
        p: u32,
        k: u32,
    ) -> Result<Option<CellRow>, Short>
        requires { length cells.now.0 ≤ self.old.scratch }
        ensures room { SameRoom self.old self.new }
        ensures fits { IfOk result (λ row. IfSome row (λ r. r.count ≤ length self.new.marks.items)) }
        ensures row { (t f : Term) → stands cells.now.0 t p ≡ true → slice_get (facts_of t) k ≡ Some f → RowOrShort cells.now.0 (fact_row f) (nodes t) result self.new.marks.items }
    {
        let Some(form) = form_of_fact(cells, p, k, &mut self.marks) else {
            return Err(Short);
        };
        Ok(self.row_of_form(cells, form, 0))
    }
}

/// The form of the right side of a fact minus its left side.
fn form_of_fact(cells: &Cells, p: u32, k: u32, marks: &mut [(Number, u32)]) -> Option<CellForm>
    ensures fits { IfSome result (λ f. f.count ≤ length marks.new) }
    ensures form { (t f : Term) → stands cells.now.0 t p ≡ true → slice_get (facts_of t) k ≡ Some f → FormOrShort cells.now.0 (fact_form f) (nodes t) result marks.new }
{
    let cell = cells.at(p)?;
    if cell.is(Form::Len) {
        return atom_form(p, marks);
    }
    let number = literal(cells, cell.b);
    if k == 0 {
        lower(cells, p, cell, number, marks)
    } else {
        upper(cells, p, cell, number, marks)
    }
}

/// The number times the term at a place, which is an atom.
fn multiple_of(number: i64, p: u32, marks: &mut [(Number, u32)]) -> Option<CellForm>
    ensures fits { IfSome result (λ f. f.count ≤ length marks.new) }
    ensures form { (cells : List shape.Cell) (q : Term) → stands cells q p ≡ true → FormOrShort cells (multiple_form number q) 1 result marks.new }
{
    let atom = atom_form(p, marks)?;
    Some(multiple(constant_form(number), atom, marks))
}

/// The divided term minus the number times the quotient, which stands at p with this cell.
fn lower(
    cells: &Cells,
    p: u32,
    cell: Cell,
    number: i64,
    marks: &mut [(Number, u32)],
) -> Option<CellForm>
    ensures fits { IfSome result (λ f. f.count ≤ length marks.new) }
    ensures form { (t q : Term) → stands_below (stands cells.now.0 t) cell.a p ≡ true → stands cells.now.0 q p ≡ true → FormOrShort cells.now.0 (lower_form number q t) (nodes t + 1) result marks.new }
{
    let f = form_below(cells, p, cell.a, marks)?;
    let g = multiple_of(number, p, &mut marks[f.count..])?;
    Some(minus(cells, f, g, marks))
}

/// The number times the quotient, and the number less 1, minus the divided term.
fn upper(
    cells: &Cells,
    p: u32,
    cell: Cell,
    number: i64,
    marks: &mut [(Number, u32)],
) -> Option<CellForm>
    ensures fits { IfSome result (λ f. f.count ≤ length marks.new) }
    ensures form { (t q : Term) → stands_below (stands cells.now.0 t) cell.a p ≡ true → stands cells.now.0 q p ≡ true → FormOrShort cells.now.0 (upper_form number q t) (1 + nodes t) result marks.new }
{
    let f = last_of(cells, number, p, marks)?;
    let g = form_below(cells, p, cell.a, &mut marks[f.count..])?;
    Some(minus(cells, f, g, marks))
}

/// The number times the quotient at a place, and the number less 1.
fn last_of(cells: &Cells, number: i64, p: u32, marks: &mut [(Number, u32)]) -> Option<CellForm>
    ensures fits { IfSome result (λ f. f.count ≤ length marks.new) }
    ensures form { (q : Term) → stands cells.now.0 q p ≡ true → FormOrShort cells.now.0 (last_form number q) 1 result marks.new }
{
    let product = multiple_of(number, p, marks)?;
    let past = plus(cells, product, constant_form(number), marks);
    Some(minus(cells, past, constant_form(1), marks))
}
