//! Forms of the terms at places. Their products are written into a slice, from its start on.

ghost use Rattle.std.specs.Prelude.{◌≡◌, ◌+◌, ◌≤◌, ◌&&◌, ℕ, List, IfSome, length, map, take, drop, true};
ghost use Rattle.std.specs.List.{position_or_len, list_all};
ghost use Rattle.math_terms.specs.declared.term.Term.{Term};
ghost use Rattle.math_terms.specs.declared.term.Term.TheOpen.{Term-F};
ghost use Rattle.math_terms.specs.declared.term.Term.TheViews.{roll-Term};
ghost use Rattle.math_terms.specs.Heads.{same_term};
ghost use Rattle.math_terms.specs.Terms.{nodes};
ghost use Rattle.num_theory.specs.Linear as spec;
ghost use Rattle.num_theory.specs.Number.{is_narrow, is_zero};
ghost use Rattle.term_cells.specs.Standing.{stands, stands_below, quotient_stands};
ghost use Rattle.term_cells.specs.declared.cell.Cell as shape;
ghost use Rattle.cell_rows.specs.Forms.{FormOrShort, FormStands, Mark, RawStand, scaled_mark};

use math_terms::Form;
use num_theory::Number;
use term_cells::{Cell, Cells};

pub(crate) const MINUS_ONE: Number = Number::Exact(-1);

/// How many products a form has, its constant, and whether it is narrow.
#[derive(Clone, Copy)]
pub(crate) struct CellForm {
    pub count: usize,
    pub constant: Number,
    pub is_narrow: bool,
}

fn are_narrow(marks: &[(Number, u32)]) -> bool
    ensures { result ≡ list_all (λ m. is_narrow m.0) marks.now }
{
    marks.iter().all(|m| m.0.is_narrow())
}

/// Whether no product has a coefficient other than 0.
fn are_zero(marks: &[(Number, u32)]) -> bool
    ensures { result ≡ list_all (λ m. is_zero m.0) marks.now }
{
    marks.iter().all(|m| m.0.is_zero())
}

/// The place of the first product with this atom, or after the last where there is none.
fn place_of(cells: &Cells, atom: u32, marks: &[(Number, u32)]) -> usize
    ensures inside { result ≤ length marks.now }
    ensures first { (t : Term) (ps : List spec.RawProduct) → stands cells.now.0 t atom ≡ true → RawStand cells.now.0 ps marks.now → result ≡ position_or_len (λ p. same_term t p.1) ps }
{
    for k in 0..marks.len() {
        if cells.same(atom, marks[k].1) {
            return k;
        }
    }
    marks.len()
}

/// Adds a product to the one of the same atom among the first `count`, or else puts it behind them.
fn add_product(
    cells: &Cells,
    coefficient: Number,
    atom: u32,
    count: usize,
    marks: &mut [(Number, u32)],
) -> usize
    requires { count + 1 ≤ length marks.old }
    ensures few { result ≤ count + 1 }
    ensures rest { drop (count + 1) marks.new ≡ drop (count + 1) marks.old }
    ensures added { (t : Term) (ps : List spec.RawProduct) → stands cells.now.0 t atom ≡ true → RawStand cells.now.0 ps (take count marks.old) → RawStand cells.now.0 (spec.add_product (coefficient, t) ps) (take result marks.new) }
{
    let k = place_of(cells, atom, &marks[..count]);
    if k < count {
        marks[k].0 = marks[k].0.plus(coefficient);
        count
    } else {
        marks[count] = (coefficient, atom);
        count + 1
    }
}

/// Adds the products behind the first `count`, of which there are `more`, to those.
fn add_products(cells: &Cells, count: usize, more: usize, marks: &mut [(Number, u32)]) -> usize
    requires { count + more ≤ length marks.old }
    ensures few { result ≤ count + more }
    ensures added { (ps qs : List spec.RawProduct) → RawStand cells.now.0 ps (take count marks.old) → RawStand cells.now.0 qs (take more (drop count marks.old)) → RawStand cells.now.0 (spec.add_products ps qs) (take result marks.new) }
{
    let mut total = count;
    for k in 0..more {
        let (coefficient, atom) = marks[count + k];
        total = add_product(cells, coefficient, atom, total, marks);
    }
    total
}

/// Puts the products behind the first `count`, of which there are `more`, at the start.
fn move_down(count: usize, more: usize, marks: &mut [(Number, u32)])
    requires { count + more ≤ length marks.old }
    ensures { take more marks.new ≡ take more (drop count marks.old) }
{
    for k in 0..more {
        marks[k] = marks[count + k];
    }
}

fn scale(by: Number, marks: &mut [(Number, u32)])
    ensures { marks.new ≡ map (scaled_mark by) marks.old }
{
    for m in marks.iter_mut() {
        m.0 = by.times(m.0);
    }
}

fn both(a: bool, b: bool) -> bool
    ensures { result ≡ (a && b) }
{
    a && b
}

/// Whether the parts, the products and the constant are narrow.
fn all_narrow(parts: bool, marks: &[(Number, u32)], constant: Number) -> bool
    ensures { result ≡ (parts && list_all (λ m. is_narrow m.0) marks.now && is_narrow constant) }
{
    parts && are_narrow(marks) && constant.is_narrow()
}

/// A form with the first `count` products, made from forms that are narrow or not.
fn made(parts: bool, count: usize, constant: Number, marks: &[(Number, u32)]) -> CellForm
    requires { count ≤ length marks.now }
    ensures count { result.count ≡ count }
    ensures made { (cells : List shape.Cell) (ps : List spec.RawProduct) (most : ℕ) → RawStand cells ps (take count marks.now) → count ≤ most → FormStands cells (spec.made parts ps constant) most result marks.now }
{
    let is_narrow = all_narrow(parts, &marks[..count], constant);
    CellForm {
        count,
        constant,
        is_narrow,
    }
}

pub(crate) fn constant_form(number: i64) -> CellForm
    ensures count { result.count ≡ 0 }
    ensures form { (cells : List shape.Cell) (most : ℕ) (marks : List Mark) → FormStands cells (spec.constant_form number) most result marks }
{
    let constant = Number::Exact(i128::from(number));
    CellForm {
        count: 0,
        constant,
        is_narrow: all_narrow(true, &[], constant),
    }
}

/// The term at the place as an atom.
pub(crate) fn atom_form(p: u32, marks: &mut [(Number, u32)]) -> Option<CellForm>
    ensures fits { IfSome result (λ f. f.count ≤ length marks.new) }
    ensures form { (cells : List shape.Cell) (t : Term) (most : ℕ) → stands cells t p ≡ true → 1 ≤ most → FormOrShort cells (spec.atom_form t) most result marks.new }
{
    let first = marks.first_mut()?;
    *first = (Number::Exact(1), p);
    Some(CellForm {
        count: 1,
        constant: Number::Exact(0),
        is_narrow: true,
    })
}

/// The sum of two forms, of which the products of the second come behind those of the first.
pub(crate) fn plus(cells: &Cells, f: CellForm, g: CellForm, marks: &mut [(Number, u32)]) -> CellForm
    requires { f.count + g.count ≤ length marks.old }
    ensures fits { result.count ≤ length marks.new }
    ensures form { (a b : spec.Form) (m n : ℕ) → FormStands cells.now.0 a m f marks.old → FormStands cells.now.0 b n g (drop f.count marks.old) → FormStands cells.now.0 (spec.plus a b) (m + n) result marks.new }
{
    let count = add_products(cells, f.count, g.count, marks);
    let is_narrow = both(f.is_narrow, g.is_narrow);
    made(is_narrow, count, f.constant.plus(g.constant), marks)
}

pub(crate) fn times(by: Number, f: CellForm, marks: &mut [(Number, u32)]) -> CellForm
    requires { f.count ≤ length marks.old }
    ensures count { result.count ≡ f.count }
    ensures form { (cells : List shape.Cell) (a : spec.Form) (m : ℕ) → FormStands cells a m f marks.old → FormStands cells (spec.times by a) m result marks.new }
{
    scale(by, &mut marks[..f.count]);
    made(f.is_narrow, f.count, by.times(f.constant), marks)
}

/// The constant of the form `f` times the form `g`.
pub(crate) fn multiple(f: CellForm, g: CellForm, marks: &mut [(Number, u32)]) -> CellForm
    requires { g.count ≤ length marks.old }
    ensures count { result.count ≡ g.count }
    ensures form { (cells : List shape.Cell) (a b : spec.Form) (m : ℕ) → f.constant ≡ a.constant → f.is_narrow ≡ a.is_narrow → FormStands cells b m g marks.old → FormStands cells (spec.multiple a b) m result marks.new }
{
    let product = times(f.constant, g, marks);
    let is_narrow = both(f.is_narrow, g.is_narrow);
    made(is_narrow, product.count, product.constant, marks)
}

/// The form of the term at a place. There is none where the slice has fewer places than the term has nodes.
#[cycle(form)]
pub(crate) fn form(cells: &Cells, p: u32, marks: &mut [(Number, u32)]) -> Option<CellForm>
    ensures fits { IfSome result (λ f. f.count ≤ length marks.new) }
    ensures form { (t : Term) → stands cells.now.0 t p ≡ true → FormOrShort cells.now.0 (spec.formed t).1 (nodes t) result marks.new }
{
    let cell = cells.at(p)?;
    if cell.is(Form::Num) {
        return Some(constant_form(cell.own));
    }
    if cell.is(Form::Add) {
        return sum_form(cells, p, cell, marks);
    }
    if cell.is(Form::Sub) {
        return difference_form(cells, p, cell, marks);
    }
    if cell.is(Form::Mul) {
        return product_form(cells, p, cell, marks);
    }
    if cell.is(Form::Mod) {
        return remainder_form(cells, p, cell, marks);
    }
    atom_form(p, marks)
}

/// The same, where the place is below another.
#[cycle(form)]
pub(crate) fn form_below(
    cells: &Cells,
    limit: u32,
    p: u32,
    marks: &mut [(Number, u32)],
) -> Option<CellForm>
    ensures fits { IfSome result (λ f. f.count ≤ length marks.new) }
    ensures form { (t : Term) → stands_below (stands cells.now.0 t) p limit ≡ true → FormOrShort cells.now.0 (spec.formed t).1 (nodes t) result marks.new }
{
    if p < limit {
        form(cells, p, marks)
    } else {
        None
    }
}

/// The sum of the forms of a cell's children.
#[cycle(form)]
fn sum_form(cells: &Cells, p: u32, cell: Cell, marks: &mut [(Number, u32)]) -> Option<CellForm>
    ensures fits { IfSome result (λ f. f.count ≤ length marks.new) }
    ensures form { (t u : Term) → stands_below (stands cells.now.0 t) cell.a p ≡ true → stands_below (stands cells.now.0 u) cell.b p ≡ true → FormOrShort cells.now.0 (spec.plus (spec.formed t).1 (spec.formed u).1) (nodes t + nodes u) result marks.new }
{
    let f = form_below(cells, p, cell.a, marks)?;
    let g = form_below(cells, p, cell.b, &mut marks[f.count..])?;
    Some(plus(cells, f, g, marks))
}

/// The form of the first child minus that of the second.
#[cycle(form)]
pub(crate) fn difference_form(
    cells: &Cells,
    p: u32,
    cell: Cell,
    marks: &mut [(Number, u32)],
) -> Option<CellForm>
    ensures fits { IfSome result (λ f. f.count ≤ length marks.new) }
    ensures form { (t u : Term) → stands_below (stands cells.now.0 t) cell.a p ≡ true → stands_below (stands cells.now.0 u) cell.b p ≡ true → FormOrShort cells.now.0 (spec.plus (spec.formed t).1 (spec.times spec.minus_one (spec.formed u).1)) (nodes t + nodes u) result marks.new }
{
    let f = form_below(cells, p, cell.a, marks)?;
    let g = form_below(cells, p, cell.b, &mut marks[f.count..])?;
    let negated = times(MINUS_ONE, g, &mut marks[f.count..]);
    Some(plus(cells, f, negated, marks))
}

/// The form of the product at a place.
#[cycle(form)]
fn product_form(cells: &Cells, p: u32, cell: Cell, marks: &mut [(Number, u32)]) -> Option<CellForm>
    ensures fits { IfSome result (λ f. f.count ≤ length marks.new) }
    ensures form { (t u : Term) → stands cells.now.0 (roll-Term (Term-F.Mul t u)) p ≡ true → stands_below (stands cells.now.0 t) cell.a p ≡ true → stands_below (stands cells.now.0 u) cell.b p ≡ true → FormOrShort cells.now.0 (spec.product_form (spec.formed t) (spec.formed u)) (1 + nodes t + nodes u) result marks.new }
{
    let f = form_below(cells, p, cell.a, marks)?;
    let g = form_below(cells, p, cell.b, &mut marks[f.count..])?;
    if are_zero(&marks[f.count..f.count + g.count]) {
        return Some(multiple(g, f, marks));
    }
    if are_zero(&marks[..f.count]) {
        move_down(f.count, g.count, marks);
        return Some(multiple(f, g, marks));
    }
    atom_form(p, marks)
}

/// The form of the remainder at a place.
#[cycle(form)]
fn remainder_form(
    cells: &Cells,
    p: u32,
    cell: Cell,
    marks: &mut [(Number, u32)],
) -> Option<CellForm>
    ensures fits { IfSome result (λ f. f.count ≤ length marks.new) }
    ensures form { (t u : Term) → stands cells.now.0 (roll-Term (Term-F.Mod t u)) p ≡ true → stands cells.now.0 (roll-Term (Term-F.Div t u)) cell.c ≡ true → stands_below (stands cells.now.0 t) cell.a p ≡ true → stands_below (stands cells.now.0 u) cell.b p ≡ true → FormOrShort cells.now.0 (spec.remainder_form (spec.formed t) (spec.formed u)) (1 + nodes t + nodes u) result marks.new }
{
    let divisor = cells.at(cell.b)?;
    if !divisor.is(Form::Num) {
        return atom_form(p, marks);
    }
    if divisor.own <= 0 {
        return atom_form(p, marks);
    }
    let f = form_below(cells, p, cell.a, marks)?;
    let g = rounded_form(divisor.own, cell.c, &mut marks[f.count..])?;
    Some(plus(cells, f, g, marks))
}

/// The quotient at a place times a number, negated.
fn rounded_form(number: i64, quotient: u32, marks: &mut [(Number, u32)]) -> Option<CellForm>
    ensures fits { IfSome result (λ f. f.count ≤ length marks.new) }
    ensures form { (cells : List shape.Cell) (q : Term) → stands cells q quotient ≡ true → FormOrShort cells (spec.multiple (spec.times spec.minus_one (spec.constant_form number)) (spec.atom_form q)) 1 result marks.new }
{
    let atom = atom_form(quotient, marks)?;
    Some(multiple(negated_constant(number), atom, marks))
}

/// The number times -1 as a form.
fn negated_constant(number: i64) -> CellForm
    ensures constant { result.constant ≡ (spec.times spec.minus_one (spec.constant_form number)).constant }
    ensures narrow { result.is_narrow ≡ (spec.times spec.minus_one (spec.constant_form number)).is_narrow }
{
    let exact = constant_form(number);
    let constant = MINUS_ONE.times(exact.constant);
    let is_narrow = all_narrow(exact.is_narrow, &[], constant);
    CellForm {
        count: 0,
        constant,
        is_narrow,
    }
}
