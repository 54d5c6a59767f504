//! Products without those of coefficient 0, in the order of their atoms' texts.

ghost use Rattle.std.specs.Prelude.{◌≡◌, ◌≤◌, ◌∷◌, List, length, take, not, true};
ghost use Rattle.std.specs.List.{filter};
ghost use Rattle.num_theory.specs.Linear as spec;
ghost use Rattle.num_theory.specs.Number.{is_zero};
ghost use Rattle.cell_rows.specs.Forms.{Mark, ProductsStand, RawStand};

use num_theory::Number;
use term_cells::{Cells, Scratch};

/// The products that are shown, among the first `count`, come first, in order. The answer is how many there are.
pub(crate) fn shown(
    cells: &Cells,
    count: usize,
    scratch: &mut Scratch,
    marks: &mut [(Number, u32)],
) -> usize
    requires readable { length cells.now.0 ≤ scratch.old }
    requires within { count ≤ length marks.old }
    ensures room { scratch.new ≡ scratch.old }
    ensures few { result ≤ count }
    ensures shown { (ps : List spec.RawProduct) → spec.narrow_products ps ≡ true → RawStand cells.now.0 ps (take count marks.old) → ProductsStand cells.now.0 (spec.shown ps) (take result marks.new) }
{
    let kept = drop_zeros(&mut marks[..count]);
    in_text_order(cells, scratch, &mut marks[..kept]);
    kept
}

/// The products with coefficients other than 0 come first. The answer is how many there are.
fn drop_zeros(marks: &mut [(Number, u32)]) -> usize
    ensures few { result ≤ length marks.old }
    ensures kept { take result marks.new ≡ filter (λ m. not (is_zero m.0)) marks.old }
{
    let mut kept = 0;
    for k in 0..marks.len() {
        let mark = marks[k];
        if !mark.0.is_zero() {
            marks[kept] = mark;
            kept += 1;
        }
    }
    kept
}

fn in_text_order(cells: &Cells, scratch: &mut Scratch, marks: &mut [(Number, u32)])
    requires { length cells.now.0 ≤ scratch.old }
    ensures room { scratch.new ≡ scratch.old }
    ensures ordered { (ps : List spec.Product) → ProductsStand cells.now.0 ps marks.old → ProductsStand cells.now.0 (spec.in_text_order ps) marks.new }
{
    if marks.is_empty() {
        return;
    }
    in_text_order(cells, scratch, &mut marks[1..]);
    insert(cells, scratch, marks);
}

/// The first product goes to its place among the others, which are in order.
fn insert(cells: &Cells, scratch: &mut Scratch, marks: &mut [(Number, u32)])
    requires { length cells.now.0 ≤ scratch.old }
    ensures room { scratch.new ≡ scratch.old }
    ensures placed { (p : spec.Product) (ps : List spec.Product) → ProductsStand cells.now.0 (p ∷ ps) marks.old → ProductsStand cells.now.0 (spec.insert_product p ps) marks.new }
{
    if marks.len() < 2 {
        return;
    }
    let first = marks[0];
    let second = marks[1];
    if cells.before(first.1, second.1, scratch) {
        return;
    }
    marks[0] = second;
    marks[1] = first;
    insert(cells, scratch, &mut marks[1..]);
}
