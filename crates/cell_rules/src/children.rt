//! The children of nodes by their number, counted from 0, and nodes with another child.

ghost use Rattle.std.specs.Prelude.{◌≡◌, ◌+◌, ℕ, true, List, ◌∷◌, IfNone, IfSome, Some, map, length, set, slice_get};
ghost use Rattle.math_terms.specs.declared.term.Term.{Term};
ghost use Rattle.math_terms.specs.declared.term.Term.TheOpen.{Term-F};
ghost use Rattle.math_terms.specs.declared.term.Term.TheViews.{out-Term, roll-Term};
ghost use Rattle.math_terms.specs.Heads.{children, form, own};
ghost use Rattle.math_terms.specs.Positions.{with_child as node_with_child};
ghost use Rattle.term_cells.specs.Growing.{Grows, IsFewForm, IsShort, StandsThere};
ghost use Rattle.term_cells.specs.KindShown.{PartAt};
ghost use Rattle.term_cells.specs.Standing.{few_stand, parts_stand, stands};
ghost use Rattle.cell_rules.specs.Exchanging.{place_of, with_place};

use math_terms::Form;
use term_cells::{
    Cell, Cells, node_stands_next, parts_last, parts_open, standing_lasts, standing_opens,
    stands_below_next,
};

/// The place of part k of a list.
pub(crate) fn part(cells: &Cells, list: u32, k: u64) -> Option<u32>
    ensures { (limit : ℕ) (ts : List Term) → parts_stand cells.now.0 (map (stands cells.now.0) ts) list limit ≡ true → PartAt cells.now.0 ts k result }
{
    parts_open();
    let cell = cells.at(list)?;
    if !cell.is_link() {
        return None;
    }
    match k.checked_sub(1) {
        None => Some(cell.a),
        Some(later) => part(cells, cell.b, later),
    }
}

/// The list with another part k. The parts before it are copied.
fn with_part(cells: &mut Cells, list: u32, k: u32, new: u32) -> Option<u32>
    ensures grown { Grows cells.old cells.new (k + 2) }
    ensures short { (limit : ℕ) (ts : List Term) (u : Term) → parts_stand cells.old.0 (map (stands cells.old.0) ts) list limit ≡ true → slice_get ts k ≡ Some u → IfNone result (IsShort cells.old (k + 2)) }
    ensures standing { (limit : ℕ) (ts : List Term) (u n : Term) → parts_stand cells.old.0 (map (stands cells.old.0) ts) list limit ≡ true → slice_get ts k ≡ Some u → stands cells.old.0 n new ≡ true → IfSome result (λ at. parts_stand cells.new.0 (map (stands cells.new.0) (set ts k n)) at (length cells.new.0) ≡ true) }
{
    standing_lasts();
    parts_open();
    let cell = cells.at(list)?;
    if !cell.is_link() {
        return None;
    }
    match k.checked_sub(1) {
        None => link(cells, new, cell.b),
        Some(later) => {
            let rest = with_part(cells, cell.b, later, new)?;
            link(cells, cell.a, rest)
        }
    }
}

/// A part before the rest of a list.
fn link(cells: &mut Cells, part: u32, rest: u32) -> Option<u32>
    ensures grown { Grows cells.old cells.new 2 }
    ensures short { IfNone result (IsShort cells.old 2) }
    ensures standing { (ts : List Term) (t : Term) → stands cells.old.0 t part ≡ true → parts_stand cells.old.0 (map (stands cells.old.0) ts) rest (length cells.old.0) ≡ true → IfSome result (λ at. parts_stand cells.new.0 (map (stands cells.new.0) (t ∷ ts)) at (length cells.new.0) ≡ true) }
{
    standing_lasts();
    parts_last();
    stands_below_next();
    cells.push(Cell::link(part, rest))
}

/// Where a cell says that child k stands.
fn place(cell: Cell, k: u32) -> u32
    ensures { result ≡ place_of cell k }
{
    match k {
        0 => cell.a,
        1 => cell.b,
        _ => cell.c,
    }
}

/// The cell with another place for child k.
fn exchange(cell: Cell, k: u32, new: u32) -> Cell
    ensures { result ≡ with_place cell k new }
{
    match k {
        0 => Cell { a: new, ..cell },
        1 => Cell { b: new, ..cell },
        _ => Cell { c: new, ..cell },
    }
}

/// The place of child k of the term at a place.
pub(crate) fn child(cells: &Cells, p: u32, k: u32) -> Option<u32>
    ensures { (t : Term) → stands cells.now.0 t p ≡ true → PartAt cells.now.0 (children (out-Term t)) k result }
{
    standing_opens();
    let cell = cells.at(p)?;
    if cell.is(Form::Tuple) {
        return part(cells, cell.a, u64::from(k));
    }
    let arity = cell.node_form()?.arity()?;
    if k < u32::from(arity) {
        Some(place(cell, k))
    } else {
        None
    }
}

/// The term at a place with another term as child k. Only the node is copied, and of a tuple the parts' list up to the child.
pub(crate) fn with_child(cells: &mut Cells, p: u32, k: u32, new: u32) -> Option<u32>
    ensures grown { Grows cells.old cells.new (k + 3) }
    ensures short { (t u : Term) → stands cells.old.0 t p ≡ true → slice_get (children (out-Term t)) k ≡ Some u → IfNone result (IsShort cells.old (k + 3)) }
    ensures standing { (t u n : Term) → stands cells.old.0 t p ≡ true → slice_get (children (out-Term t)) k ≡ Some u → stands cells.old.0 n new ≡ true → StandsThere cells.new.0 (roll-Term (node_with_child k n (out-Term t))) result }
{
    standing_opens();
    stands_below_next();
    let cell = cells.at(p)?;
    if cell.is(Form::Tuple) {
        let parts = with_part(cells, cell.a, k, new)?;
        return tuple(cells, parts);
    }
    let changed = exchange(cell, k, new);
    if cell.is(Form::Mod) {
        cells.remainder(changed.a, changed.b)
    } else {
        same_node(cells, changed)
    }
}

/// A tuple of the parts in a list.
fn tuple(cells: &mut Cells, parts: u32) -> Option<u32>
    ensures grown { Grows cells.old cells.new 2 }
    ensures short { IfNone result (IsShort cells.old 2) }
    ensures standing { (ts : List Term) → parts_stand cells.old.0 (map (stands cells.old.0) ts) parts (length cells.old.0) ≡ true → StandsThere cells.new.0 (roll-Term (Term-F.Tuple ts)) result }
{
    node_stands_next();
    cells.push(Cell {
        form: Form::Tuple.number(),
        own: 0,
        a: parts,
        b: 0,
        c: 0,
    })
}

/// One more node, neither a tuple nor a remainder.
fn same_node(cells: &mut Cells, cell: Cell) -> Option<u32>
    ensures grown { Grows cells.old cells.new 2 }
    ensures short { IfNone result (IsShort cells.old 2) }
    ensures standing { (x : Term-F Term) → cell.form ≡ form x → cell.own ≡ own x → IsFewForm (form x) → few_stand (map (stands cells.old.0) (children x)) cell (length cells.old.0) ≡ true → StandsThere cells.new.0 (roll-Term x) result }
{
    node_stands_next();
    cells.push(cell)
}
