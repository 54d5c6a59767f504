//! Sketches put into cells.

ghost use Rattle.std.specs.Prelude.{◌≡◌, pos, true, List, [], ◌∷◌, IfNone, IfSome};
ghost use Rattle.math_terms.specs.declared.term.Term.{Term};
ghost use Rattle.math_terms.specs.Forms.{form_number};
ghost use Rattle.term_cells.specs.Growing.{Grows, IsShort, StandsAs, StandsThere};
ghost use Rattle.term_cells.specs.Placed.{AllStand};
ghost use Rattle.term_cells.specs.Standing.{stands};
ghost use Rattle.str_theory.specs.Forms.{cat as cat_term, part as part_term, reversed as reversed_term, truth as truth_term};
ghost use Rattle.cell_rules.specs.declared.sketch.Text.TheVariants as text_forms;
ghost use Rattle.cell_rules.specs.Giving.{Stands, places};
ghost use Rattle.cell_rules.specs.Sketches.{ShowAll, ShowsAtMost, ShowsCount, ShowsSmall, ShowsText, ShowsWritten, listed};

use crate::rewritten::{Conditions, Rewritten};
use crate::sketch::{AtMost, Bounds, Count, Sketch, Small, Text, Written};
use math_terms::Form;
use term_cells::{Cell, Cells, node_stands_next, standing_lasts, stands_below_next};

fn put_small(cells: &mut Cells, small: Small) -> Option<u32>
    ensures grown { Grows cells.old cells.new 2 }
    ensures short { IfNone result (IsShort cells.old 2) }
    ensures standing { (t : Term) → ShowsSmall cells.old.0 small t → StandsThere cells.new.0 t result }
{
    match small {
        Small::At(p) => Some(p),
        Small::Constant(n) => cells.leaf(Form::Num, n),
        Small::Length(p) => cells.one(Form::Len, 0, p),
    }
}

/// A node over two small numbers.
fn put_two(cells: &mut Cells, form: Form, left: Small, right: Small) -> Option<u32>
    ensures grown { Grows cells.old cells.new 4 }
    ensures short { IfNone result (IsShort cells.old 4) }
    ensures standing { (a b : Term) → ShowsSmall cells.old.0 left a → ShowsSmall cells.old.0 right b → StandsAs cells.new.0 (form_number form) (pos 0) (a ∷ b ∷ []) result }
{
    standing_lasts();
    let left = put_small(cells, left)?;
    let right = put_small(cells, right)?;
    cells.two(form, left, right)
}

fn put_count(cells: &mut Cells, count: Count) -> Option<u32>
    ensures grown { Grows cells.old cells.new 4 }
    ensures short { IfNone result (IsShort cells.old 4) }
    ensures standing { (t : Term) → ShowsCount cells.old.0 count t → StandsThere cells.new.0 t result }
{
    match count {
        Count::Just(small) => put_small(cells, small),
        Count::Sum(left, right) => put_two(cells, Form::Add, left, right),
        Count::Difference(left, right) => put_two(cells, Form::Sub, left, right),
    }
}

/// A part of a string.
fn part(cells: &mut Cells, from: u32, to: u32, text: u32) -> Option<u32>
    ensures grown { Grows cells.old cells.new 2 }
    ensures short { IfNone result (IsShort cells.old 2) }
    ensures standing { (i j a : Term) → stands cells.old.0 i from ≡ true → stands cells.old.0 j to ≡ true → stands cells.old.0 a text ≡ true → StandsThere cells.new.0 (part_term i j a) result }
{
    node_stands_next();
    stands_below_next();
    cells.push(Cell {
        form: Form::Part.number(),
        own: 0,
        a: from,
        b: to,
        c: text,
    })
}

fn put_part(cells: &mut Cells, from: Count, to: Count, text: u32) -> Option<u32>
    ensures grown { Grows cells.old cells.new 8 }
    ensures short { IfNone result (IsShort cells.old 8) }
    ensures standing { (t : Term) → ShowsText cells.old.0 (text_forms.Part from to text) t → StandsThere cells.new.0 t result }
{
    standing_lasts();
    let from = put_count(cells, from)?;
    let to = put_count(cells, to)?;
    part(cells, from, to, text)
}

fn put_text(cells: &mut Cells, text: Text) -> Option<u32>
    ensures grown { Grows cells.old cells.new 8 }
    ensures short { IfNone result (IsShort cells.old 8) }
    ensures standing { (t : Term) → ShowsText cells.old.0 text t → StandsThere cells.new.0 t result }
{
    match text {
        Text::At(p) => Some(p),
        Text::Empty => cells.leaf(Form::Empty, 0),
        Text::Reversed(p) => cells.one(Form::Reverse, 0, p),
        Text::Part(from, to, p) => put_part(cells, from, to, p),
    }
}

/// One string after another.
fn put_cat(cells: &mut Cells, left: Text, right: Text) -> Option<u32>
    ensures grown { Grows cells.old cells.new 16 }
    ensures short { IfNone result (IsShort cells.old 16) }
    ensures standing { (a b : Term) → ShowsText cells.old.0 left a → ShowsText cells.old.0 right b → StandsThere cells.new.0 (cat_term a b) result }
{
    standing_lasts();
    let left = put_text(cells, left)?;
    let right = put_text(cells, right)?;
    cells.two(Form::Cat, left, right)
}

/// Three strings one after another.
fn put_cats(cells: &mut Cells, first: Text, second: Text, third: Text) -> Option<u32>
    ensures grown { Grows cells.old cells.new 24 }
    ensures short { IfNone result (IsShort cells.old 24) }
    ensures standing { (a b c : Term) → ShowsText cells.old.0 first a → ShowsText cells.old.0 second b → ShowsText cells.old.0 third c → StandsThere cells.new.0 (cat_term a (cat_term b c)) result }
{
    standing_lasts();
    let first = put_text(cells, first)?;
    let rest = put_cat(cells, second, third)?;
    cells.two(Form::Cat, first, rest)
}

/// A string in reverse.
fn put_reversed(cells: &mut Cells, text: Text) -> Option<u32>
    ensures grown { Grows cells.old cells.new 9 }
    ensures short { IfNone result (IsShort cells.old 9) }
    ensures standing { (a : Term) → ShowsText cells.old.0 text a → StandsThere cells.new.0 (reversed_term a) result }
{
    let text = put_text(cells, text)?;
    cells.one(Form::Reverse, 0, text)
}

fn put_truth(cells: &mut Cells, truth: bool) -> Option<u32>
    ensures grown { Grows cells.old cells.new 2 }
    ensures short { IfNone result (IsShort cells.old 2) }
    ensures standing { StandsThere cells.new.0 (truth_term truth) result }
{
    cells.leaf(Form::Truth, if truth { 1 } else { 0 })
}

fn put_written(cells: &mut Cells, written: Written) -> Option<u32>
    ensures grown { Grows cells.old cells.new 24 }
    ensures short { IfNone result (IsShort cells.old 24) }
    ensures standing { (t : Term) → ShowsWritten cells.old.0 written t → StandsThere cells.new.0 t result }
{
    match written {
        Written::Truth(truth) => put_truth(cells, truth),
        Written::Count(count) => put_count(cells, count),
        Written::Text(text) => put_text(cells, text),
        Written::Reversed(text) => put_reversed(cells, text),
        Written::Cat(left, right) => put_cat(cells, left, right),
        Written::Cats(first, second, third) => put_cats(cells, first, second, third),
    }
}

fn put_bound(cells: &mut Cells, bound: AtMost) -> Option<u32>
    ensures grown { Grows cells.old cells.new 8 }
    ensures short { IfNone result (IsShort cells.old 8) }
    ensures standing { (t : Term) → ShowsAtMost cells.old.0 bound t → StandsThere cells.new.0 t result }
{
    standing_lasts();
    let less = put_count(cells, bound.less)?;
    let more = put_count(cells, bound.more)?;
    cells.two(Form::LessEq, less, more)
}

fn put_one(cells: &mut Cells, bound: AtMost) -> Option<Conditions>
    ensures grown { Grows cells.old cells.new 8 }
    ensures short { IfNone result (IsShort cells.old 8) }
    ensures standing { (ts : List Term) → ShowAll cells.old.0 (bound ∷ []) ts → IfSome result (λ r. AllStand cells.new.0 ts (places r)) }
{
    let p = put_bound(cells, bound)?;
    Some(Conditions::One(p))
}

fn put_both(cells: &mut Cells, first: AtMost, second: AtMost) -> Option<Conditions>
    ensures grown { Grows cells.old cells.new 15 }
    ensures short { IfNone result (IsShort cells.old 15) }
    ensures standing { (ts : List Term) → ShowAll cells.old.0 (first ∷ second ∷ []) ts → IfSome result (λ r. AllStand cells.new.0 ts (places r)) }
{
    standing_lasts();
    let p = put_bound(cells, first)?;
    let q = put_bound(cells, second)?;
    Some(Conditions::Two(p, q))
}

fn put_three(cells: &mut Cells, first: AtMost, second: AtMost, third: AtMost) -> Option<Conditions>
    ensures grown { Grows cells.old cells.new 22 }
    ensures short { IfNone result (IsShort cells.old 22) }
    ensures standing { (ts : List Term) → ShowAll cells.old.0 (first ∷ second ∷ third ∷ []) ts → IfSome result (λ r. AllStand cells.new.0 ts (places r)) }
{
    standing_lasts();
    let p = put_bound(cells, first)?;
    let q = put_bound(cells, second)?;
    let r = put_bound(cells, third)?;
    Some(Conditions::Three(p, q, r))
}

fn put_bounds(cells: &mut Cells, bounds: Bounds) -> Option<Conditions>
    ensures grown { Grows cells.old cells.new 22 }
    ensures short { IfNone result (IsShort cells.old 22) }
    ensures standing { (ts : List Term) → ShowAll cells.old.0 (listed bounds) ts → IfSome result (λ r. AllStand cells.new.0 ts (places r)) }
{
    match bounds {
        Bounds::None => Some(Conditions::None),
        Bounds::One(first) => put_one(cells, first),
        Bounds::Two(first, second) => put_both(cells, first, second),
        Bounds::Three(first, second, third) => put_three(cells, first, second, third),
    }
}

/// What a sketch shows, and where it stands.
pub(crate) fn put_sketch(cells: &mut Cells, sketch: Sketch) -> Option<Rewritten>
    ensures grown { Grows cells.old cells.new 45 }
    ensures short { IfNone result (IsShort cells.old 45) }
    ensures standing { (t : Term) (ts : List Term) → ShowsWritten cells.old.0 sketch.written t → ShowAll cells.old.0 (listed sketch.bounds) ts → IfSome result (λ r. Stands cells.new.0 (t, ts) r) }
{
    standing_lasts();
    let place = put_written(cells, sketch.written)?;
    let conditions = put_bounds(cells, sketch.bounds)?;
    Some(Rewritten { place, conditions })
}
