//! What the node at a place is, and where its children stand.

ghost use Rattle.std.specs.Prelude.{◌≡◌, ℕ, pos, true, Some};
ghost use Rattle.math_terms.specs.declared.term.Term.{Term};
ghost use Rattle.term_cells.specs.Standing.{stands};
ghost use Rattle.str_theory.specs.Chains.{is_single};
ghost use Rattle.str_theory.specs.Forms.{is_empty, is_name, when_cat, when_eq, when_len, when_reverse, when_single};
ghost use Rattle.cell_rules.specs.Looking.{LooksOne, LooksPart, LooksProj, LooksTuple, LooksTwo};

use math_terms::Form;
use term_cells::{Cells, standing_opens};

/// Where the bounds of a part stand, and its string.
#[derive(Clone, Copy, Debug)]
pub(crate) struct PartPlaces {
    pub from: u32,
    pub to: u32,
    pub text: u32,
}

/// What a length is of.
pub(crate) fn as_len(cells: &Cells, p: u32) -> Option<u32>
    ensures { (t : Term) → stands cells.now.0 t p ≡ true → LooksOne (λ u next. when_len u next) cells.now.0 t result }
{
    standing_opens();
    let cell = cells.at(p)?;
    if cell.is(Form::Len) {
        Some(cell.a)
    } else {
        None
    }
}

/// The element of a string of one.
pub(crate) fn as_single(cells: &Cells, p: u32) -> Option<u32>
    ensures { (t : Term) → stands cells.now.0 t p ≡ true → LooksOne (λ u next. when_single u next) cells.now.0 t result }
{
    standing_opens();
    let cell = cells.at(p)?;
    if cell.is(Form::Single) {
        Some(cell.a)
    } else {
        None
    }
}

/// What is reversed.
pub(crate) fn as_reverse(cells: &Cells, p: u32) -> Option<u32>
    ensures { (t : Term) → stands cells.now.0 t p ≡ true → LooksOne (λ u next. when_reverse u next) cells.now.0 t result }
{
    standing_opens();
    let cell = cells.at(p)?;
    if cell.is(Form::Reverse) {
        Some(cell.a)
    } else {
        None
    }
}

/// Both sides of a concatenation.
pub(crate) fn as_cat(cells: &Cells, p: u32) -> Option<(u32, u32)>
    ensures { (t : Term) → stands cells.now.0 t p ≡ true → LooksTwo (λ u next. when_cat u next) cells.now.0 t result }
{
    standing_opens();
    let cell = cells.at(p)?;
    if cell.is(Form::Cat) {
        Some((cell.a, cell.b))
    } else {
        None
    }
}

/// Both sides of an equation.
pub(crate) fn as_eq(cells: &Cells, p: u32) -> Option<(u32, u32)>
    ensures { (t : Term) → stands cells.now.0 t p ≡ true → LooksTwo (λ u next. when_eq u next) cells.now.0 t result }
{
    standing_opens();
    let cell = cells.at(p)?;
    if cell.is(Form::Eq) {
        Some((cell.a, cell.b))
    } else {
        None
    }
}

/// The bounds and the string of a part.
pub(crate) fn as_part(cells: &Cells, p: u32) -> Option<PartPlaces>
    ensures { (t : Term) → stands cells.now.0 t p ≡ true → LooksPart cells.now.0 t result }
{
    standing_opens();
    let cell = cells.at(p)?;
    if cell.is(Form::Part) {
        Some(PartPlaces {
            from: cell.a,
            to: cell.b,
            text: cell.c,
        })
    } else {
        None
    }
}

/// Whether a place holds the empty string.
pub(crate) fn holds_empty(cells: &Cells, p: u32) -> bool
    ensures { (t : Term) → stands cells.now.0 t p ≡ true → result ≡ is_empty t }
{
    standing_opens();
    match cells.at(p) {
        Some(cell) => cell.is(Form::Empty),
        None => false,
    }
}

/// Whether a place holds a string of one element, written as such.
pub(crate) fn holds_single(cells: &Cells, p: u32) -> bool
    ensures { (t : Term) → stands cells.now.0 t p ≡ true → result ≡ is_single t }
{
    standing_opens();
    match cells.at(p) {
        Some(cell) => cell.is(Form::Single),
        None => false,
    }
}

/// Whether a place holds a variable or a projection.
pub(crate) fn holds_name(cells: &Cells, p: u32) -> bool
    ensures { (t : Term) → stands cells.now.0 t p ≡ true → result ≡ is_name t }
{
    standing_opens();
    match cells.at(p) {
        Some(cell) => cell.is(Form::Var) || cell.is(Form::Proj),
        None => false,
    }
}

/// The number of a projection, from 0, and its tuple.
pub(crate) fn as_proj(cells: &Cells, p: u32) -> Option<(u64, u32)>
    ensures { (t : Term) → stands cells.now.0 t p ≡ true → LooksProj cells.now.0 t result }
{
    standing_opens();
    let cell = cells.at(p)?;
    if !cell.is(Form::Proj) {
        return None;
    }
    let number = natural(cell.own)?;
    Some((number, cell.a))
}

/// A number that is not negative.
fn natural(own: i64) -> Option<u64>
    ensures { (n : ℕ) → own ≡ pos n → result ≡ Some n }
{
    if own < 0 { None } else { Some(own as u64) }
}

/// The list of the parts of a tuple.
pub(crate) fn as_tuple(cells: &Cells, p: u32) -> Option<u32>
    ensures { (t : Term) → stands cells.now.0 t p ≡ true → LooksTuple cells.now.0 t result }
{
    standing_opens();
    let cell = cells.at(p)?;
    if cell.is(Form::Tuple) {
        Some(cell.a)
    } else {
        None
    }
}
