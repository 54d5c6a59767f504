//! Sequents whose formulas stand in cells.

use math_terms::{Desc, Name};
use term_cells::Cells;

/// A sequent in cells: its variables, and the places of its hypotheses and of its goal.
#[derive(Clone, Copy, Debug)]
pub struct CellSequent<'a> {
    pub cells: &'a Cells,
    pub vars: &'a [(Name, Desc)],
    pub hyps: &'a [u32],
    pub goal: u32,
}

/// A sequent in cells, and the places of all atoms of its rows.
#[derive(Clone, Copy, Debug)]
pub(crate) struct CellTable<'a> {
    pub sequent: CellSequent<'a>,
    pub atoms: &'a [u32],
}
