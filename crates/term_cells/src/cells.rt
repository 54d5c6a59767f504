//! The vector of cells.

ghost use Rattle.std.specs.Prelude.{◌≡◌, ◌≤◌, [], length, take, slice_get, IfOk};
ghost use Rattle.term_cells.specs.Growing.{Pushes};

use crate::cell::Cell;
use math_terms::NoMemory;
use std::alloc::Global;
use std::marker::Model;

/// Cells one after another, and room for more. A contract sees the cells that are there and how many there can be.
#[derive(Debug, Drop)]
pub struct Cells {
    cells: Vec<Cell>,
    used: usize,
}

impl Model for Cells {
    ghost use Rattle.std.specs.Prelude.{List, ℕ, take, length};
    ghost use Rattle.term_cells.specs.declared.cell.Cell.{Cell};

    ghost Value = { List Cell × ℕ };

    ghost view = { λ c. (take c.used c.cells.items, length c.cells.items) };
}

impl Cells {
    /// No cells, with room for so many.
    pub fn new(alloc: Global, room: usize) -> Result<Cells, NoMemory>
        ensures { IfOk result (λ c. c ≡ ([], room)) }
    {
        Ok(Cells {
            cells: vec![in alloc; Cell::end(); room]?,
            used: 0,
        })
    }

    /// How many cells are held.
    pub fn held(&self) -> usize
        ensures count { result ≡ length self.now.0 }
        ensures within { length self.now.0 ≤ self.now.1 }
    {
        self.used.min(self.cells.len())
    }

    /// One more cell, and the place where it stands; none where there is no room or where 32 bits do not count so far.
    pub fn push(&mut self, cell: Cell) -> Option<u32>
        ensures { Pushes self.old self.new cell result }
    {
        let place = self.used;
        if place >= self.cells.len() || place >= u32::MAX as usize {
            return None;
        }
        self.cells[place] = cell;
        self.used += 1;
        Some(place as u32)
    }

    /// Only the first n cells stay.
    pub fn truncate(&mut self, n: u32)
        ensures { self.new ≡ (take n self.old.0, self.old.1) }
    {
        self.used = self.used.min(n as usize);
    }

    /// The cell at a place.
    pub fn at(&self, place: u32) -> Option<Cell>
        ensures { result ≡ slice_get self.now.0 place }
    {
        let place = place as usize;
        if place < self.used {
            self.cells.get(place).copied()
        } else {
            None
        }
    }
}
