//! Room in which rows are made.

ghost use Rattle.std.specs.Prelude.{◌≡◌, IfOk, length};

use math_terms::NoMemory;
use num_theory::Number;
use std::alloc::Global;
use term_cells::Scratch;

/// Room for reading the texts of two atoms, and for the products of one row, which are at the start of the marks. A mark is a coefficient
/// and the place of its atom.
#[derive(Debug, Drop)]
pub(crate) struct Sheet {
    pub scratch: Scratch,
    pub marks: Vec<(Number, u32)>,
}

impl Sheet {
    /// Room for the texts of so many cells, and for so many products.
    pub(crate) fn new(alloc: Global, cells: usize, products: usize) -> Result<Sheet, NoMemory>
        ensures { IfOk result (λ s. (s.scratch ≡ cells) × (length s.marks.items ≡ products)) }
    {
        Ok(Sheet {
            scratch: Scratch::new(alloc, cells)?,
            marks: vec![in alloc; (Number::Exact(0), 0); products]?,
        })
    }
}
