//! How many children a cell has, and how strongly it holds them together.

ghost use Rattle.std.specs.Prelude.{◌≡◌};
ghost use Rattle.term_cells.specs.working.Arity.{arity};
ghost use Rattle.term_cells.specs.working.Marks as marks;
ghost use Rattle.term_cells.specs.working.Pieces.{child_count};

use crate::cell::Cell;
use math_terms::Form;

impl Cell {
    /// The number of children of the node, 0 for a tuple, whose parts are in a list.
    pub(crate) fn arity(self) -> u8
        ensures { result ≡ arity self.form }
    {
        match self.node_form() {
            Some(form) => form.arity().unwrap_or(0),
            None => 0,
        }
    }

    /// The same, where a tuple's parts are one child.
    pub(crate) fn child_count(self) -> u8
        ensures { result ≡ child_count self.form }
    {
        if self.is(Form::Tuple) {
            1
        } else {
            self.arity()
        }
    }

    /// How strongly the node holds its parts together; a list of parts as strongly as a leaf.
    pub(crate) fn strength(self) -> u8
        ensures { result ≡ marks.strength self.form }
    {
        match self.node_form() {
            Some(form) => form.strength(),
            None => 9,
        }
    }
}
