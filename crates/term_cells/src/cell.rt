//! Cells.

ghost use Rattle.std.specs.Prelude.{◌≡◌, ◌==◌, pos, Some, IfSome};
ghost use Rattle.math_terms.specs.declared.form.Form.{Form as TheForm};
ghost use Rattle.math_terms.specs.Forms.{form_number};
ghost use Rattle.term_cells.specs.Standing.{end_form, link_form};

use math_terms::Form;

/// A node: the number of its form, its own number, and the places of its children, which are below its own. A tuple has in `a` the place
/// of a list of its parts; of such a list, `a` is a part and `b` the rest.
#[derive(Clone, Copy, Debug, PartialEq, Eq)]
pub struct Cell {
    pub form: u8,
    pub own: i64,
    pub a: u32,
    pub b: u32,
    pub c: u32,
}

/// What stands in place of a form's number at the end of a list of parts, and at a part before others.
const END: u8 = 26;

const LINK: u8 = 27;

impl Cell {
    /// Whether the cell is a node of this form.
    pub fn is(self, form: Form) -> bool
        ensures { result ≡ (self.form == form_number form) }
    {
        self.form == form.number()
    }

    /// The form of the node, none where the cell is of a list of parts.
    pub fn node_form(self) -> Option<Form>
        ensures numbered { IfSome result (λ f. self.form ≡ form_number f) }
        ensures each { (f : TheForm) → self.form ≡ form_number f → result ≡ Some f }
    {
        Form::from_number(self.form)
    }

    /// A node of this form.
    pub(crate) fn node(form: Form, own: i64, a: u32, b: u32, c: u32) -> Cell
        ensures { result ≡ record { form = form_number form; own = own; a = a; b = b; c = c } }
    {
        Cell {
            form: form.number(),
            own,
            a,
            b,
            c,
        }
    }

    /// The end of a list of parts.
    pub(crate) fn end() -> Cell
        ensures { result ≡ record { form = end_form; own = pos 0; a = 0; b = 0; c = 0 } }
    {
        Cell {
            form: END,
            own: 0,
            a: 0,
            b: 0,
            c: 0,
        }
    }

    /// A part before the rest of a list.
    pub fn link(part: u32, rest: u32) -> Cell
        ensures { result ≡ record { form = link_form; own = pos 0; a = part; b = rest; c = 0 } }
    {
        Cell {
            form: LINK,
            own: 0,
            a: part,
            b: rest,
            c: 0,
        }
    }

    /// Whether the cell is a part before the rest of a list.
    pub fn is_link(self) -> bool
        ensures { result ≡ (self.form == link_form) }
    {
        self.form == LINK
    }
}
