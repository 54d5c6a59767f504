//! New nodes over what stands already.

ghost use Rattle.std.specs.Prelude.{◌≡◌, pos, true, [], ◌∷◌, IfSome, IfNone};
ghost use Rattle.math_terms.specs.declared.term.Term.{Term};
ghost use Rattle.math_terms.specs.declared.term.Term.TheOpen.{Term-F};
ghost use Rattle.math_terms.specs.declared.term.Term.TheViews.{roll-Term};
ghost use Rattle.math_terms.specs.declared.form.Form.{Form as TheForm};
ghost use Rattle.math_terms.specs.Forms.{form_number};
ghost use Rattle.term_cells.specs.Standing.{stands};
ghost use Rattle.term_cells.specs.Growing.{Grows, IsShort, Pushes, StandsAs, StandsThere};

use crate::cell::Cell;
use crate::cells::Cells;
use math_terms::Form;

impl Cells {
    /// A node without children, of a form that has none.
    pub fn leaf(&mut self, form: Form, own: i64) -> Option<u32>
        ensures pushed { Pushes self.old self.new (record { form = form_number form; own = own; a = 0; b = 0; c = 0 }) result }
        ensures node { StandsAs self.new.0 (form_number form) own [] result }
    {
        self.push(Cell::node(form, own, 0, 0, 0))
    }

    /// A node with one child.
    pub fn one(&mut self, form: Form, own: i64, p: u32) -> Option<u32>
        ensures pushed { Pushes self.old self.new (record { form = form_number form; own = own; a = p; b = 0; c = 0 }) result }
        ensures node { (t : Term) → stands self.old.0 t p ≡ true → StandsAs self.new.0 (form_number form) own (t ∷ []) result }
    {
        self.push(Cell::node(form, own, p, 0, 0))
    }

    /// The negation of a formula.
    pub fn negation(&mut self, p: u32) -> Option<u32>
        ensures pushed { Pushes self.old self.new (record { form = form_number TheForm.Not; own = pos 0; a = p; b = 0; c = 0 }) result }
        ensures standing { (t : Term) → stands self.old.0 t p ≡ true → StandsThere self.new.0 (roll-Term (Term-F.Not t)) result }
    {
        self.one(Form::Not, 0, p)
    }

    /// A node with two children.
    pub fn two(&mut self, form: Form, p: u32, q: u32) -> Option<u32>
        ensures pushed { Pushes self.old self.new (record { form = form_number form; own = pos 0; a = p; b = q; c = 0 }) result }
        ensures node { (t u : Term) → stands self.old.0 t p ≡ true → stands self.old.0 u q ≡ true → StandsAs self.new.0 (form_number form) (pos 0) (t ∷ u ∷ []) result }
    {
        self.push(Cell::node(form, 0, p, q, 0))
    }

    /// A remainder, beside its quotient.
    pub fn remainder(&mut self, p: u32, q: u32) -> Option<u32>
        ensures node { (t u : Term) → stands self.old.0 t p ≡ true → stands self.old.0 u q ≡ true → StandsThere self.new.0 (roll-Term (Term-F.Mod t u)) result }
        ensures grown { Grows self.old self.new 3 }
        ensures short { IfNone result (IsShort self.old 3) }
    {
        let quotient = self.two(Form::Div, p, q)?;
        self.push(Cell::node(Form::Mod, 0, p, q, quotient))
    }
}
