//! Terms copied into cells.

ghost use Rattle.std.specs.Prelude.{◌≡◌, ◌+◌, ◌-◌, ◌*◌, ◌^◌, ◌<◌, ◌≤◌, ◌⊎◌, pos, true, false, [], ◌∷◌, length, sum_by, IfNone};
ghost use Rattle.math_terms.specs.declared.term.Term.{Term};
ghost use Rattle.math_terms.specs.declared.term.Term.TheOpen.{Term-F};
ghost use Rattle.math_terms.specs.declared.term.Term.TheViews.{roll-Term};
ghost use Rattle.math_terms.specs.Forms.{form_number};
ghost use Rattle.math_terms.specs.Terms.{nodes};
ghost use Rattle.term_cells.specs.Standing.{stands};
ghost use Rattle.term_cells.specs.Growing.{Grows, IsShort, NodeLoads, PartsLoad, StandsThere, has_end};

use crate::cell::Cell;
use crate::cells::Cells;
use crate::head::{Children, head_of};
use math_terms::{Form, Term};

impl Cells {
    /// A copy of the term, and the place where it stands; none where room for two cells a node is wanting. This takes no memory.
    pub fn load(&mut self, t: &Term) -> Option<u32>
        ensures standing { StandsThere self.new.0 t.now result }
        ensures grown { Grows self.old self.new (2 * nodes t.now + 1) }
        ensures short { IfNone result ((self.old.1 < length self.old.0 + 2 * nodes t.now) ⊎ (2 ^ 32 - 1 ≤ length self.old.0 + 2 * nodes t.now)) }
    {
        let end = self.push(Cell::end())?;
        self.load_node(end, t)
    }

    /// The same, with one end for all lists of parts.
    #[cycle(load)]
    fn load_node(&mut self, end: u32, t: &Term) -> Option<u32>
        ensures standing { has_end self.old.0 end ≡ true → StandsThere self.new.0 t.now result }
        ensures grown { Grows self.old self.new (2 * nodes t.now) }
        ensures short { IfNone result (IsShort self.old (2 * nodes t.now)) }
    {
        let head = head_of(t);
        match head.children {
            Children::None => self.leaf(head.form, head.own),
            Children::One(a) => self.load_one(end, head.form, head.own, a),
            Children::Two(a, b) => self.load_two(end, head.form, head.own, a, b),
            Children::Three(a, b, c) => self.load_three(end, head.form, head.own, a, b, c),
            Children::Parts(parts) => self.load_tuple(end, head.form, head.own, parts),
        }
    }

    #[cycle(load)]
    fn load_one(&mut self, end: u32, form: Form, own: i64, a: &Term) -> Option<u32>
        ensures node { has_end self.old.0 end ≡ true → NodeLoads false self.new.0 (form_number form) own (a.now ∷ []) result }
        ensures grown { Grows self.old self.new (2 + 2 * nodes a.now) }
        ensures short { IfNone result (IsShort self.old (2 + 2 * nodes a.now)) }
    {
        let p = self.load_node(end, a)?;
        self.one(form, own, p)
    }

    #[cycle(load)]
    fn load_two(&mut self, end: u32, form: Form, own: i64, a: &Term, b: &Term) -> Option<u32>
        ensures node { has_end self.old.0 end ≡ true → NodeLoads false self.new.0 (form_number form) own (a.now ∷ b.now ∷ []) result }
        ensures grown { Grows self.old self.new (2 + 2 * nodes a.now + 2 * nodes b.now) }
        ensures short { IfNone result (IsShort self.old (2 + 2 * nodes a.now + 2 * nodes b.now)) }
    {
        let p = self.load_node(end, a)?;
        let q = self.load_node(end, b)?;
        match form {
            Form::Mod => self.remainder(p, q),
            _ => self.push(Cell::node(form, own, p, q, 0)),
        }
    }

    #[cycle(load)]
    fn load_three(
        &mut self,
        end: u32,
        form: Form,
        own: i64,
        a: &Term,
        b: &Term,
        c: &Term,
    ) -> Option<u32>
        ensures node { has_end self.old.0 end ≡ true → NodeLoads false self.new.0 (form_number form) own (a.now ∷ b.now ∷ c.now ∷ []) result }
        ensures grown { Grows self.old self.new (2 + 2 * nodes a.now + 2 * nodes b.now + 2 * nodes c.now) }
        ensures short { IfNone result (IsShort self.old (2 + 2 * nodes a.now + 2 * nodes b.now + 2 * nodes c.now)) }
    {
        let p = self.load_node(end, a)?;
        let q = self.load_node(end, b)?;
        let r = self.load_node(end, c)?;
        self.push(Cell::node(form, own, p, q, r))
    }

    #[cycle(load)]
    fn load_tuple(&mut self, end: u32, form: Form, own: i64, parts: &[Term]) -> Option<u32>
        ensures node { has_end self.old.0 end ≡ true → NodeLoads true self.new.0 (form_number form) own parts.now result }
        ensures grown { Grows self.old self.new (2 + 2 * sum_by nodes parts.now) }
        ensures short { IfNone result (IsShort self.old (2 + 2 * sum_by nodes parts.now)) }
    {
        let list = self.load_parts(end, parts)?;
        self.push(Cell::node(form, own, list, 0, 0))
    }

    /// A list of the parts, which ends at `end`.
    #[cycle(load)]
    fn load_parts(&mut self, end: u32, parts: &[Term]) -> Option<u32>
        ensures parts { has_end self.old.0 end ≡ true → PartsLoad self.new.0 parts.now result }
        ensures grown { Grows self.old self.new (1 + 2 * sum_by nodes parts.now) }
        ensures short { IfNone result (IsShort self.old (1 + 2 * sum_by nodes parts.now)) }
    {
        let [first, rest @ ..] = parts else {
            return Some(end);
        };
        let b = self.load_parts(end, rest)?;
        let a = self.load_node(end, first)?;
        self.push(Cell::link(a, b))
    }
}
