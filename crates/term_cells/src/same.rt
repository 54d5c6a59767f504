//! Whether two places hold the same term.

ghost use Rattle.std.specs.Prelude.{◌≡◌, ◌↔◌, true, ℕ, List, length, map, IsTrue};
ghost use Rattle.math_terms.specs.declared.term.Term.{Term};
ghost use Rattle.term_cells.specs.Standing.{few_stand, parts_stand, stands, stands_below};

use crate::cell::Cell;
use crate::cells::Cells;
use math_terms::Form;

impl Cells {
    /// Whether the same term stands at both places. This takes no memory.
    #[cycle(same)]
    pub fn same(&self, p: u32, q: u32) -> bool
        ensures { (t u : Term) → stands self.now.0 t p ≡ true → stands self.now.0 u q ≡ true → (IsTrue result ↔ (t ≡ u)) }
    {
        if p == q {
            return true;
        }
        let (Some(c), Some(d)) = (self.at(p), self.at(q)) else {
            return false;
        };
        if !same_head(c, d) {
            return false;
        }
        if c.is(Form::Tuple) {
            return c.a < p && self.same_parts(c.a, d.a);
        }
        self.same_children(p, c.arity(), c, d)
    }

    /// The same of two children, of which the first is below a place.
    #[cycle(same)]
    fn same_below(&self, limit: u32, p: u32, q: u32) -> bool
        ensures { (t u : Term) → stands_below (stands self.now.0 t) p limit ≡ true → stands self.now.0 u q ≡ true → (IsTrue result ↔ (t ≡ u)) }
    {
        p < limit && self.same(p, q)
    }

    /// The same of so many children of a node at a place, and of another node.
    #[cycle(same)]
    fn same_children(&self, place: u32, n: u8, c: Cell, d: Cell) -> bool
        ensures { (other : ℕ) (ts us : List Term) → length ts ≡ n → length us ≡ n → few_stand (map (stands self.now.0) ts) c place ≡ true → few_stand (map (stands self.now.0) us) d other ≡ true → (IsTrue result ↔ (ts ≡ us)) }
    {
        if n == 0 {
            return true;
        }
        if !self.same_below(place, c.a, d.a) {
            return false;
        }
        if n == 1 {
            return true;
        }
        if !self.same_below(place, c.b, d.b) {
            return false;
        }
        if n == 2 {
            return true;
        }
        self.same_below(place, c.c, d.c)
    }

    /// The same of two lists of parts.
    #[cycle(same)]
    fn same_parts(&self, p: u32, q: u32) -> bool
        ensures { (m n : ℕ) (ts us : List Term) → parts_stand self.now.0 (map (stands self.now.0) ts) p m ≡ true → parts_stand self.now.0 (map (stands self.now.0) us) q n ≡ true → (IsTrue result ↔ (ts ≡ us)) }
    {
        let (Some(c), Some(d)) = (self.at(p), self.at(q)) else {
            return false;
        };
        if c.form != d.form {
            return false;
        }
        if !c.is_link() {
            return true;
        }
        if !self.same_below(p, c.a, d.a) {
            return false;
        }
        c.b < p && self.same_parts(c.b, d.b)
    }
}

/// Whether two cells have the same form and the same number of their own.
fn same_head(c: Cell, d: Cell) -> bool
    ensures { IsTrue result ↔ ((c.form ≡ d.form) × (c.own ≡ d.own)) }
{
    c.form == d.form && c.own == d.own
}
