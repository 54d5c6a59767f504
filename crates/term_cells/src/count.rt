//! How many nodes the terms at places have.

ghost use Rattle.std.specs.Prelude.{◌≡◌, ◌+◌, ◌-◌, ◌^◌, ◌<◌, ℕ, List, true, length, map, min, sum_by};
ghost use Rattle.math_terms.specs.declared.term.Term.{Term};
ghost use Rattle.math_terms.specs.Terms.{nodes};
ghost use Rattle.term_cells.specs.working.Counting.{Leaves};
ghost use Rattle.term_cells.specs.Standing.{few_stand, parts_stand, stands, stands_below};

use crate::cell::Cell;
use crate::cells::Cells;
use math_terms::Form;

impl Cells {
    /// How many nodes the term at this place has, or `most + 1` where it has more than `most`. It looks at no more nodes than that.
    pub fn nodes_up_to(&self, p: u32, most: u32) -> u32
        requires { most < 2 ^ 32 - 1 }
        ensures { (t : Term) → stands self.now.0 t p ≡ true → result ≡ min (nodes t) (most + 1) }
    {
        match self.count(p, most) {
            Some(left) if left <= most => most - left,
            _ => most + 1,
        }
    }

    /// What is left of a number when the nodes of the term at this place are taken from it.
    #[cycle(count)]
    fn count(&self, p: u32, number: u32) -> Option<u32>
        ensures { (t : Term) → stands self.now.0 t p ≡ true → Leaves number (nodes t) result }
    {
        let number = number.checked_sub(1)?;
        let cell = self.at(p)?;
        if cell.is(Form::Tuple) {
            return self.count_parts(p, cell.a, number);
        }
        self.count_children(p, cell.arity(), cell, number)
    }

    /// The same, where the place is below another.
    #[cycle(count)]
    fn count_below(&self, limit: u32, p: u32, number: u32) -> Option<u32>
        ensures { (t : Term) → stands_below (stands self.now.0 t) p limit ≡ true → Leaves number (nodes t) result }
    {
        if p < limit {
            self.count(p, number)
        } else {
            None
        }
    }

    /// The same of so many children of a node at a place.
    #[cycle(count)]
    fn count_children(&self, place: u32, n: u8, cell: Cell, number: u32) -> Option<u32>
        ensures { (ts : List Term) → length ts ≡ n → few_stand (map (stands self.now.0) ts) cell place ≡ true → Leaves number (sum_by nodes ts) result }
    {
        if n == 0 {
            return Some(number);
        }
        let number = self.count_below(place, cell.a, number)?;
        if n == 1 {
            return Some(number);
        }
        let number = self.count_below(place, cell.b, number)?;
        if n == 2 {
            return Some(number);
        }
        self.count_below(place, cell.c, number)
    }

    /// The same of a list of parts, where it is below another place.
    #[cycle(count)]
    fn count_parts(&self, limit: u32, p: u32, number: u32) -> Option<u32>
        ensures { (ts : List Term) → parts_stand self.now.0 (map (stands self.now.0) ts) p limit ≡ true → Leaves number (sum_by nodes ts) result }
    {
        if p >= limit {
            return None;
        }
        let cell = self.at(p)?;
        if !cell.is_link() {
            return Some(number);
        }
        let number = self.count_below(p, cell.a, number)?;
        self.count_parts(p, cell.b, number)
    }
}
