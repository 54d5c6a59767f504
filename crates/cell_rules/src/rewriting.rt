//! Rules by their numbers, at positions.

ghost use Rattle.std.specs.Prelude.{◌≡◌, ◌+◌, ◌*◌, ℕ, true, List, Option, Some, IfErr, slice_get};
ghost use Rattle.math_terms.specs.declared.term.Term.{Term};
ghost use Rattle.math_terms.specs.declared.term.Term.TheViews.{out-Term};
ghost use Rattle.math_terms.specs.Heads.{children};
ghost use Rattle.math_terms.specs.Terms.{nodes};
ghost use Rattle.term_cells.specs.Growing.{Grows, IsShort};
ghost use Rattle.term_cells.specs.KindShown.{sorts_of_vars};
ghost use Rattle.term_cells.specs.Standing.{stands};
ghost use Rattle.str_theory.specs.Positions.{around as around_node, given_at};
ghost use Rattle.str_theory.specs.Rules.{rule};
ghost use Rattle.cell_rules.specs.Answering.{is_answered, is_equation, is_sketched};
ghost use Rattle.cell_rules.specs.Giving.{GivenStands, Stands};
ghost use Rattle.cell_rules.specs.Pairing.{FormulaStands};
ghost use Rattle.cell_rules.specs.Sketches.{Sketches};
ghost use Rattle.cell_rules.specs.Using.{FactStands};

use crate::children::{child, with_child};
use crate::making::put_sketch;
use crate::rewritten::{Conditions, Full, Rewritten};
use crate::sketch::Sketch;
use crate::spine::End;
use crate::{
    chains, concatenations, equations, joins, known, lengths, names, pairs, parts, reversals,
    tuples,
};
use math_terms::{Desc, Name};
use term_cells::{Cells, standing_lasts};

/// A rule by its number, from 1, and the place of the fact that it uses.
#[derive(Clone, Copy, Debug)]
pub struct Rule {
    pub number: u32,
    pub fact: Option<u32>,
}

impl Rule {
    /// Whether what the rule gives may have any number of new nodes.
    fn is_equation(self) -> bool
        ensures { result ≡ is_equation self.number }
    {
        (26 <= self.number && self.number <= 29) || self.number == 31
    }

    /// What the rule gives at a node, where it gives a few nodes above what stands.
    fn sketch(self, cells: &Cells, vars: &[(Name, Desc)], p: u32) -> Option<Sketch>
        ensures { (f : Option Term) (t : Term) → FactStands cells.now.0 f self.fact → stands cells.now.0 t p ≡ true → is_sketched self.number ≡ true → Sketches cells.now.0 (rule (sorts_of_vars vars.now) f self.number t) result }
    {
        match self.number {
            2 => lengths::of_empty(cells, p),
            3 => lengths::of_single(cells, p),
            4 => lengths::of_cat(cells, p),
            5 => lengths::of_reverse(cells, p),
            6 => lengths::of_part(cells, p),
            7 => concatenations::from_empty(cells, p),
            8 => concatenations::to_empty(cells, p),
            9 => concatenations::regrouped(cells, p),
            10 => reversals::of_empty(cells, p),
            11 => reversals::of_single(cells, p),
            12 => reversals::of_cat(cells, p),
            13 => reversals::of_reverse(cells, p),
            14 => names::of_string(cells, vars, p),
            15 => parts::reversed_bounds(cells, p),
            16 => parts::before_string(cells, p),
            17 => parts::past_string(cells, p),
            18 => parts::whole_string(cells, p),
            19 => parts::of_cat(cells, p),
            20 => parts::of_reverse(cells, p),
            21 => parts::of_part(cells, p),
            22 => known::by_fact(cells, self.fact, p),
            23 => joins::of_following(cells, p),
            24 => tuples::of_tuple(cells, p),
            25 => equations::of_same(cells, p),
            30 => chains::of_empty(cells, vars, p),
            _ => None,
        }
    }

    /// What the rule gives at a node, where it gives an equation or equations that are joined.
    fn equation(self, cells: &mut Cells, vars: &[(Name, Desc)], p: u32) -> Result<Option<u32>, Full>
        ensures exact { (f : Option Term) (t : Term) → stands cells.old.0 t p ≡ true → is_equation self.number ≡ true → FormulaStands cells.new.0 (rule (sorts_of_vars vars.now) f self.number t) result }
        ensures keeps { (t : Term) (q : ℕ) → stands cells.old.0 t q ≡ true → stands cells.new.0 t q ≡ true }
        ensures grown { (t : Term) → stands cells.old.0 t p ≡ true → Grows cells.old cells.new (2 * nodes t + 3) }
        ensures short { (t : Term) → stands cells.old.0 t p ≡ true → IfErr result (λ e. IsShort cells.old (2 * nodes t + 3)) }
    {
        match self.number {
            26 => chains::of_same_ends(cells, vars, p, End::First),
            27 => chains::of_same_ends(cells, vars, p, End::Last),
            28 => chains::of_single_ends(cells, vars, p, End::First),
            29 => chains::of_single_ends(cells, vars, p, End::Last),
            31 => pairs::equal_parts(cells, p),
            _ => Ok(None),
        }
    }
}

impl Rule {
    /// The few nodes that the rule gives at a node, put into cells.
    fn apply(
        self,
        cells: &mut Cells,
        vars: &[(Name, Desc)],
        p: u32,
    ) -> Result<Option<Rewritten>, Full>
        ensures grown { Grows cells.old cells.new 45 }
        ensures short { IfErr result (λ e. IsShort cells.old 45) }
        ensures exact { (f : Option Term) (t : Term) → FactStands cells.old.0 f self.fact → stands cells.old.0 t p ≡ true → is_sketched self.number ≡ true → GivenStands cells.new.0 (rule (sorts_of_vars vars.now) f self.number t) result }
    {
        let Some(sketch) = self.sketch(cells, vars, p) else {
            return Ok(None);
        };
        match put_sketch(cells, sketch) {
            Some(rewritten) => Ok(Some(rewritten)),
            None => Err(Full),
        }
    }

    /// What the rule gives at a node.
    fn at_node(
        self,
        cells: &mut Cells,
        vars: &[(Name, Desc)],
        p: u32,
    ) -> Result<Option<Rewritten>, Full>
        ensures exact { (f : Option Term) (t : Term) → FactStands cells.old.0 f self.fact → stands cells.old.0 t p ≡ true → is_answered self.number ≡ true → GivenStands cells.new.0 (rule (sorts_of_vars vars.now) f self.number t) result }
        ensures keeps { (t : Term) (q : ℕ) → stands cells.old.0 t q ≡ true → stands cells.new.0 t q ≡ true }
        ensures grown { (t : Term) → stands cells.old.0 t p ≡ true → Grows cells.old cells.new (2 * nodes t + 45) }
        ensures short { (t : Term) → stands cells.old.0 t p ≡ true → IfErr result (λ e. IsShort cells.old (2 * nodes t + 45)) }
    {
        standing_lasts();
        if !self.is_equation() {
            return self.apply(cells, vars, p);
        }
        match self.equation(cells, vars, p)? {
            Some(place) => Ok(Some(Rewritten {
                place,
                conditions: Conditions::None,
            })),
            None => Ok(None),
        }
    }

    /// What the rule gives at a position, of child numbers from 1, of the formula at a place, where these are the variables of the sequent: the
    /// place of the new formula, and those of its side conditions. None where the rule gives nothing there or the position does not stand.
    pub fn rewrite(
        self,
        cells: &mut Cells,
        vars: &[(Name, Desc)],
        p: u32,
        position: &[u32],
    ) -> Result<Option<Rewritten>, Full>
        ensures exact { (f : Option Term) (t : Term) → FactStands cells.old.0 f self.fact → stands cells.old.0 t p ≡ true → is_answered self.number ≡ true → GivenStands cells.new.0 (given_at position.now (rule (sorts_of_vars vars.now) f self.number) t) result }
        ensures keeps { (t : Term) (q : ℕ) → stands cells.old.0 t q ≡ true → stands cells.new.0 t q ≡ true }
        ensures grown { (t : Term) → stands cells.old.0 t p ≡ true → Grows cells.old cells.new (2 * nodes t + 45) }
        ensures short { (t : Term) → stands cells.old.0 t p ≡ true → IfErr result (λ e. IsShort cells.old (2 * nodes t + 45)) }
    {
        standing_lasts();
        let Some((first, below)) = position.split_first() else {
            return self.at_node(cells, vars, p);
        };
        let Some(k) = first.checked_sub(1) else {
            return Ok(None);
        };
        let Some(at) = child(cells, p, k) else {
            return Ok(None);
        };
        match self.rewrite(cells, vars, at, below)? {
            Some(inner) => around(cells, p, k, inner),
            None => Ok(None),
        }
    }
}

/// The node at a place with what was rewritten as child k.
fn around(cells: &mut Cells, p: u32, k: u32, inner: Rewritten) -> Result<Option<Rewritten>, Full>
    ensures grown { Grows cells.old cells.new (k + 3) }
    ensures short { (t u : Term) → stands cells.old.0 t p ≡ true → slice_get (children (out-Term t)) k ≡ Some u → IfErr result (λ e. IsShort cells.old (k + 3)) }
    ensures standing { (t u : Term) (x : Term × List Term) → stands cells.old.0 t p ≡ true → slice_get (children (out-Term t)) k ≡ Some u → Stands cells.old.0 x inner → GivenStands cells.new.0 (Some (around_node k (out-Term t) x)) result }
{
    standing_lasts();
    match with_child(cells, p, k, inner.place) {
        Some(place) => Ok(Some(Rewritten {
            place,
            conditions: inner.conditions,
        })),
        None => Err(Full),
    }
}
