//! Formulas in cells and the places of the hypotheses of the sequents from the root to the one at hand.

ghost use Rattle.std.specs.Prelude.{◌≡◌, ◌+◌, ◌*◌, ◌^◌, ◌<◌, ◌≤◌, true, ℕ, List, [], ◌∷◌, drop, length, map, IfOk, IfSome, Option};
ghost use Rattle.std.specs.List.{sum_by};
ghost use Rattle.math_terms.specs.declared.term.Term.{Term};
ghost use Rattle.math_terms.specs.Terms.{nodes};
ghost use Rattle.term_cells.specs.Growing.{Grows};
ghost use Rattle.term_cells.specs.Standing.{stands};
ghost use Rattle.vc_sequents.specs.declared.sequent.Sequent.{Sequent};
ghost use Rattle.vc_sequents.specs.Splitting.{GoalCase, in_place, with_goal_case};
ghost use Rattle.cert_check.specs.working.Cases.{FormulasAre, GoalIs, PartIs, made, made_case};
ghost use Rattle.cert_check.specs.Need.{sequent_nodes};
ghost use Rattle.term_cells.specs.Placed.{AllStand};
ghost use Rattle.cert_check.specs.working.Path.{Adds, StandsIn};
ghost use Rattle.cert_check.specs.working.Room.{Ends, HasRoom, Takes};
ghost use Rattle.cert_check.specs.working.Children.{CasesAt, ChildIs, Opens, SplitIs, count_of};

use crate::cases::{Case, Cases, Part, are_small, goal_cases, hypothesis_cases, make};
use crate::closing::named;
use crate::places::Places;
use cell_rows::Room;
use math_terms::{Desc, Formula, Name, NoMemory};
use std::alloc::Global;
use term_cells::{Cells as TermCells, standing_lasts};
use vc_sequents::Sequent;

/// The formulas of the sequents from the root to the one at hand stand in cells, and the places of their hypotheses one sequent after
/// another in a list. Beside them is room for linear steps.
#[derive(Debug, Drop)]
pub(crate) struct Path {
    pub(crate) cells: TermCells,
    pub(crate) places: Places,
    pub(crate) sheet: Room,
}

/// How many sequents there are.
fn count(cases: Cases) -> u32
    ensures { result ≡ count_of cases }
{
    match cases {
        Cases::One(_) => 1,
        Cases::Two(_, _) => 2,
    }
}

impl Path {
    /// Room for sequents of so many nodes.
    pub(crate) fn new(alloc: Global, nodes: usize) -> Result<Path, NoMemory>
        requires { nodes < 2 ^ 31 }
        ensures cells { IfOk result (λ p. p.cells ≡ ([], 2 * nodes)) }
        ensures places { IfOk result (λ p. p.places ≡ ([], nodes)) }
        ensures sheet { IfOk result (λ p. p.sheet ≡ nodes) }
    {
        let cells = TermCells::new(alloc, 2 * nodes)?;
        let places = Places::new(alloc, nodes)?;
        let sheet = Room::new(alloc, nodes)?;
        Ok(Path {
            cells,
            places,
            sheet,
        })
    }

    /// The hypotheses stand in cells, and their places come last.
    fn load_all(&mut self, fs: &[Formula]) -> Option<()>
        ensures cells { self.new.cells.1 ≡ self.old.cells.1 }
        ensures places { self.new.places.1 ≡ self.old.places.1 }
        ensures sheet { self.new.sheet ≡ self.old.sheet }
        ensures standing { IfSome result (λ u. Adds self.old.places.0 self.new.places.0 self.new.cells.0 fs.now) }
        ensures takes { Takes self.old self.new (sum_by nodes fs.now) result }
    {
        standing_lasts();
        for f in fs {
            let p = self.cells.load(f)?;
            self.places.push(p)?;
        }
        Some(())
    }

    /// The sequent alone stands in cells; the place of its goal.
    pub(crate) fn load(&mut self, s: &Sequent) -> Option<u32>
        ensures cells { self.new.cells.1 ≡ self.old.cells.1 }
        ensures places { self.new.places.1 ≡ self.old.places.1 }
        ensures sheet { self.new.sheet ≡ self.old.sheet }
        ensures standing { IfSome result (λ goal. StandsIn self.new.cells.0 self.new.places.0 goal s.now) }
        ensures takes { HasRoom self.old → Ends self.old self.new (sequent_nodes s.now) result }
    {
        standing_lasts();
        self.cells.truncate(0);
        self.places.truncate(0);
        self.load_all(s.hyps.as_slice())?;
        self.cells.load(&s.goal)
    }

    /// What formula k gives, the goal with 0, of the sequent whose hypotheses have the places from `start` on.
    fn cases_at(&self, vars: &[(Name, Desc)], start: usize, goal: u32, k: u32) -> Option<Cases>
        ensures { (s : Sequent) → s.vars ≡ vars.now → StandsIn self.now.cells.0 (drop start self.now.places.0) goal s → CasesAt self.now.cells.0 k s result }
    {
        if k == 0 {
            return goal_cases(&self.cells, vars, goal);
        }
        let p = named(self.places.from(start), k)?;
        hypothesis_cases(&self.cells, vars, p)
    }

    /// The same where it is n sequents of small formulas.
    pub(crate) fn split(
        &self,
        vars: &[(Name, Desc)],
        start: usize,
        goal: u32,
        k: u32,
        n: u32,
    ) -> Option<Cases>
        ensures { (s : Sequent) → s.vars ≡ vars.now → StandsIn self.now.cells.0 (drop start self.now.places.0) goal s → SplitIs self.now.cells.0 k n s result }
    {
        let cases = self.cases_at(vars, start, goal, k)?;
        if count(cases) != n {
            return None;
        }
        if !are_small(&self.cells, cases) {
            return None;
        }
        Some(cases)
    }

    /// Makes a formula, whose place comes last.
    fn push_part(&mut self, part: Part) -> Option<()>
        ensures cells { Grows self.old.cells self.new.cells (made part + 1) }
        ensures places { self.new.places.1 ≡ self.old.places.1 }
        ensures longer { length self.old.places.0 ≤ length self.new.places.0 }
        ensures sheet { self.new.sheet ≡ self.old.sheet }
        ensures standing { (t : Term) → PartIs self.old.cells.0 part t → IfSome result (λ u. Adds self.old.places.0 self.new.places.0 self.new.cells.0 (t ∷ [])) }
        ensures takes { (t : Term) → PartIs self.old.cells.0 part t → Takes self.old self.new (nodes t) result }
    {
        let p = make(&mut self.cells, part)?;
        self.places.push(p)
    }

    /// The same with the formulas of a case.
    fn push_case(&mut self, case: Case) -> Option<()>
        ensures cells { Grows self.old.cells self.new.cells (made_case case + 1) }
        ensures places { self.new.places.1 ≡ self.old.places.1 }
        ensures longer { length self.old.places.0 ≤ length self.new.places.0 }
        ensures sheet { self.new.sheet ≡ self.old.sheet }
        ensures standing { (ts : List Term) → FormulasAre self.old.cells.0 case ts → IfSome result (λ u. Adds self.old.places.0 self.new.places.0 self.new.cells.0 ts) }
        ensures takes { (ts : List Term) → FormulasAre self.old.cells.0 case ts → Takes self.old self.new (sum_by nodes ts) result }
    {
        standing_lasts();
        match case {
            Case::Nothing => Some(()),
            Case::Only(x) => self.push_part(x),
            Case::Both(x, y) => {
                self.push_part(x)?;
                self.push_part(y)
            }
        }
    }

    /// Makes the goal of a case, and the hypothesis that comes last, where it has one.
    fn push_goal_case(&mut self, case: Case) -> Option<u32>
        ensures cells { Grows self.old.cells self.new.cells (made_case case + 1) }
        ensures places { self.new.places.1 ≡ self.old.places.1 }
        ensures longer { length self.old.places.0 ≤ length self.new.places.0 }
        ensures sheet { self.new.sheet ≡ self.old.sheet }
        ensures standing { (g : GoalCase) → GoalIs self.old.cells.0 case g → IfSome result (λ at. Adds self.old.places.0 self.new.places.0 self.new.cells.0 g.0 × (stands self.new.cells.0 g.1 at ≡ true)) }
        ensures takes { (g : GoalCase) → GoalIs self.old.cells.0 case g → Takes self.old self.new (sum_by nodes g.0 + nodes g.1) result }
    {
        standing_lasts();
        match case {
            Case::Nothing => None,
            Case::Only(x) => make(&mut self.cells, x),
            Case::Both(x, y) => {
                self.push_part(x)?;
                make(&mut self.cells, y)
            }
        }
    }

    /// Puts the places of the hypotheses of a sequent last once more, with those of the formulas of a case in the place of hypothesis k,
    /// counted from 0.
    fn open_hypothesis(&mut self, start: usize, k: usize, case: Case) -> Option<()>
        ensures cells { Grows self.old.cells self.new.cells (made_case case + 1) }
        ensures places { self.new.places.1 ≡ self.old.places.1 }
        ensures longer { length self.old.places.0 ≤ length self.new.places.0 }
        ensures sheet { self.new.sheet ≡ self.old.sheet }
        ensures standing { (hs ts : List Term) → AllStand self.old.cells.0 hs (drop start self.old.places.0) → FormulasAre self.old.cells.0 case ts → IfSome result (λ u. Adds self.old.places.0 self.new.places.0 self.new.cells.0 (in_place k ts hs)) }
        ensures takes { (hs ts : List Term) → AllStand self.old.cells.0 hs (drop start self.old.places.0) → k < length hs → FormulasAre self.old.cells.0 case ts → Takes self.old self.new (sum_by nodes (in_place k ts hs)) result }
    {
        standing_lasts();
        let end = self.places.held();
        let at = start.checked_add(k)?;
        if at >= end {
            return None;
        }
        self.places.repeat(start, at)?;
        self.push_case(case)?;
        self.places.repeat(at + 1, end)
    }

    /// Puts the places of the hypotheses of a sequent last once more, and behind them that of the hypothesis of a case, and makes its
    /// goal.
    fn open_goal(&mut self, start: usize, case: Case) -> Option<u32>
        ensures cells { Grows self.old.cells self.new.cells (made_case case + 1) }
        ensures places { self.new.places.1 ≡ self.old.places.1 }
        ensures longer { length self.old.places.0 ≤ length self.new.places.0 }
        ensures sheet { self.new.sheet ≡ self.old.sheet }
        ensures standing { (s : Sequent) (g : GoalCase) (goal : ℕ) → StandsIn self.old.cells.0 (drop start self.old.places.0) goal s → GoalIs self.old.cells.0 case g → IfSome result (λ at. Opens self.old.places.0 self.new.places.0 self.new.cells.0 (with_goal_case s g) at) }
        ensures takes { (s : Sequent) (g : GoalCase) → start ≤ length self.old.places.0 → AllStand self.old.cells.0 s.hyps (drop start self.old.places.0) → GoalIs self.old.cells.0 case g → Takes self.old self.new (sequent_nodes (with_goal_case s g)) result }
    {
        standing_lasts();
        let end = self.places.held();
        if start > end {
            return None;
        }
        self.places.repeat(start, end)?;
        self.push_goal_case(case)
    }

    /// Makes the sequent of a case of formula k, the goal with 0, and answers the place of its goal. Those of its hypotheses come last.
    pub(crate) fn open(&mut self, start: usize, goal: u32, k: u32, case: Case) -> Option<u32>
        ensures cells { Grows self.old.cells self.new.cells (made_case case + 1) }
        ensures places { self.new.places.1 ≡ self.old.places.1 }
        ensures longer { length self.old.places.0 ≤ length self.new.places.0 }
        ensures sheet { self.new.sheet ≡ self.old.sheet }
        ensures standing { (s child : Sequent) → StandsIn self.old.cells.0 (drop start self.old.places.0) goal s → ChildIs self.old.cells.0 k s case child → IfSome result (λ at. Opens self.old.places.0 self.new.places.0 self.new.cells.0 child at) }
        ensures takes { (s child : Sequent) → start ≤ length self.old.places.0 → StandsIn self.old.cells.0 (drop start self.old.places.0) goal s → ChildIs self.old.cells.0 k s case child → Takes self.old self.new (sequent_nodes child) result }
    {
        standing_lasts();
        if k == 0 {
            return self.open_goal(start, case);
        }
        self.open_hypothesis(start, (k - 1) as usize, case)?;
        Some(goal)
    }
}
