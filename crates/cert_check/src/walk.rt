//! The steps of a certificate one after another.

ghost use Rattle.std.specs.Prelude.{◌≡◌, ℕ, ◌+◌, ◌*◌, ◌^◌, ◌<◌, ◌≤◌, false, drop, length, slice_get, IfNone, IfOk, IfSome, OnOk, Some};
ghost use Rattle.vc_sequents.specs.declared.sequent.Sequent.{Sequent};
ghost use Rattle.cert_check.specs.Legality.{gives, linear_step, when};
ghost use Rattle.cert_check.specs.working.Path.{StandsIn};
ghost use Rattle.cert_check.specs.working.Children.{ChildIs};
ghost use Rattle.cert_check.specs.Need.{row_room, sequent_nodes};
ghost use Rattle.cert_check.specs.working.Room.{HasRoom, Holds, Needs};
ghost use Rattle.cert_check.specs.working.Walking.{Walked, is_split};

use crate::cases::{Case, Cases};
use crate::closing::{allows_absurd, allows_clash, allows_hyp, allows_same};
use crate::path::Path;
use cell_rows::CellSequent;
use cert_form::Step;
use math_terms::{Desc, Line, Name, RowName};
use vc_sequents::Sequent;

/// Why a walk ends before the last step: the step of this number, from 0, is not allowed or missing, or there is too little room.
#[derive(Clone, Copy, Debug)]
pub(crate) enum Stop {
    Illegal(u32),
    Full,
}

impl Path {
    /// Whether a step that splits nothing is allowed; none where there is no room.
    fn allows(
        &mut self,
        vars: &[(Name, Desc)],
        step: &Step,
        start: usize,
        goal: u32,
    ) -> Option<bool>
        requires { self.old.cells.1 ≡ 2 * self.old.sheet }
        ensures cells { self.new.cells ≡ self.old.cells }
        ensures places { self.new.places ≡ self.old.places }
        ensures sheet { self.new.sheet ≡ self.old.sheet }
        ensures exact { (s : Sequent) → s.vars ≡ vars.now → StandsIn self.old.cells.0 (drop start self.old.places.0) goal s → is_split step.now ≡ false → IfSome result (λ b. gives step.now s ≡ when b) }
        ensures short { (s : Sequent) → StandsIn self.old.cells.0 (drop start self.old.places.0) goal s → IfNone result (self.old.sheet < sequent_nodes s + row_room step.now) }
    {
        let hyps = self.places.from(start);
        match step {
            Step::Same => Some(allows_same(&self.cells, goal)),
            Step::Hyp(k) => Some(allows_hyp(&self.cells, hyps, goal, *k)),
            Step::Absurd(k) => Some(allows_absurd(&self.cells, hyps, *k)),
            Step::Clash(k, l) => Some(allows_clash(&self.cells, hyps, *k, *l)),
            Step::Linear { rows, lines } => {
                self.allows_linear(vars, rows.as_slice(), lines.as_slice(), start, goal)
            }
            Step::Split(_, _) | Step::Subst(_) | Step::Rewrite { .. } => Some(false),
        }
    }

    /// Whether the named rows and the lines end in a contradiction.
    fn allows_linear(
        &mut self,
        vars: &[(Name, Desc)],
        rows: &[RowName],
        lines: &[Line],
        start: usize,
        goal: u32,
    ) -> Option<bool>
        requires { self.old.cells.1 ≡ 2 * self.old.sheet }
        ensures cells { self.new.cells ≡ self.old.cells }
        ensures places { self.new.places ≡ self.old.places }
        ensures sheet { self.new.sheet ≡ self.old.sheet }
        ensures exact { (s : Sequent) → s.vars ≡ vars.now → StandsIn self.old.cells.0 (drop start self.old.places.0) goal s → IfSome result (λ b. b ≡ linear_step s rows.now lines.now) }
        ensures short { (s : Sequent) → StandsIn self.old.cells.0 (drop start self.old.places.0) goal s → IfNone result (self.old.sheet < sequent_nodes s + 64 * (length rows.now + length lines.now)) }
    {
        // This says that the cells are no more than there is room for.
        let _count = self.cells.held();
        let sequent = CellSequent {
            cells: &self.cells,
            vars,
            hyps: self.places.from(start),
            goal,
        };
        match self.sheet.linear_test(&sequent, rows, lines) {
            Ok(holds) => Some(holds),
            Err(_) => None,
        }
    }

    /// Checks the steps from number `at` on that belong to a sequent, and answers the number of the step after them.
    #[cycle(walk)]
    pub(crate) fn walk(
        &mut self,
        vars: &[(Name, Desc)],
        steps: &[Step],
        at: u32,
        start: usize,
        goal: u32,
    ) -> Result<u32, Stop>
        requires few { length steps.now < 2 ^ 32 }
        requires room { self.old.cells.1 ≡ 2 * self.old.sheet }
        ensures later { IfOk result (λ next. at < next) }
        ensures cells { OnOk result (self.new.cells ≡ self.old.cells) }
        ensures cell_room { self.new.cells.1 ≡ self.old.cells.1 }
        ensures place_room { self.new.places.1 ≡ self.old.places.1 }
        ensures sheet { self.new.sheet ≡ self.old.sheet }
        ensures exact { (s : Sequent) → s.vars ≡ vars.now → StandsIn self.old.cells.0 (drop start self.old.places.0) goal s → Walked steps.now at s result × OnOk result (self.new.places ≡ self.old.places) }
        ensures short { (s : Sequent) (above : ℕ) → s.vars ≡ vars.now → start ≤ length self.old.places.0 → StandsIn self.old.cells.0 (drop start self.old.places.0) goal s → Holds self.old (above + sequent_nodes s) → Needs steps.now at (above, s) self.old.sheet result }
    {
        let Some(step) = steps.get(at as usize) else {
            return Err(Stop::Illegal(at));
        };
        if let Step::Split(k, n) = step {
            return self.walk_split(vars, steps, at, start, goal, *k, *n);
        }
        match self.allows(vars, step, start, goal) {
            Some(true) => Ok(at + 1),
            Some(false) => Err(Stop::Illegal(at)),
            None => Err(Stop::Full),
        }
    }

    /// The same where step `at` splits formula k into n sequents.
    #[cycle(walk)]
    fn walk_split(
        &mut self,
        vars: &[(Name, Desc)],
        steps: &[Step],
        at: u32,
        start: usize,
        goal: u32,
        k: u32,
        n: u32,
    ) -> Result<u32, Stop>
        requires few { length steps.now < 2 ^ 32 }
        requires within { at < length steps.now }
        requires room { self.old.cells.1 ≡ 2 * self.old.sheet }
        ensures later { IfOk result (λ next. at < next) }
        ensures cells { OnOk result (self.new.cells ≡ self.old.cells) }
        ensures cell_room { self.new.cells.1 ≡ self.old.cells.1 }
        ensures place_room { self.new.places.1 ≡ self.old.places.1 }
        ensures sheet { self.new.sheet ≡ self.old.sheet }
        ensures exact { (s : Sequent) → s.vars ≡ vars.now → StandsIn self.old.cells.0 (drop start self.old.places.0) goal s → slice_get steps.now at ≡ Some (Step.Split k n) → Walked steps.now at s result × OnOk result (self.new.places ≡ self.old.places) }
        ensures short { (s : Sequent) (above : ℕ) → s.vars ≡ vars.now → start ≤ length self.old.places.0 → StandsIn self.old.cells.0 (drop start self.old.places.0) goal s → slice_get steps.now at ≡ Some (Step.Split k n) → Holds self.old (above + sequent_nodes s) → Needs steps.now at (above, s) self.old.sheet result }
    {
        let Some(cases) = self.split(vars, start, goal, k, n) else {
            return Err(Stop::Illegal(at));
        };
        match cases {
            Cases::One(case) => self.walk_case(vars, steps, at + 1, start, goal, k, case),
            Cases::Two(first, second) => {
                match self.walk_case(vars, steps, at + 1, start, goal, k, first) {
                    Ok(next) => self.walk_case(vars, steps, next, start, goal, k, second),
                    Err(stop) => Err(stop),
                }
            }
        }
    }

    /// Checks the steps from number `at` on that belong to one sequent of a split of formula k.
    #[cycle(walk)]
    fn walk_case(
        &mut self,
        vars: &[(Name, Desc)],
        steps: &[Step],
        at: u32,
        start: usize,
        goal: u32,
        k: u32,
        case: Case,
    ) -> Result<u32, Stop>
        requires few { length steps.now < 2 ^ 32 }
        requires room { self.old.cells.1 ≡ 2 * self.old.sheet }
        ensures later { IfOk result (λ next. at < next) }
        ensures cells { OnOk result (self.new.cells ≡ self.old.cells) }
        ensures cell_room { self.new.cells.1 ≡ self.old.cells.1 }
        ensures place_room { self.new.places.1 ≡ self.old.places.1 }
        ensures sheet { self.new.sheet ≡ self.old.sheet }
        ensures exact { (s child : Sequent) → s.vars ≡ vars.now → StandsIn self.old.cells.0 (drop start self.old.places.0) goal s → ChildIs self.old.cells.0 k s case child → Walked steps.now at child result × OnOk result (self.new.places ≡ self.old.places) }
        ensures short { (s child : Sequent) (above : ℕ) → s.vars ≡ vars.now → start ≤ length self.old.places.0 → StandsIn self.old.cells.0 (drop start self.old.places.0) goal s → ChildIs self.old.cells.0 k s case child → Holds self.old above → Needs steps.now at (above, child) self.old.sheet result }
    {
        if at as usize >= steps.len() {
            return Err(Stop::Illegal(at));
        }
        let Ok(held) = u32::try_from(self.cells.held()) else {
            return Err(Stop::Full);
        };
        let end = self.places.held();
        let Some(new_goal) = self.open(start, goal, k, case) else {
            return Err(Stop::Full);
        };
        match self.walk(vars, steps, at, end, new_goal) {
            Ok(next) => {
                self.cells.truncate(held);
                self.places.truncate(end);
                Ok(next)
            }
            Err(stop) => Err(stop),
        }
    }

    /// Checks the steps of a certificate of a sequent, and answers the number of the step after them.
    pub(crate) fn check(&mut self, steps: &[Step], s: &Sequent) -> Result<u32, Stop>
        requires few { length steps.now < 2 ^ 32 }
        requires room { self.old.cells.1 ≡ 2 * self.old.sheet }
        ensures cells { self.new.cells.1 ≡ self.old.cells.1 }
        ensures places { self.new.places.1 ≡ self.old.places.1 }
        ensures sheet { self.new.sheet ≡ self.old.sheet }
        ensures exact { Walked steps.now 0 s.now result }
        ensures short { HasRoom self.old → 0 < length steps.now → Needs steps.now 0 (0, s.now) self.old.sheet result }
    {
        let Some(goal) = self.load(s) else {
            return Err(Stop::Full);
        };
        self.walk(s.vars.as_slice(), steps, 0, 0, goal)
    }
}
