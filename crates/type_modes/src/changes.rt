//! What statements change, against a changing list.

ghost use Rattle.std.specs.Prelude.{◌≡◌, map, slice_get};
ghost use Rattle.std.specs.List.{flat_map};
ghost use Rattle.std.specs.Option.{option_map};
ghost use Rattle.type_modes.specs.Calls as call;
ghost use Rattle.type_modes.specs.Expressions as expression;
ghost use Rattle.type_modes.specs.Statements as spec;
ghost use Rattle.type_modes.specs.working.Found as found;
ghost use Rattle.type_modes.specs.working.Seen.{seen_callee, seen_loop, seen_param, seen_spot};

use crate::body::Body;
use crate::callee::{Callee, Wanted, called};
use crate::expressions::spot_of;
use crate::places::Spot;
use math_terms::Name;
use res_ast::{Expr, Form, Mode, Place, Stmt};
use type_rules::{Breach, Least};

/// A loop with its changing list, in the body of a procedure.
#[derive(Clone, Copy)]
pub(crate) struct Loop<'c> {
    pub(crate) body: Body<'c>,
    pub(crate) listed: &'c [Place],
    pub(crate) at: u32,
}

fn is_changing(mode: Mode) -> bool
    ensures { result ≡ call.is_changing mode }
{
    matches!(
        mode,
        Mode::Alters | Mode::Clears | Mode::Replaces | Mode::Updates
    )
}

// The parameter of that number, from 0, of what is called, where that is known.
fn param_of<'c>(callee: Option<Callee<'c>>, index: usize) -> Option<Wanted<'c>>
    ensures { option_map seen_param result ≡ slice_get (found.params_of (option_map seen_callee callee.entry)) index }
{
    callee?.kind.param(index)
}

impl<'c> Loop<'c> {
    // Notes that a place changes and is not listed. What is not declared does not count.
    fn note_changed(&self, spot: Spot<'c>, least: &mut Least<'c>)
        ensures { least.new ≡ found.noted (seen_loop self.now) least.old (call.declared (seen_loop self.now).body (seen_spot spot.entry)) }
    {
        if self.body.at(spot).is_none() {
            return;
        }
        let is_listed = self.body.is_listed(self.listed, spot);
        let breach = Breach::Changing {
            at: self.at,
            name: spot.base,
        };
        least.note_if(!is_listed, breach);
    }

    // Notes what an argument changes itself, where there is a parameter for it.
    #[tactic(auto, using(crate::proofs::Noting::noted_nil))]
    fn note_moved(&self, wanted: Option<Wanted<'c>>, arg: &'c Expr, least: &mut Least<'c>)
        ensures { least.new ≡ found.noted (seen_loop self.now) least.old (found.moved_changes (seen_loop self.now).body (option_map seen_param wanted.entry) (expression.look (seen_loop self.now).body arg.now)) }
    {
        let Some(wanted) = wanted else {
            return;
        };
        if !is_changing(wanted.mode) {
            return;
        }
        if let Some(spot) = spot_of(arg) {
            self.note_changed(spot, least);
        }
    }

    // Notes what the arguments of a call change, each with its parameter, where there is one.
    #[cycle(changes)]
    fn note_each(&self, callee: Option<Callee<'c>>, args: &'c [Expr], least: &mut Least<'c>)
        ensures { least.new ≡ found.noted (seen_loop self.now) least.old (call.call_changes (seen_loop self.now).body (option_map seen_callee callee.entry) (map (expression.look (seen_loop self.now).body) args.now)) }
    {
        for k in 0..args.len() {
            let arg = &args[k];
            self.note_expr(arg, least);
            let wanted = param_of(callee, k);
            self.note_moved(wanted, arg, least);
        }
    }

    #[cycle(changes)]
    fn note_call(
        &self,
        facility: &'c Option<Name>,
        name: &'c Name,
        args: &'c [Expr],
        least: &mut Least<'c>,
    )
        ensures { least.new ≡ found.noted (seen_loop self.now) least.old (call.call_changes (seen_loop self.now).body ((seen_loop self.now).body.called facility.now name.now) (map (expression.look (seen_loop self.now).body) args.now)) }
    {
        let body = &self.body;
        let callee = called(
            body.scope.table,
            body.component,
            body.number,
            facility,
            name,
        );
        self.note_each(callee, args, least);
    }

    // Notes what an expression changes.
    #[cycle(changes)]
    fn note_expr(&self, e: &'c Expr, least: &mut Least<'c>)
        ensures { least.new ≡ found.noted (seen_loop self.now) least.old (expression.look (seen_loop self.now).body e.now).changes }
    {
        match &e.form {
            Form::Call(facility, name, args) => {
                self.note_call(facility, name, args.as_slice(), least);
            }
            Form::Initial(_, a) => self.note_expr(a.get(), least),
            Form::Not(a) => self.note_expr(a.get(), least),
            Form::Minus(a) => self.note_expr(a.get(), least),
            Form::Binary(_, a, b) => {
                self.note_expr(a.get(), least);
                self.note_expr(b.get(), least);
            }
            Form::Single(a) => self.note_expr(a.get(), least),
            Form::Bars(a) => self.note_expr(a.get(), least),
            Form::Tuple(parts) => self.note_exprs(parts.as_slice(), least),
            _ => {}
        }
    }

    #[cycle(changes)]
    fn note_exprs(&self, parts: &'c [Expr], least: &mut Least<'c>)
        ensures { least.new ≡ found.noted (seen_loop self.now) least.old (flat_map (λ p. p.changes) (map (expression.look (seen_loop self.now).body) parts.now)) }
    {
        for part in parts {
            self.note_expr(part, least);
        }
    }

    // Notes what a statement changes.
    #[cycle(statement)]
    fn note_stmt(&self, stmt: &'c Stmt, least: &mut Least<'c>)
        ensures { least.new ≡ found.noted (seen_loop self.now) least.old (spec.statement (seen_loop self.now).body stmt.now).changes }
    {
        match stmt {
            Stmt::Swap(_, one, other) => {
                self.note_changed(Spot::of(one), least);
                self.note_changed(Spot::of(other), least);
            }
            Stmt::Assign(_, place, e) => {
                self.note_changed(Spot::of(place), least);
                self.note_expr(e, least);
            }
            Stmt::Call(_, facility, name, args) => {
                self.note_call(facility, name, args.as_slice(), least);
            }
            Stmt::If(_, guard, first, second) => {
                self.note_expr(guard, least);
                self.note_stmts(first.as_slice(), least);
                self.note_stmts(second.as_slice(), least);
            }
            Stmt::While(_, guard, _, _, _, inner) => {
                self.note_expr(guard, least);
                self.note_stmts(inner.as_slice(), least);
            }
        }
    }

    /// Notes what statements change and the loop does not list.
    #[cycle(statement)]
    pub(crate) fn note_stmts(&self, stmts: &'c [Stmt], least: &mut Least<'c>)
        ensures { least.new ≡ found.noted (seen_loop self.now) least.old (spec.changes_in (map (spec.statement (seen_loop self.now).body) stmts.now)) }
    {
        for stmt in stmts {
            self.note_stmt(stmt, least);
        }
    }
}
