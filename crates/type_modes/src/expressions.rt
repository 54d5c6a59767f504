//! The rules of expressions in programs.

ghost use Rattle.std.specs.Prelude.{◌≡◌, map};
ghost use Rattle.std.specs.List.{flat_map};
ghost use Rattle.std.specs.Option.{option_map};
ghost use Rattle.type_rules.specs.Breaches.{least_of};
ghost use Rattle.type_rules.specs.working.Seen.{seen_origin};
ghost use Rattle.type_modes.specs.Calls as call;
ghost use Rattle.type_modes.specs.Expressions as spec;
ghost use Rattle.type_modes.specs.Places.{Body as Names};
ghost use Rattle.type_modes.specs.working.Found as found;
ghost use Rattle.type_modes.specs.working.Seen.{seen_body, seen_callee, seen_holder, seen_spot};

use crate::arguments::{argument_at, overlapping};
use crate::body::Body;
use crate::callee::{Callee, called};
use crate::places::{Holder, Spot};
use math_terms::Name;
use res_ast::{BinOp, Expr, Form};
use type_rules::{Breach, Least, Origin, differ, is_no_scalar};

fn unary<'c>(wanted: Origin<'c>, a: Option<Origin<'c>>) -> Option<Origin<'c>>
    ensures { option_map seen_origin result ≡ spec.unary (seen_origin wanted.entry) (option_map seen_origin a.entry) }
{
    if differ(Some(wanted), a) {
        None
    } else {
        Some(wanted)
    }
}

fn taking<'c>(
    wanted: Origin<'c>,
    answer: Origin<'c>,
    a: Option<Origin<'c>>,
    b: Option<Origin<'c>>,
) -> Option<Origin<'c>>
    ensures { option_map seen_origin result ≡ spec.taking (seen_origin wanted.entry) (seen_origin answer.entry) (option_map seen_origin a.entry) (option_map seen_origin b.entry) }
{
    if differ(Some(wanted), a) || differ(Some(wanted), b) {
        None
    } else {
        Some(answer)
    }
}

fn comparing<'c>(a: Option<Origin<'c>>, b: Option<Origin<'c>>) -> Option<Origin<'c>>
    ensures { option_map seen_origin result ≡ spec.comparing (option_map seen_origin a.entry) (option_map seen_origin b.entry) }
{
    if is_no_scalar(a) || is_no_scalar(b) || differ(a, b) {
        None
    } else {
        Some(Origin::Boolean)
    }
}

fn binary<'c>(op: BinOp, a: Option<Origin<'c>>, b: Option<Origin<'c>>) -> Option<Origin<'c>>
    ensures { option_map seen_origin result ≡ spec.binary op (option_map seen_origin a.entry) (option_map seen_origin b.entry) }
{
    match op {
        BinOp::Add | BinOp::Sub | BinOp::Mul | BinOp::Div | BinOp::Mod => {
            taking(Origin::Integer, Origin::Integer, a, b)
        }
        BinOp::Less | BinOp::LessEq | BinOp::Greater | BinOp::GreaterEq => {
            taking(Origin::Integer, Origin::Boolean, a, b)
        }
        BinOp::And | BinOp::Or => taking(Origin::Boolean, Origin::Boolean, a, b),
        BinOp::Eq | BinOp::NotEq => comparing(a, b),
        BinOp::Cat | BinOp::Implies => None,
    }
}

/// The place that an expression is, where it is one.
pub(crate) fn spot_of(e: &Expr) -> Option<Spot<'_>>
    ensures { (b : Names) → option_map seen_spot result ≡ (spec.look b e.now).spot }
{
    match &e.form {
        Form::Word(base) => Some(Spot { base, field: None }),
        Form::Dot(base, field) => Some(Spot {
            base,
            field: Some(field),
        }),
        _ => None,
    }
}

// The type of what stands at a place, or of an Integer formal.
fn held_type<'c>(is_constant: bool, held: Option<Holder<'c>>) -> Option<Origin<'c>>
    ensures { option_map seen_origin result ≡ spec.held_type is_constant (option_map seen_holder held.entry) }
{
    match held {
        Some(held) => held.origin,
        None if is_constant => Some(Origin::Integer),
        None => None,
    }
}

// Notes the breach of an operator or operand that answers nothing.
fn answering<'c>(answer: Option<Origin<'c>>, at: u32, least: &mut Least<'c>) -> Option<Origin<'c>>
    ensures origin { option_map seen_origin result ≡ option_map seen_origin answer.entry }
    ensures noted { least.new ≡ least_of least.old (found.unanswered (option_map seen_origin answer.entry) at) }
{
    least.note_if(answer.is_none(), Breach::OfType { at });
    answer
}

impl<'c> Body<'c> {
    // A name or a field of one, as an operand.
    fn operand(
        &self,
        spot: Spot<'c>,
        is_constant: bool,
        at: u32,
        least: &mut Least<'c>,
    ) -> Option<Origin<'c>>
        ensures origin { option_map seen_origin result ≡ (spec.operand (seen_body self.now) (seen_spot spot.entry) is_constant at).origin }
        ensures noted { least.new ≡ least_of least.old (spec.operand (seen_body self.now) (seen_spot spot.entry) is_constant at).breaches }
    {
        let held = self.at(spot);
        least.note_if(held.is_none() && !is_constant, Breach::OfType { at });
        held_type(is_constant, held)
    }

    /// Notes the breaches in an expression, and answers its type, unless it is refused itself.
    #[cycle(expression)]
    pub(crate) fn look(&self, e: &'c Expr, least: &mut Least<'c>) -> Option<Origin<'c>>
        ensures origin { option_map seen_origin result ≡ (spec.look (seen_body self.now) e.now).origin }
        ensures noted { least.new ≡ least_of least.old (spec.look (seen_body self.now) e.now).breaches }
    {
        self.look_form(&e.form, e.at, least)
    }

    #[cycle(expression)]
    fn look_form(&self, form: &'c Form, at: u32, least: &mut Least<'c>) -> Option<Origin<'c>>
        ensures origin { option_map seen_origin result ≡ (found.form_look (seen_body self.now) form.now at).origin }
        ensures noted { least.new ≡ least_of least.old (found.form_look (seen_body self.now) form.now at).breaches }
    {
        match form {
            Form::Int(_) => Some(Origin::Integer),
            Form::Truth(_) => Some(Origin::Boolean),
            Form::MinInt => answering(None, at, least),
            Form::MaxInt => answering(None, at, least),
            Form::Word(base) => {
                let spot = Spot { base, field: None };
                self.operand(spot, self.scope.is_constant(base), at, least)
            }
            Form::Old(_) => answering(None, at, least),
            Form::Dot(base, field) => {
                let spot = Spot {
                    base,
                    field: Some(field),
                };
                self.operand(spot, false, at, least)
            }
            Form::OldDot(_, _) => answering(None, at, least),
            Form::Call(facility, name, args) => {
                self.look_call(true, facility, name, args.as_slice(), at, least)
            }
            Form::Initial(_, a) => {
                self.look(a.get(), least);
                answering(None, at, least)
            }
            Form::Not(a) => {
                let a = self.look(a.get(), least);
                answering(unary(Origin::Boolean, a), at, least)
            }
            Form::Minus(a) => {
                let a = self.look(a.get(), least);
                answering(unary(Origin::Integer, a), at, least)
            }
            Form::Binary(op, a, b) => {
                let a = self.look(a.get(), least);
                let b = self.look(b.get(), least);
                answering(binary(*op, a, b), at, least)
            }
            Form::Empty => answering(None, at, least),
            Form::Single(a) => {
                self.look(a.get(), least);
                answering(None, at, least)
            }
            Form::Bars(a) => {
                self.look(a.get(), least);
                answering(None, at, least)
            }
            Form::Tuple(parts) => {
                self.look_all(parts.as_slice(), least);
                answering(None, at, least)
            }
        }
    }

    // Notes the breaches in several expressions.
    #[cycle(expression)]
    fn look_all(&self, parts: &'c [Expr], least: &mut Least<'c>)
        ensures { least.new ≡ least_of least.old (flat_map (λ p. p.breaches) (map (spec.look (seen_body self.now)) parts.now)) }
    {
        for part in parts {
            self.look(part, least);
        }
    }

    // Notes the breaches in the arguments of a call, each with its parameter, where there is one.
    #[cycle(expression)]
    fn look_each(&self, callee: Option<Callee<'c>>, args: &'c [Expr], least: &mut Least<'c>)
        ensures { least.new ≡ least_of least.old (call.each (seen_body self.now) (found.params_of (option_map seen_callee callee.entry)) (map (spec.look (seen_body self.now)) args.now)) }
    {
        for k in 0..args.len() {
            let arg = &args[k];
            let origin = self.look(arg, least);
            argument_at(self, callee, k, arg, origin, least);
        }
    }

    /// Notes the breaches in a call, where a value is wanted or an operation, and answers the type of the value.
    #[cycle(expression)]
    pub(crate) fn look_call(
        &self,
        wants_value: bool,
        facility: &'c Option<Name>,
        name: &'c Name,
        args: &'c [Expr],
        at: u32,
        least: &mut Least<'c>,
    ) -> Option<Origin<'c>>
        ensures origin { option_map seen_origin result ≡ call.answer ((seen_body self.now).called facility.now name.now) (map (spec.look (seen_body self.now)) args.now) }
        ensures noted { least.new ≡ least_of least.old (call.call (seen_body self.now) wants_value ((seen_body self.now).called facility.now name.now) (map (spec.look (seen_body self.now)) args.now) at) }
    {
        let callee = called(
            self.scope.table,
            self.component,
            self.number,
            facility,
            name,
        );
        self.look_each(callee, args, least);
        overlapping(callee, args, least);
        match callee {
            None => answering(None, at, least),
            Some(callee) => {
                let fits = callee.fits(wants_value, args.len());
                least.note_if(!fits, Breach::OfType { at });
                least.note_if(!callee.in_order, Breach::Order { at });
                callee.answer(args.len())
            }
        }
    }
}
