//! The rules of arguments.

ghost use Rattle.std.specs.Prelude.{◌≡◌, ◌<◌, ◌≤◌, [], length, map, slice_get};
ghost use Rattle.std.specs.List.{flat_map, zip};
ghost use Rattle.std.specs.Option.{option_map};
ghost use Rattle.type_rules.specs.Breaches.{least_of};
ghost use Rattle.type_rules.specs.working.Seen.{seen_origin};
ghost use Rattle.type_modes.specs.Calls as spec;
ghost use Rattle.type_modes.specs.Expressions.{look};
ghost use Rattle.type_modes.specs.Places.{Body as Names};
ghost use Rattle.type_modes.specs.working.Found as found;
ghost use Rattle.type_modes.specs.working.Seen.{seen_body, seen_callee, seen_holder, seen_param, seen_spot};

use crate::body::Body;
use crate::callee::{Callee, Wanted};
use crate::expressions::spot_of;
use crate::places::{Holder, Spot};
use res_ast::{Expr, Mode};
use type_rules::{Breach, Least, Origin, differ, is_evaluates};

// Whether what stands at an argument's place may be moved in a mode.
fn may_move(mode: Mode, held: Option<Holder<'_>>) -> bool
    ensures { result ≡ spec.may_move mode (option_map seen_holder held.entry) }
{
    match held {
        Some(held) => matches!(mode, Mode::Preserves) || held.is_changeable(),
        None => false,
    }
}

fn held<'c>(body: &Body<'c>, arg: &Expr) -> Option<Holder<'c>>
    ensures { option_map seen_holder result ≡ spec.held (seen_body body.now) (look (seen_body body.now) arg.now) }
{
    body.at(spot_of(arg)?)
}

// Notes the breaches of an argument, of this type, against its parameter.
fn argument<'c>(
    body: &Body<'c>,
    wanted: Wanted<'c>,
    arg: &'c Expr,
    origin: Option<Origin<'c>>,
    least: &mut Least<'c>,
)
    requires { option_map seen_origin origin ≡ (look (seen_body body.now) arg.now).origin }
    ensures { least.new ≡ least_of least.old (spec.argument (seen_body body.now) (seen_param wanted.entry, look (seen_body body.now) arg.now)) }
{
    let at = arg.at;
    let evaluates = is_evaluates(wanted.mode);
    let held = held(body, arg);
    let differs = differ(wanted.origin, origin) && (evaluates || held.is_some());
    least.note_if(differs, Breach::OfType { at });
    let moves = !evaluates && !may_move(wanted.mode, held);
    least.note_if(moves, Breach::Mode { at });
}

// The parameter of a number of what is called, where both are there.
fn wanted_at<'c>(callee: Option<Callee<'c>>, index: usize) -> Option<Wanted<'c>>
    ensures { option_map seen_param result ≡ slice_get (found.params_of (option_map seen_callee callee.entry)) index }
{
    callee?.kind.param(index)
}

/// Notes the breaches of the argument of a number, of this type, against its parameter, where there is one.
pub(crate) fn argument_at<'c>(
    body: &Body<'c>,
    callee: Option<Callee<'c>>,
    index: usize,
    arg: &'c Expr,
    origin: Option<Origin<'c>>,
    least: &mut Least<'c>,
)
    requires { option_map seen_origin origin ≡ (look (seen_body body.now) arg.now).origin }
    ensures { least.new ≡ least_of least.old (found.argument_of (seen_body body.now) (slice_get (found.params_of (option_map seen_callee callee.entry)) index) (look (seen_body body.now) arg.now)) }
{
    if let Some(wanted) = wanted_at(callee, index) {
        argument(body, wanted, arg, origin, least);
    }
}

// The place that the argument of that number moves, where it does.
fn moved_at<'c>(callee: Callee<'c>, args: &'c [Expr], index: usize) -> Option<Spot<'c>>
    requires { index < length args.now }
    ensures { (b : Names) → option_map seen_spot result ≡ found.moved_at (seen_callee callee.entry).signature.params (map (look b) args.now) index }
{
    let wanted = callee.kind.param(index)?;
    if is_evaluates(wanted.mode) {
        return None;
    }
    spot_of(&args[index])
}

// Whether an argument in front of this number moves a place that overlaps this one.
fn overlaps_earlier<'c>(callee: Callee<'c>, args: &'c [Expr], index: usize, spot: Spot<'_>) -> bool
    requires { index ≤ length args.now }
    ensures { (b : Names) → result ≡ found.overlaps_earlier (seen_callee callee.entry).signature.params (map (look b) args.now) index (seen_spot spot.entry) }
{
    for k in 0..index {
        if let Some(own) = moved_at(callee, args, k) {
            if spot.overlaps(&own) {
                return true;
            }
        }
    }
    false
}

// Notes the argument of a number, at this place, where it overlaps an earlier one.
fn overlap_at<'c>(
    callee: Callee<'c>,
    args: &'c [Expr],
    index: usize,
    at: u32,
    least: &mut Least<'c>,
)
    requires { index < length args.now }
    ensures { (b : Names) → least.new ≡ least_of least.old (found.overlap_at (seen_callee callee.entry).signature.params (map (look b) args.now) index at) }
{
    if let Some(spot) = moved_at(callee, args, index) {
        let overlaps = overlaps_earlier(callee, args, index, spot);
        least.note_if(overlaps, Breach::Repeated { at });
    }
}

/// Notes each argument that moves a place which overlaps that of an earlier one.
pub(crate) fn overlapping<'c>(callee: Option<Callee<'c>>, args: &'c [Expr], least: &mut Least<'c>)
    ensures { (b : Names) → least.new ≡ least_of least.old (spec.overlapping [] (flat_map spec.moved (zip (found.params_of (option_map seen_callee callee.entry)) (map (look b) args.now)))) }
{
    let Some(called) = callee else {
        return;
    };
    for k in 0..args.len() {
        overlap_at(called, args, k, args[k].at, least);
    }
}
