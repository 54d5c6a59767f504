//! The types and modes of parameters, results, variables and fields, and the heading of Main.

ghost use Rattle.std.specs.Prelude.{◌≡◌, OnOk};
ghost use Rattle.std.specs.Cmp.Lexicographic.{pointwise};
ghost use Rattle.std.specs.List.{flat_map};
ghost use Rattle.std.specs.Option.{option_copied, option_map};
ghost use Rattle.std.specs.Str.{bytes_eq};
ghost use Rattle.type_rules.specs.Breaches.{least_of};
ghost use Rattle.type_rules.specs.Headings as spec;
ghost use Rattle.type_rules.specs.working.Seen.{seen_origin, seen_scope};

use crate::least::{Breach, Least};
use crate::names::note_variables_twice;
use crate::origin::{Origin, Scope, is_known_scalar, is_known_stream, is_no_scalar};
use math_terms::{Name, NoMemory};
use res_ast::{Heading, Mode, PType, Param, Procedure};
use std::alloc::Global;

const MAIN: &[u8] = b"Main";

const IN_STREAM: &[u8] = b"In_Stream";

const OUT_STREAM: &[u8] = b"Out_Stream";

/// Whether an argument in this mode is evaluated, and not moved.
pub fn is_evaluates(mode: Mode) -> bool
    ensures { result ≡ spec.is_evaluates mode }
{
    matches!(mode, Mode::Evaluates)
}

/// Whether a body does not change a parameter in this mode.
pub fn is_kept(mode: Mode) -> bool
    ensures { result ≡ spec.is_kept mode }
{
    matches!(mode, Mode::Evaluates | Mode::Preserves)
}

fn suits_stream(mode: Mode) -> bool
    ensures { result ≡ spec.suits_stream mode }
{
    matches!(mode, Mode::Updates | Mode::Preserves)
}

fn same_mode(a: Mode, b: Mode) -> bool
    ensures { result ≡ spec.same_mode a b }
{
    match a {
        Mode::Alters => matches!(b, Mode::Alters),
        Mode::Clears => matches!(b, Mode::Clears),
        Mode::Evaluates => matches!(b, Mode::Evaluates),
        Mode::Preserves => matches!(b, Mode::Preserves),
        Mode::Replaces => matches!(b, Mode::Replaces),
        Mode::Restores => matches!(b, Mode::Restores),
        Mode::Updates => matches!(b, Mode::Updates),
    }
}

// ---- parameters, results and variables

fn note_parameter<'c>(scope: &Scope<'c>, is_function: bool, param: &'c Param, least: &mut Least<'c>)
    ensures { least.new ≡ least_of least.old (spec.parameter scope.now.table.now (seen_scope scope.now) is_function param.now) }
{
    let origin = scope.origin(&param.ptype);
    let at = param.at;
    least.note_if(origin.is_none(), Breach::OfType { at: param.ptype.at });
    least.note_if(is_function && !is_kept(param.mode), Breach::Mode { at });
    least.note_if(
        is_evaluates(param.mode) && is_no_scalar(origin),
        Breach::Mode { at },
    );
    least.note_if(
        !suits_stream(param.mode) && is_known_stream(origin),
        Breach::Stream { at },
    );
}

fn note_parameters<'c>(
    scope: &Scope<'c>,
    is_function: bool,
    params: &'c [Param],
    least: &mut Least<'c>,
)
    ensures { least.new ≡ least_of least.old (flat_map (spec.parameter scope.now.table.now (seen_scope scope.now) is_function) params.now) }
{
    for param in params {
        note_parameter(scope, is_function, param, least);
    }
}

fn note_result<'c>(scope: &Scope<'c>, result_type: &'c PType, least: &mut Least<'c>)
    ensures { least.new ≡ least_of least.old (spec.result scope.now.table.now (seen_scope scope.now) result_type.now) }
{
    let fits = is_known_scalar(scope.origin(result_type));
    least.note_if(!fits, Breach::OfType { at: result_type.at });
}

fn note_heading<'c>(scope: &Scope<'c>, heading: &'c Heading, least: &mut Least<'c>)
    ensures { least.new ≡ least_of least.old (spec.heading scope.now.table.now (seen_scope scope.now) heading.now) }
{
    note_parameters(
        scope,
        heading.result.is_some(),
        heading.params.as_slice(),
        least,
    );
    if let Some(result_type) = &heading.result {
        note_result(scope, result_type, least);
    }
}

/// Notes a type of a value that is not known, a stream's, or that of the own family where this is hidden.
pub(crate) fn note_value_type<'c>(
    scope: &Scope<'c>,
    hides: bool,
    ptype: &'c PType,
    least: &mut Least<'c>,
)
    ensures { least.new ≡ least_of least.old (spec.value_type scope.now.table.now (seen_scope scope.now) hides ptype.now) }
{
    let origin = scope.origin(ptype);
    let at = ptype.at;
    least.note_if(is_no_value_type(hides, origin), Breach::OfType { at });
    least.note_if(is_known_stream(origin), Breach::Stream { at });
}

fn is_no_value_type(hides: bool, origin: Option<Origin<'_>>) -> bool
    ensures { result ≡ spec.is_no_value_type hides (option_map seen_origin origin.entry) }
{
    match origin {
        Some(Origin::Own) => hides,
        Some(_) => false,
        None => true,
    }
}

/// Notes such types of variables or fields.
pub(crate) fn note_typed<'c>(
    scope: &Scope<'c>,
    hides: bool,
    variables: &'c [(Name, PType)],
    least: &mut Least<'c>,
)
    ensures { least.new ≡ least_of least.old (flat_map (spec.typed scope.now.table.now (seen_scope scope.now) hides) variables.now) }
{
    for (_, ptype) in variables {
        note_value_type(scope, hides, ptype, least);
    }
}

// ---- procedures

/// Notes the breaches in what a procedure declares.
pub(crate) fn note_procedure<'c>(
    alloc: Global,
    scope: &Scope<'c>,
    hides: bool,
    procedure: &'c Procedure,
    least: &mut Least<'c>,
) -> Result<(), NoMemory>
    ensures { OnOk result (least.new ≡ least_of least.old (spec.procedure scope.now.table.now (seen_scope scope.now) hides procedure.now)) }
{
    note_heading(scope, &procedure.heading, least);
    let variables = procedure.vars.as_slice();
    note_variables_twice(alloc, scope, &procedure.heading, variables, least)?;
    note_typed(scope, hides, variables, least);
    Ok(())
}

/// Notes the breaches in a heading of a specification.
pub(crate) fn note_operation<'c>(
    alloc: Global,
    scope: &Scope<'c>,
    heading: &'c Heading,
    least: &mut Least<'c>,
) -> Result<(), NoMemory>
    ensures { OnOk result (least.new ≡ least_of least.old (spec.operation scope.now.table.now (seen_scope scope.now) heading.now)) }
{
    note_heading(scope, heading, least);
    note_variables_twice(alloc, scope, heading, &[], least)
}

/// Notes the breaches in the headings of a specification.
pub(crate) fn note_operations<'c>(
    alloc: Global,
    scope: &Scope<'c>,
    headings: &'c [Heading],
    least: &mut Least<'c>,
) -> Result<(), NoMemory>
    ensures { OnOk result (least.new ≡ least_of least.old (flat_map (spec.operation scope.now.table.now (seen_scope scope.now)) headings.now)) }
{
    for heading in headings {
        note_operation(alloc, scope, heading, least)?;
    }
    Ok(())
}

// ---- a procedure against the heading that it is for

fn same_facility(a: &Option<Name>, b: &Option<Name>) -> bool
    ensures { result ≡ spec.both_or_none bytes_eq a.now b.now }
{
    match a {
        Some(a) => match b {
            Some(b) => a.same(b),
            None => false,
        },
        None => b.is_none(),
    }
}

fn same_type(a: &PType, b: &PType) -> bool
    ensures { result ≡ spec.same_type a.now b.now }
{
    same_facility(&a.facility, &b.facility) && a.name.same(&b.name)
}

fn same_result(a: &Option<PType>, b: &Option<PType>) -> bool
    ensures { result ≡ spec.both_or_none spec.same_type a.now b.now }
{
    match a {
        Some(a) => match b {
            Some(b) => same_type(a, b),
            None => false,
        },
        None => b.is_none(),
    }
}

fn same_parameter(a: &Param, b: &Param) -> bool
    ensures { result ≡ spec.same_parameter a.now b.now }
{
    same_mode(a.mode, b.mode) && a.name.same(&b.name) && same_type(&a.ptype, &b.ptype)
}

fn same_parameters(a: &[Param], b: &[Param]) -> bool
    ensures { result ≡ pointwise spec.same_parameter a.now b.now }
{
    if a.len() != b.len() {
        return false;
    }
    for k in 0..a.len() {
        if !same_parameter(&a[k], &b[k]) {
            return false;
        }
    }
    true
}

fn same_heading(a: &Heading, b: &Heading) -> bool
    ensures { result ≡ spec.same_heading a.now b.now }
{
    same_parameters(a.params.as_slice(), b.params.as_slice()) && same_result(&a.result, &b.result)
}

/// The first heading of this name.
pub fn heading_named<'c>(headings: &'c [Heading], name: &Name) -> Option<&'c Heading>
    ensures { option_copied result ≡ spec.heading_named headings.now name.now }
{
    headings.iter().find(|heading| name.same(&heading.name))
}

/// Notes a heading that does not repeat one of these.
pub(crate) fn note_against<'c>(asked: &[Heading], heading: &'c Heading, least: &mut Least<'c>)
    ensures { least.new ≡ least_of least.old (spec.against asked.now heading.now) }
{
    let repeats = match heading_named(asked, &heading.name) {
        Some(wanted) => same_heading(wanted, heading),
        None => false,
    };
    least.note_if(!repeats, Breach::OfType { at: heading.at });
}

// ---- Main

/// Whether this is the name of the operation with which a module begins.
#[tactic(auto, unfolding(crate::specs::Headings::is_main))]
pub fn is_main(name: &Name) -> bool
    ensures { result ≡ spec.is_main name.now }
{
    name.bytes() == MAIN
}

#[tactic(auto, unfolding(crate::specs::Headings::is_input))]
fn is_input(ptype: &PType) -> bool
    ensures { result ≡ spec.is_input ptype.now }
{
    ptype.facility.is_none() && ptype.name.bytes() == IN_STREAM
}

#[tactic(auto, unfolding(crate::specs::Headings::is_output))]
fn is_output(ptype: &PType) -> bool
    ensures { result ≡ spec.is_output ptype.now }
{
    ptype.facility.is_none() && ptype.name.bytes() == OUT_STREAM
}

fn are_streams(params: &[Param]) -> bool
    ensures { result ≡ spec.are_streams params.now }
{
    match params {
        [first, second] => {
            same_mode(first.mode, Mode::Updates)
                && is_input(&first.ptype)
                && same_mode(second.mode, Mode::Updates)
                && is_output(&second.ptype)
        }
        _ => false,
    }
}

fn fits_main(heading: &Heading) -> bool
    ensures { result ≡ spec.fits_main heading.now }
{
    are_streams(heading.params.as_slice())
        && heading.result.is_none()
        && heading.requires_clause.is_none()
        && heading.ensures_clause.is_some()
}

/// Notes a heading of Main that is another than Main has.
pub(crate) fn note_main<'c>(heading: &'c Heading, least: &mut Least<'c>)
    ensures { least.new ≡ least_of least.old (spec.main heading.now) }
{
    least.note_if(
        is_main(&heading.name) && !fits_main(heading),
        Breach::MainHeading { at: heading.at },
    );
}
