//! Where Main's heading and variables are not of the form.

ghost use Rattle.std.specs.Prelude.{◌≡◌};
ghost use Rattle.main_form.specs.Places as spec;

use crate::claims::claim_first;
use crate::expressions::{earlier, stands};
use crate::names::same_bytes;
use crate::statements::body_first;
use math_terms::Name;
use res_ast::{Expr, Heading, Mode, PType, Param, Procedure};

fn has_type(ptype: &PType, name: &[u8]) -> bool
    ensures { result ≡ spec.has_type ptype.now name.now }
{
    match &ptype.facility {
        None => same_bytes(ptype.name.bytes(), name),
        Some(_) => false,
    }
}

// Whether the parameter is a stream of this type that Main updates.
fn is_stream(param: &Param, name: &[u8]) -> bool
    ensures { result ≡ spec.is_stream param.now name.now }
{
    match param.mode {
        Mode::Updates => has_type(&param.ptype, name),
        _ => false,
    }
}

fn third_first(params: &[Param]) -> Option<u32>
    ensures { result ≡ spec.third_first params.now }
{
    match params {
        [] => None,
        [param, ..] => Some(param.at),
    }
}

fn params_first(params: &[Param], at: u32) -> Option<u32>
    ensures { result ≡ spec.params_first params.now at }
{
    match params {
        [] => Some(at),
        [_] => Some(at),
        [p, q, rest @ ..] => {
            let first = stands(is_stream(p, b"In_Stream"), p.at, None);
            let second = stands(is_stream(q, b"Out_Stream"), q.at, None);
            earlier(first, earlier(second, third_first(rest)))
        }
    }
}

fn var_first(var: &(Name, PType)) -> Option<u32>
    ensures { result ≡ spec.var_first var.now }
{
    stands(has_type(&var.1, b"Integer"), var.1.at, None)
}

// The first type of a variable that is not Integer.
fn vars_first(main: &Procedure) -> Option<u32>
    ensures { result ≡ spec.vars_first main.now }
{
    let mut first = None;
    for var in main.vars.as_slice() {
        first = earlier(first, var_first(var));
    }
    first
}

fn ensures_first(main: &Procedure, claim: &Option<Expr>, at: u32) -> Option<u32>
    ensures { result ≡ spec.ensures_first main.now claim.now at }
{
    match claim {
        None => Some(at),
        Some(e) => claim_first(main, e),
    }
}

fn type_place(ptype: &Option<PType>) -> Option<u32>
    ensures { result ≡ spec.type_place ptype.now }
{
    match ptype {
        None => None,
        Some(t) => Some(t.at),
    }
}

fn expr_place(e: &Option<Expr>) -> Option<u32>
    ensures { result ≡ spec.expr_place e.now }
{
    match e {
        None => None,
        Some(e) => Some(e.at),
    }
}

fn heading_first(main: &Procedure, heading: &Heading) -> Option<u32>
    ensures { result ≡ spec.heading_first main.now heading.now }
{
    let claim = ensures_first(main, &heading.ensures_clause, heading.at);
    let clauses = earlier(expr_place(&heading.requires_clause), claim);
    let rest = earlier(type_place(&heading.result), clauses);
    earlier(params_first(heading.params.as_slice(), heading.at), rest)
}

/// The first place of Main at which it is not of the form.
pub(crate) fn main_first(main: &Procedure) -> Option<u32>
    ensures { result ≡ spec.main_first main.now }
{
    let body = earlier(vars_first(main), body_first(main, main.body.as_slice()));
    let rest = earlier(expr_place(&main.metric), body);
    earlier(heading_first(main, &main.heading), rest)
}
