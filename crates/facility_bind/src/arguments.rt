//! The arguments of a declaration against the formals of its concept.

ghost use Rattle.std.specs.Prelude.{◌≡◌, ◌⊎◌, None, Some, IfOk, MatchResult, map};
ghost use Rattle.facility_bind.specs.Arguments as spec;
ghost use Rattle.facility_bind.specs.Scopes.{argument};

use crate::error::ArgError;
use crate::scope::Scope;
use math_terms::NoMemory;
use res_ast::{FacArg, FacDecl, Formal};
use sqlite_items::Items;
use std::alloc::Global;
use type_inst::FormalArg;

/// Which formals are types.
pub(crate) fn kinds_of(alloc: Global, formals: &[Formal]) -> Result<Items<bool>, NoMemory>
    ensures { IfOk result (λ kinds. kinds ≡ map (λ f. f.is_type) formals.now) }
{
    let mut out = Items::new(alloc);
    for formal in formals {
        out.push(formal.is_type)?;
    }
    Ok(out)
}

/// Refuses arguments that are not as many as the formals, or of which one is of another kind than its formal.
pub(crate) fn check(
    alloc: Global,
    scope: &Scope,
    kinds: &[bool],
    declaration: &FacDecl,
) -> Result<(), ArgError>
    ensures { MatchResult result (λ _. spec.refusal scope.now kinds.now declaration.now ≡ None) (λ e. (e ≡ ArgError.NoMemory) ⊎ (spec.refusal scope.now kinds.now declaration.now ≡ Some e)) }
{
    if declaration.args.len() != kinds.len() {
        return Err(ArgError::ArgCount { at: declaration.at });
    }
    match first_misfit(alloc, scope, kinds, declaration.args.as_slice())? {
        Some(at) => Err(ArgError::ArgKind { at }),
        None => Ok(()),
    }
}

/// The place of the first argument of another kind than its formal.
fn first_misfit(
    alloc: Global,
    scope: &Scope,
    kinds: &[bool],
    args: &[FacArg],
) -> Result<Option<u32>, NoMemory>
    ensures { IfOk result (λ at. at ≡ spec.first_misfit scope.now kinds.now args.now) }
{
    let mut rest = args;
    for kind in kinds {
        match rest {
            [arg, more @ ..] => {
                if misfits(alloc, scope, *kind, arg)? {
                    return Ok(Some(place(arg)));
                }
                rest = more;
            }
            [] => return Ok(None),
        }
    }
    Ok(None)
}

fn misfits(alloc: Global, scope: &Scope, kind: bool, arg: &FacArg) -> Result<bool, NoMemory>
    ensures { IfOk result (λ b. b ≡ spec.misfits scope.now (kind, arg.now)) }
{
    let meant = scope.argument(alloc, arg)?;
    Ok(kind != is_type(&meant))
}

fn is_type(arg: &FormalArg) -> bool
    ensures { result ≡ spec.is_type arg.now }
{
    match arg {
        FormalArg::Type(_) => true,
        FormalArg::Number(_) => false,
    }
}

/// The first word of an argument.
fn place(arg: &FacArg) -> u32
    ensures { result ≡ spec.place arg.now }
{
    match arg {
        FacArg::OfType(t) => t.at,
        FacArg::Number(at, _) => *at,
    }
}
