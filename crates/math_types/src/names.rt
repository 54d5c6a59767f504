//! The names that the clauses of operations know.

ghost use Rattle.std.specs.Prelude.{◌≡◌, ◌++◌, ◌∷◌, [], IfOk, OnOk, map};
ghost use Rattle.math_types.specs.Components as spec;
ghost use Rattle.math_types.specs.Types.{parts, sort};

use crate::known::Known;
use crate::types::{parts_of, sort_of_type, written};
use facility_bind::Scope;
use math_terms::{Name, NoMemory, Sort, both};
use res_ast::{Heading, Mode, Param, TryCopy};
use sqlite_items::Items;
use std::alloc::Global;
use type_inst::{FormalArg, TypeInst};

/// What speaks of parameters: a requires clause, an ensures clause, or the value of a function or a metric.
#[derive(Clone, Copy)]
pub enum Speech {
    Requires,
    Ensures,
    Value,
}

impl Speech {
    /// Whether `x` may stand.
    fn current(self, mode: Mode) -> bool
        ensures { result ≡ spec.stands_current self mode }
    {
        match self {
            Speech::Requires => comes_in(mode),
            Speech::Ensures => says_current(mode),
            Speech::Value => true,
        }
    }

    /// Whether `#x` may stand.
    fn old(self, mode: Mode) -> bool
        ensures { result ≡ spec.stands_old self mode }
    {
        match self {
            Speech::Ensures => says_old(mode),
            Speech::Requires | Speech::Value => false,
        }
    }
}

fn comes_in(mode: Mode) -> bool
    ensures { result ≡ spec.comes_in mode }
{
    match mode {
        Mode::Replaces => false,
        _ => true,
    }
}

fn says_current(mode: Mode) -> bool
    ensures { result ≡ spec.says_current mode }
{
    match mode {
        Mode::Alters | Mode::Clears => false,
        _ => true,
    }
}

fn says_old(mode: Mode) -> bool
    ensures { result ≡ spec.says_old mode }
{
    match mode {
        Mode::Alters | Mode::Clears | Mode::Updates => true,
        _ => false,
    }
}

fn sort_in(alloc: Global, scope: &Scope, t: &TypeInst) -> Result<Sort, NoMemory>
    ensures { IfOk result (λ s. s ≡ sort scope.now.families t.now) }
{
    sort_of_type(alloc, scope.families.as_slice(), t)
}

fn parts_in(alloc: Global, scope: &Scope, t: &TypeInst) -> Result<Items<(Name, Sort)>, NoMemory>
    ensures { IfOk result (λ ps. ps ≡ parts scope.now.families t.now) }
{
    parts_of(alloc, scope.families.as_slice(), t)
}

/// A value of a type, with its parts. `current` and `old` say whether `x` and `#x` may stand.
#[tactic(auto, unfolding(crate::specs::Components::value))]
pub(crate) fn value(
    alloc: Global,
    scope: &Scope,
    current: bool,
    old: bool,
    name: &Name,
    t: &TypeInst,
) -> Result<Known, NoMemory>
    ensures { IfOk result (λ k. k ≡ spec.value scope.now current old name.now t.now) }
{
    let sorts = both(sort_in(alloc, scope, t), parts_in(alloc, scope, t));
    let (name, sorts) = both(name.copy(alloc), sorts)?;
    Ok(Known {
        name,
        whole: true,
        current,
        old,
        sort: sorts.0,
        parts: sorts.1,
    })
}

fn parameter(alloc: Global, scope: &Scope, to: Speech, p: &Param) -> Result<Known, NoMemory>
    ensures { IfOk result (λ k. k ≡ spec.parameter scope.now to p.now) }
{
    let t = written(alloc, scope, &p.ptype)?;
    value(
        alloc,
        scope,
        to.current(p.mode),
        to.old(p.mode),
        &p.name,
        t.get(),
    )
}

/// What a clause of an operation knows.
pub(crate) fn names(
    alloc: Global,
    scope: &Scope,
    to: Speech,
    heading: &Heading,
) -> Result<Items<Known>, NoMemory>
    ensures { IfOk result (λ ks. ks ≡ spec.names scope.now to heading.now) }
{
    let mut out = Items::new(alloc);
    for p in heading.params.as_slice() {
        out.push(parameter(alloc, scope, to, p)?)?;
    }
    add_numbers(alloc, &mut out, scope)?;
    Ok(out)
}

/// Adds the Integer formals.
pub(crate) fn add_numbers(
    alloc: Global,
    out: &mut Items<Known>,
    scope: &Scope,
) -> Result<(), NoMemory>
    ensures { OnOk result (out.new ≡ out.old ++ spec.numbers scope.now) }
{
    for formal in scope.formals.as_slice() {
        add_number(alloc, out, &formal.0, &formal.1)?;
    }
    Ok(())
}

fn add_number(
    alloc: Global,
    out: &mut Items<Known>,
    name: &Name,
    arg: &FormalArg,
) -> Result<(), NoMemory>
    ensures { OnOk result (out.new ≡ out.old ++ spec.number_of name.now arg.now) }
{
    match arg {
        FormalArg::Type(_) => Ok(()),
        FormalArg::Number(_) => Ok(out.push(number(alloc, name)?)?),
    }
}

fn number(alloc: Global, name: &Name) -> Result<Known, NoMemory>
    ensures { IfOk result (λ k. k ≡ spec.number name.now) }
{
    Ok(Known {
        name: name.copy(alloc)?,
        whole: true,
        current: true,
        old: false,
        sort: Sort::Z,
        parts: Items::new(alloc),
    })
}
