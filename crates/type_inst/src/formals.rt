//! The formals of a concept with what is given for them: as lists of types and of numbers, and as meanings of names.

ghost use Rattle.std.specs.Prelude.{◌≡◌, ◌+◌, ◌++◌, IfOk, OnOk};
ghost use Rattle.type_inst.specs.Descriptors as spec;

use crate::assertion::Meaning;
use crate::types::{FormalArg, TypeInst};
use math_terms::{Name, NoMemory, Term, with};
use res_ast::TryCopy;
use sqlite_items::Items;
use std::alloc::Global;

/// The type formals with their numbers, from 0.
pub fn types_of(
    alloc: Global,
    formals: &[(Name, FormalArg)],
) -> Result<Items<(Name, u32)>, NoMemory>
    ensures { IfOk result (λ ts. ts ≡ spec.types_from 0 formals.now) }
{
    let mut out = Items::new(alloc);
    let mut next = 0;
    for formal in formals {
        next = add_type(alloc, &mut out, next, &formal.0, &formal.1)?;
    }
    Ok(out)
}

/// A formal behind the others, where it is a type; the answer is the number of the next one.
fn add_type(
    alloc: Global,
    out: &mut Items<(Name, u32)>,
    next: u32,
    name: &Name,
    arg: &FormalArg,
) -> Result<u32, NoMemory>
    ensures added { OnOk result (out.new ≡ out.old ++ spec.type_entry next name.now arg.now) }
    ensures next { IfOk result (λ k. k ≡ next + spec.type_count arg.now) }
{
    match arg {
        FormalArg::Type(_) => {
            out.push((name.copy(alloc)?, next))?;
            after(next)
        }
        FormalArg::Number(_) => Ok(next),
    }
}

/// The number after this one. More formals than can be numbered do not fit into memory.
pub(crate) fn after(number: u32) -> Result<u32, NoMemory>
    ensures { IfOk result (λ n. n ≡ number + 1) }
{
    match number.checked_add(1) {
        Some(next) => Ok(next),
        None => Err(NoMemory),
    }
}

/// What is given for the Integer formals, in their order.
pub fn given_numbers(alloc: Global, formals: &[(Name, FormalArg)]) -> Result<Items<Term>, NoMemory>
    ensures { IfOk result (λ ts. ts ≡ spec.given_numbers formals.now) }
{
    let mut out = Items::new(alloc);
    for formal in formals {
        add_given(alloc, &mut out, &formal.1)?;
    }
    Ok(out)
}

fn add_given(alloc: Global, out: &mut Items<Term>, arg: &FormalArg) -> Result<(), NoMemory>
    ensures { OnOk result (out.new ≡ out.old ++ spec.given_number arg.now) }
{
    match arg {
        FormalArg::Type(_) => Ok(()),
        FormalArg::Number(n) => Ok(out.push(n.copy(alloc)?)?),
    }
}

/// What is given for the type formals, in their order.
pub fn given_types(
    alloc: Global,
    formals: &[(Name, FormalArg)],
) -> Result<Items<TypeInst>, NoMemory>
    ensures { IfOk result (λ ts. ts ≡ spec.given_types formals.now) }
{
    let mut out = Items::new(alloc);
    for formal in formals {
        add_given_type(alloc, &mut out, &formal.1)?;
    }
    Ok(out)
}

fn add_given_type(alloc: Global, out: &mut Items<TypeInst>, arg: &FormalArg) -> Result<(), NoMemory>
    ensures { OnOk result (out.new ≡ out.old ++ spec.given_type arg.now) }
{
    match arg {
        FormalArg::Type(t) => Ok(out.push(t.copy(alloc)?)?),
        FormalArg::Number(_) => Ok(()),
    }
}

/// A name by itself, without `#` and without a part.
pub(crate) fn whole(alloc: Global, name: &Name, term: Term) -> Result<Meaning, NoMemory>
    ensures { IfOk result (λ m. m ≡ spec.whole name.now term) }
{
    let (name, term) = with(name.copy(alloc), term)?;
    Ok(Meaning {
        old: false,
        name,
        part: None,
        term,
    })
}

/// Adds the Integer formals, as variables from a first one on.
pub fn add_numbers(
    alloc: Global,
    out: &mut Items<Meaning>,
    first: u32,
    formals: &[(Name, FormalArg)],
) -> Result<(), NoMemory>
    ensures { OnOk result (out.new ≡ out.old ++ spec.numbers_from first formals.now) }
{
    let mut next = first;
    for formal in formals {
        next = add_number(alloc, out, next, &formal.0, &formal.1)?;
    }
    Ok(())
}

/// A formal behind the others, where it is an Integer; the answer is the number of the next one.
fn add_number(
    alloc: Global,
    out: &mut Items<Meaning>,
    next: u32,
    name: &Name,
    arg: &FormalArg,
) -> Result<u32, NoMemory>
    ensures added { OnOk result (out.new ≡ out.old ++ spec.number_entry next name.now arg.now) }
    ensures next { IfOk result (λ k. k ≡ next + spec.number_count arg.now) }
{
    match arg {
        FormalArg::Type(_) => Ok(next),
        FormalArg::Number(_) => {
            out.push(whole(alloc, name, Term::Var(next))?)?;
            after(next)
        }
    }
}
