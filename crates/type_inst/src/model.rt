//! The descriptors of models, part by part with a stack of those that are finished.

ghost use Rattle.std.specs.Prelude.{◌≡◌, ◌++◌, ◌∷◌, [], IfOk, OnOk, slice_get};
ghost use Rattle.type_inst.specs.Descriptors as spec;

use crate::assertion::number_of;
use crate::descriptor::integer;
use math_terms::{Desc, Name, NoMemory, Shape, Term};
use res_ast::{MPart, MType};
use sqlite_items::{Boxed, Items};
use std::alloc::{AllocError, Global};

/// The descriptor of a model with these parts.
pub(crate) fn model(
    alloc: Global,
    parts: &[MPart],
    types: &[(Name, u32)],
    descs: &[Desc],
) -> Result<Desc, NoMemory>
    ensures { IfOk result (λ d. d ≡ spec.model types.now descs.now parts.now) }
{
    let mut stack: Vec<Desc> = Vec::new(alloc);
    for part in parts {
        let kept = stack.len().saturating_sub(takes(part));
        let taken = Items::from_vec(stack.split_off(kept)?);
        push(&mut stack, made(alloc, part, taken, types, descs)?)?;
    }
    top(alloc, Items::from_vec(stack))
}

fn push<T: Drop>(stack: &mut Vec<T>, item: T) -> Result<(), AllocError>
    ensures { OnOk result (stack.new.items ≡ stack.old.items ++ item ∷ []) }
{
    stack.push(item)?;
    Ok(())
}

/// How many finished models a part takes.
fn takes(part: &MPart) -> usize
    ensures { result ≡ spec.takes part.now }
{
    match part {
        MPart::Z | MPart::B | MPart::Param(_) => 0,
        MPart::Str => 1,
        MPart::Prod(names) => names.len(),
    }
}

/// The model that a part makes.
fn made(
    alloc: Global,
    part: &MPart,
    taken: Items<Desc>,
    types: &[(Name, u32)],
    descs: &[Desc],
) -> Result<Desc, NoMemory>
    ensures { IfOk result (λ d. d ≡ spec.made types.now descs.now part.now taken) }
{
    match part {
        MPart::Z => Ok(plain(Shape::Z)),
        MPart::B => Ok(plain(Shape::B)),
        MPart::Str => Ok(plain(Shape::Str(boxed_top(alloc, taken)?))),
        MPart::Prod(_) => Ok(plain(Shape::Tup(taken))),
        MPart::Param(name) => formal(alloc, name, types, descs),
    }
}

/// A shape of which nothing more is said.
fn plain(shape: Shape) -> Desc
    ensures { result ≡ spec.plain shape }
{
    Desc {
        shape,
        constraint: Term::Truth(true),
        initial: Term::Truth(true),
    }
}

/// The last of the finished models.
#[tactic(auto, using(crate::proofs::Tops::top_last))]
fn top(alloc: Global, stack: Items<Desc>) -> Result<Desc, NoMemory>
    ensures { IfOk result (λ d. d ≡ spec.top stack) }
{
    let mut stack = stack;
    match stack.pop() {
        Some(d) => Ok(d),
        None => integer(alloc),
    }
}

fn boxed_top(alloc: Global, stack: Items<Desc>) -> Result<Boxed<Desc>, NoMemory>
    ensures { IfOk result (λ d. d ≡ spec.top stack) }
{
    Ok(Boxed::new(alloc, top(alloc, stack)?)?)
}

/// What is given for a type formal.
fn formal(
    alloc: Global,
    name: &Name,
    types: &[(Name, u32)],
    descs: &[Desc],
) -> Result<Desc, NoMemory>
    ensures { IfOk result (λ d. d ≡ spec.formal types.now descs.now name.now) }
{
    match number_of(types, name) {
        Some(k) => numbered(alloc, k, descs),
        None => integer(alloc),
    }
}

fn numbered(alloc: Global, k: u32, descs: &[Desc]) -> Result<Desc, NoMemory>
    ensures { IfOk result (λ d. d ≡ spec.or_integer (slice_get descs.now k)) }
{
    match descs.get(k as usize) {
        Some(d) => d.copy(alloc),
        None => integer(alloc),
    }
}

/// The names of the parts of a model that is a product; none of any other.
pub fn part_names(model: &MType) -> &[Name]
    ensures { result.now ≡ spec.part_names model.now.parts }
{
    match model.parts.as_slice().last() {
        Some(MPart::Prod(names)) => names.as_slice(),
        _ => &[],
    }
}
