//! Models, from their last part to their first, with a stack of what is still to be written before them.

ghost use Rattle.std.specs.Prelude.{◌≡◌, [], ◌∷◌, ℕ, List, IfOk, OnOk};
ghost use Rattle.res_printer.specs.Models.{finished, model, model_step};
ghost use Rattle.res_printer.specs.Pieces.{Piece};
ghost use Rattle.res_printer.specs.working.Remaining.{IsNext, IsOpened, Stays, opened, opened_more, remaining};

use crate::text::Text;
use ll_grammar::Stack;
use math_terms::{Name, NoMemory};
use res_ast::MPart;
use std::alloc::Global;

/// What is still to be written before what has been written: a model, or words of one that has begun.
#[derive(Drop)]
pub(crate) enum Pending {
    Model,
    Str,
    Product,
    Factor(Name),
    Semicolon,
}

fn push(pending: &mut Stack<Pending>, item: Pending) -> Result<(), NoMemory>
    ensures { OnOk result (pending.new ≡ item ∷ pending.old) }
{
    match pending.push(item) {
        Ok(()) => Ok(()),
        Err(_) => Err(NoMemory),
    }
}

fn write_str(out: &mut Text) -> Result<(), NoMemory>
    ensures { (rest : List Pending) → OnOk result (Stays (Pending.Str ∷ rest) out.old rest out.new) }
{
    out.says(b"(")?;
    out.says(b"Str")
}

fn write_factor(out: &mut Text, name: &Name) -> Result<(), NoMemory>
    ensures { (rest : List Pending) → OnOk result (Stays (Pending.Factor name.now ∷ rest) out.old rest out.new) }
{
    out.says(b":")?;
    out.says(name.bytes())
}

// Writes words, up to where a model is still to be written, and says whether one is.
fn write_words(out: &mut Text, pending: &mut Stack<Pending>) -> Result<bool, NoMemory>
    ensures { IfOk result (λ next. IsNext next pending.old out.old pending.new out.new) }
{
    while let Some(item) = pending.pop() {
        match item {
            Pending::Model => return Ok(true),
            Pending::Str => write_str(out)?,
            Pending::Product => out.says(b"Cart_Prod")?,
            Pending::Factor(name) => write_factor(out, &name)?,
            Pending::Semicolon => out.ends_line(b";")?,
        }
    }
    Ok(false)
}

fn push_factor(alloc: Global, pending: &mut Stack<Pending>, name: &Name) -> Result<(), NoMemory>
    ensures { OnOk result (pending.new ≡ Pending.Model ∷ Pending.Factor name.now ∷ pending.old) }
{
    push(pending, Pending::Factor(name.copy(alloc)?))?;
    push(pending, Pending::Model)
}

fn push_more(alloc: Global, pending: &mut Stack<Pending>, names: &[Name]) -> Result<(), NoMemory>
    ensures { OnOk result (pending.new ≡ opened_more names.now pending.old) }
{
    for name in names {
        push(pending, Pending::Semicolon)?;
        push_factor(alloc, pending, name)?;
    }
    Ok(())
}

fn push_factors(alloc: Global, pending: &mut Stack<Pending>, names: &[Name]) -> Result<(), NoMemory>
    ensures { OnOk result (pending.new ≡ opened names.now pending.old) }
{
    match names.split_first() {
        Some((first, more)) => {
            push_factor(alloc, pending, first)?;
            push_more(alloc, pending, more)
        }
        None => Ok(()),
    }
}

fn open_string(out: &mut Text, pending: &mut Stack<Pending>) -> Result<(), NoMemory>
    ensures { OnOk result (IsOpened MPart.Str pending.old out.old pending.new out.new) }
{
    out.says(b")")?;
    push(pending, Pending::Str)?;
    push(pending, Pending::Model)
}

#[tactic(auto, using(crate::proofs::Models::product_opened))]
fn open_product(
    alloc: Global,
    out: &mut Text,
    pending: &mut Stack<Pending>,
    names: &[Name],
) -> Result<(), NoMemory>
    ensures { OnOk result (IsOpened (MPart.Prod names.now) pending.old out.old pending.new out.new) }
{
    out.says(b"end")?;
    push(pending, Pending::Product)?;
    push_factors(alloc, pending, names)
}

// A part where a model is to be written.
fn open_part(
    alloc: Global,
    out: &mut Text,
    pending: &mut Stack<Pending>,
    part: &MPart,
) -> Result<(), NoMemory>
    ensures { OnOk result (IsOpened part.now pending.old out.old pending.new out.new) }
{
    match part {
        MPart::Z => out.says(b"Z"),
        MPart::B => out.says(b"B"),
        MPart::Str => open_string(out, pending),
        MPart::Prod(names) => open_product(alloc, out, pending, names.as_slice()),
        MPart::Param(name) => out.says(name.bytes()),
    }
}

fn write_part(
    alloc: Global,
    out: &mut Text,
    pending: &mut Stack<Pending>,
    part: &MPart,
) -> Result<(), NoMemory>
    ensures { OnOk result ((stack : List Piece) → remaining pending.old (model_step part.now stack) out.old ≡ remaining pending.new stack out.new) }
{
    if write_words(out, pending)? {
        open_part(alloc, out, pending, part)
    } else {
        Ok(())
    }
}

#[tactic(auto, using(crate::proofs::Models::finished_end))]
fn write_parts(
    alloc: Global,
    out: &mut Text,
    pending: &mut Stack<Pending>,
    parts: &[MPart],
) -> Result<(), NoMemory>
    ensures { OnOk result (remaining pending.old (finished parts.now []) out.old ≡ remaining pending.new [] out.new) }
{
    for part in parts.iter().rev() {
        write_part(alloc, out, pending, part)?;
    }
    Ok(())
}

// Writes what is left, where no models are left.
fn write_rest(out: &mut Text, pending: &mut Stack<Pending>) -> Result<(), NoMemory>
    ensures { OnOk result (out.new ≡ remaining pending.old [] out.old) }
{
    while write_words(out, pending)? {}
    Ok(())
}

/// Writes the model of these parts.
pub(crate) fn write_model(alloc: Global, out: &mut Text, parts: &[MPart]) -> Result<(), NoMemory>
    ensures { OnOk result (out.new ≡ model parts.now out.old) }
{
    let mut pending = Stack::new(alloc);
    push(&mut pending, Pending::Model)?;
    write_parts(alloc, out, &mut pending, parts)?;
    write_rest(out, &mut pending)
}
