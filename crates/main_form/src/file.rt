//! What a file is: a module of the form, or not of it.

ghost use Rattle.std.specs.Prelude.{◌≡◌, ◌<◌, ◌^◌, IfOk, length, map, MatchOption, None, Some};
ghost use Rattle.main_form.specs.Places as place;
ghost use Rattle.main_form.specs.Shape.{BuiltIsFormed, shape_of};
ghost use Rattle.main_form.specs.Values as value;

use crate::bodies::{claim_of, stmts_of};
use crate::expressions::earlier;
use crate::heading::main_first;
use crate::module::{Claim, Module};
use crate::names::{input_of, output_of, same_bytes};
use math_terms::{Items, Name, NoMemory, both};
use res_ast::{Component, FacDecl, FacilityModule, LocalOp, PType, Procedure};
use std::alloc::Global;

/// What a file is: a module of the form; or not of the form, with the name of the component in which the first place is at
/// which it is not, and this place.
#[derive(Debug, Drop)]
pub enum Shape {
    Module(Module),
    NotBuilt { name: Name, at: u32 },
}

// A place that is not of the form, with the name of its component.
#[derive(Clone, Copy)]
struct Stray<'a> {
    name: &'a [u8],
    at: u32,
}

fn is_main(operation: &LocalOp) -> bool
    ensures { result ≡ place.is_main operation.now }
{
    same_bytes(operation.procedure.heading.name.bytes(), b"Main")
}

// The first operation Main.
fn main_in(operations: &[LocalOp]) -> Option<&Procedure>
    ensures { MatchOption result (place.main_in operations.now ≡ None) (λ p. place.main_in operations.now ≡ Some p.now) }
{
    for operation in operations {
        if is_main(operation) {
            return Some(&operation.procedure);
        }
    }
    None
}

fn first_place(operations: &[LocalOp]) -> Option<u32>
    ensures { result ≡ place.first_place operations.now }
{
    match operations {
        [] => None,
        [first, ..] => Some(first.procedure.at),
    }
}

// The place of the first operation that is not the first Main.
fn other_first(operations: &[LocalOp]) -> Option<u32>
    ensures { result ≡ place.other_first_in operations.now }
{
    match operations {
        [] => None,
        [first, rest @ ..] => {
            if is_main(first) {
                first_place(rest)
            } else {
                Some(first.procedure.at)
            }
        }
    }
}

fn first_facility(facilities: &[FacDecl]) -> Option<u32>
    ensures { result ≡ place.first_facility facilities.now }
{
    match facilities {
        [] => None,
        [first, ..] => Some(first.at),
    }
}

fn uses_first(uses: &[Name], at: u32) -> Option<u32>
    ensures { result ≡ place.uses_first uses.now at }
{
    match uses {
        [] => None,
        [_, ..] => Some(at),
    }
}

fn main_or_first(operations: &[LocalOp], at: u32) -> Option<u32>
    ensures { result ≡ place.main_or_first (place.main_in operations.now) at }
{
    match main_in(operations) {
        None => Some(at),
        Some(main) => main_first(main),
    }
}

fn module_first(m: &FacilityModule) -> Option<u32>
    ensures { result ≡ place.module_first m.now }
{
    let operations = m.operations.as_slice();
    let rest = earlier(other_first(operations), main_or_first(operations, m.at));
    let rest = earlier(first_facility(m.facilities.as_slice()), rest);
    earlier(uses_first(m.uses.as_slice(), m.at), rest)
}

fn astray(component: &Component) -> Stray<'_>
    ensures name { result.name.now ≡ place.name_in_file component.now }
    ensures at { result.at ≡ place.place_in_file component.now }
{
    let (name, at) = match component {
        Component::Concept(c) => (&c.name, c.at),
        Component::Enhancement(c) => (&c.name, c.at),
        Component::Realization(c) => (&c.name, c.at),
        Component::Facility(c) => (&c.name, c.at),
    };
    Stray {
        name: name.bytes(),
        at,
    }
}

fn second_first(components: &[Component]) -> Option<Stray<'_>>
    ensures { MatchOption result (place.second_first components.now ≡ None) (λ s. place.second_first components.now ≡ Some (s.name.now, s.at)) }
{
    match components {
        [] => None,
        [second, ..] => Some(astray(second)),
    }
}

// The first place of a module and of the components after it.
fn module_or_second<'a>(m: &'a FacilityModule, rest: &'a [Component]) -> Option<Stray<'a>>
    ensures { let first = place.named_or m.now.name (place.module_first m.now) (place.second_first rest.now) in MatchOption result (first ≡ None) (λ s. first ≡ Some (s.name.now, s.at)) }
{
    match module_first(m) {
        Some(at) => Some(Stray {
            name: m.name.bytes(),
            at,
        }),
        None => second_first(rest),
    }
}

// The first place of a file at which it is not of the form.
fn file_first(components: &[Component]) -> Option<Stray<'_>>
    ensures { MatchOption result (place.file_first components.now ≡ None) (λ s. place.file_first components.now ≡ Some (s.name.now, s.at)) }
{
    match components {
        [] => Some(Stray { name: b"", at: 0 }),
        [first, rest @ ..] => match first {
            Component::Facility(m) => module_or_second(m, rest),
            _ => Some(astray(first)),
        },
    }
}

fn copy_names(alloc: Global, vars: &[(Name, PType)]) -> Result<Items<Name>, NoMemory>
    ensures { IfOk result (λ names. names ≡ map (λ v. v.0) vars.now) }
{
    let mut names = Items::new(alloc);
    for var in vars {
        names.push(var.0.copy(alloc)?)?;
    }
    Ok(names)
}

// A module without Main.
fn empty_module(alloc: Global, name: &[u8]) -> Result<Module, NoMemory>
    ensures { IfOk result (λ m. m ≡ value.module_by name.now None) }
{
    let streams = both(Name::new(alloc, b""), Name::new(alloc, b""));
    let (name, streams) = both(Name::new(alloc, name), streams)?;
    Ok(Module {
        name,
        input: streams.0,
        output: streams.1,
        claim: Claim::True,
        variables: Items::new(alloc),
        body: Items::new(alloc),
        end_at: 0,
    })
}

// The module of Main.
fn module_by(alloc: Global, name: &[u8], main: &Procedure) -> Result<Module, NoMemory>
    requires { length main.now.vars < 2 ^ 32 }
    ensures { IfOk result (λ m. m ≡ value.module_by name.now (Some main.now)) }
{
    let streams = both(
        Name::new(alloc, input_of(main)),
        Name::new(alloc, output_of(main)),
    );
    let names = both(Name::new(alloc, name), streams);
    let body = both(
        claim_of(alloc, main, &main.heading.ensures_clause),
        stmts_of(alloc, main, main.body.as_slice()),
    );
    let rest = both(copy_names(alloc, main.vars.as_slice()), body);
    let ((name, streams), (variables, body)) = both(names, rest)?;
    Ok(Module {
        name,
        input: streams.0,
        output: streams.1,
        claim: body.0,
        variables,
        body: body.1,
        end_at: main.end_at,
    })
}

// The module of Main, whose variables are numbered.
fn numbered_module(alloc: Global, name: &[u8], main: &Procedure) -> Result<Module, NoMemory>
    ensures { IfOk result (λ m. m ≡ value.module_by name.now (Some main.now)) }
{
    if main.vars.len() > u32::MAX as usize {
        return Err(NoMemory);
    }
    module_by(alloc, name, main)
}

fn facility_module(alloc: Global, m: &FacilityModule) -> Result<Module, NoMemory>
    ensures { IfOk result (λ x. x ≡ value.module_by m.now.name (place.main_in m.now.operations)) }
{
    match main_in(m.operations.as_slice()) {
        Some(main) => numbered_module(alloc, m.name.bytes(), main),
        None => empty_module(alloc, m.name.bytes()),
    }
}

fn module_of(alloc: Global, components: &[Component]) -> Result<Module, NoMemory>
    ensures { IfOk result (λ m. m ≡ value.module_of components.now) }
{
    match components {
        [Component::Facility(m), ..] => facility_module(alloc, m),
        _ => empty_module(alloc, b""),
    }
}

/// What a file of these components is. Variables that 32 bits do not number are want of memory.
pub fn main_module(alloc: Global, components: &[Component]) -> Result<Shape, NoMemory>
    ensures { IfOk result (λ s. s ≡ shape_of components.now) }
{
    match file_first(components) {
        Some(stray) => Ok(Shape::NotBuilt {
            name: Name::new(alloc, stray.name)?,
            at: stray.at,
        }),
        None => Ok(Shape::Module(module_of(alloc, components)?)),
    }
}

/// The body of a module that is of the form has its variables alone.
#[tactic(auto, using(crate::proofs::Forms::built_formed))]
pub fn built_is_formed()
    ensures { BuiltIsFormed }
{}
