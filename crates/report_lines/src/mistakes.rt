//! The lines of components with a mistake.

ghost use Rattle.std.specs.Prelude.{◌≡◌, ◌++◌, IfOk, OnOk};
ghost use Rattle.report_lines.specs.Lines as spec;
ghost use Rattle.report_lines.specs.working.Telling.{seen};

use crate::lines::{put, put_place};
use component_checks::Mistake;
use facility_bind::ArgError;
use math_terms::{Name, NoMemory};
use math_types::SortError;
use module_table::NameError;
use std::alloc::Global;
use type_modes::ModeError;

/// What is told of a mistake: its kind, the name that it tells, and its place.
#[derive(Clone, Copy)]
pub(crate) struct Told<'e> {
    pub(crate) kind: &'static [u8],
    pub(crate) name: Option<&'e Name>,
    pub(crate) at: Option<u32>,
}

impl<'e> Told<'e> {
    // Want of memory, which is no mistake.
    fn nothing() -> Told<'e>
        ensures { seen result ≡ spec.name_told NameError.NoMemory }
    {
        Told {
            kind: b"NoMemory",
            name: None,
            at: None,
        }
    }

    fn alone(kind: &'static [u8], at: u32) -> Told<'e>
        ensures { seen result ≡ spec.tells kind.now None (Some at) }
    {
        Told {
            kind,
            name: None,
            at: Some(at),
        }
    }

    fn named(kind: &'static [u8], name: &'e Name, at: u32) -> Told<'e>
        ensures { seen result ≡ spec.tells kind.now (Some name.now) (Some at) }
    {
        Told {
            kind,
            name: Some(name),
            at: Some(at),
        }
    }
}

fn name_told(e: &NameError) -> Told<'_>
    ensures { seen result ≡ spec.name_told e.now }
{
    match e {
        NameError::Duplicate { name } => Told {
            kind: b"Duplicate",
            name: Some(name),
            at: None,
        },
        NameError::Unknown { name, at } => Told::named(b"Unknown", name, *at),
        NameError::WrongKind { name, at } => Told::named(b"WrongKind", name, *at),
        NameError::NoMemory => Told::nothing(),
    }
}

fn arg_told(e: &ArgError) -> Told<'_>
    ensures { seen result ≡ spec.arg_told e.now }
{
    match e {
        ArgError::ArgCount { at } => Told::alone(b"ArgCount", *at),
        ArgError::ArgKind { at } => Told::alone(b"ArgKind", *at),
        ArgError::NoMemory => Told::nothing(),
    }
}

fn sort_told(e: &SortError) -> Told<'_>
    ensures { seen result ≡ spec.sort_told e.now }
{
    match e {
        SortError::Sort { at } => Told::alone(b"Sort", *at),
        SortError::NoMemory => Told::nothing(),
    }
}

fn mode_told(e: &ModeError) -> Told<'_>
    ensures { seen result ≡ spec.mode_told e.now }
{
    match e {
        ModeError::OfType { at } => Told::alone(b"Type", *at),
        ModeError::Mode { at } => Told::alone(b"Mode", *at),
        ModeError::Repeated { at } => Told::alone(b"Repeated", *at),
        ModeError::Changing { at, name } => Told::named(b"Changing", name, *at),
        ModeError::Order { at } => Told::alone(b"Order", *at),
        ModeError::Stream { at } => Told::alone(b"Stream", *at),
        ModeError::MainHeading { at } => Told::alone(b"MainHeading", *at),
        ModeError::Missing { at, name } => Told::named(b"Missing", name, *at),
        ModeError::NoMemory => Told::nothing(),
    }
}

fn told_of(m: &Mistake) -> Told<'_>
    ensures { seen result ≡ spec.told m.now }
{
    match m {
        Mistake::Names(e) => name_told(e),
        Mistake::Args(e) => arg_told(e),
        Mistake::Sorts(e) => sort_told(e),
        Mistake::Modes(e) => mode_told(e),
    }
}

// The name and the place that are told, at the end of a line.
fn put_end(line: &mut Vec<u8>, told: Told<'_>) -> Result<(), NoMemory>
    ensures { OnOk result (line.new.items ≡ line.old.items ++ (spec.with_name (seen told.entry).name ++ spec.with_place (seen told.entry).at)) }
{
    if let Some(name) = told.name {
        put(line, b" ")?;
        put(line, name.bytes())?;
    }
    match told.at {
        Some(at) => put_place(line, at),
        None => Ok(()),
    }
}

fn told_line(alloc: Global, component: &[u8], told: Told<'_>) -> Result<Name, NoMemory>
    ensures { IfOk result (λ line. line ≡ spec.told_line component.now (seen told.entry)) }
{
    let mut line = Vec::new(alloc);
    put(&mut line, b"refused ")?;
    put(&mut line, component)?;
    put(&mut line, b": ")?;
    put(&mut line, told.kind)?;
    put_end(&mut line, told)?;
    Name::new(alloc, line.as_slice())
}

/// The line of a component with a mistake.
pub fn mistake_line(alloc: Global, component: &[u8], m: &Mistake) -> Result<Name, NoMemory>
    ensures { IfOk result (λ line. line ≡ spec.mistake_line component.now m.now) }
{
    told_line(alloc, component, told_of(m))
}
