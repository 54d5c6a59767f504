//! The lines of files and of conditions.

ghost use Rattle.std.specs.Prelude.{◌≡◌, ◌++◌, IfOk, OnOk, codes, decimal};
ghost use Rattle.report_lines.specs.Lines as spec;

use expr_parser::{SyntaxError, SyntaxKind};
use itoa::Buffer;
use math_terms::{Name, NoMemory};
use res_lexer::LexError;
use std::alloc::Global;
use vc_sequents::VcKind;

/// Puts a text behind a line.
pub(crate) fn put(line: &mut Vec<u8>, text: &[u8]) -> Result<(), NoMemory>
    ensures { OnOk result (line.new.items ≡ line.old.items ++ text.now) }
{
    match line.extend_from_slice(text) {
        Ok(()) => Ok(()),
        Err(_) => Err(NoMemory),
    }
}

/// ` at N`, at the end of a line.
pub(crate) fn put_place(line: &mut Vec<u8>, at: u32) -> Result<(), NoMemory>
    ensures { OnOk result (line.new.items ≡ line.old.items ++ (codes " at " ++ decimal at)) }
{
    put(line, b" at ")?;
    let mut buffer = Buffer::new();
    put(line, buffer.format(at).as_bytes())
}

// `refused NAME: KIND at N`
fn refused_line(alloc: Global, name: &[u8], kind: &[u8], at: u32) -> Result<Name, NoMemory>
    ensures { IfOk result (λ line. line ≡ spec.refused_line name.now kind.now at) }
{
    let mut line = Vec::new(alloc);
    put(&mut line, b"refused ")?;
    put(&mut line, name)?;
    put(&mut line, b": ")?;
    put(&mut line, kind)?;
    put_place(&mut line, at)?;
    Name::new(alloc, line.as_slice())
}

fn lex_kind(e: &LexError) -> &'static [u8]
    ensures { result.now ≡ spec.lex_kind e.now }
{
    match e {
        LexError::BadByte { .. } => b"BadByte",
        LexError::OpenComment { .. } => b"OpenComment",
        LexError::LongName { .. } => b"LongName",
        LexError::BigLiteral { .. } => b"BigLiteral",
        LexError::NoMemory => b"NoMemory",
    }
}

fn lex_place(e: &LexError) -> u32
    ensures { result ≡ spec.lex_place e.now }
{
    match e {
        LexError::BadByte { at } => *at,
        LexError::OpenComment { at } => *at,
        LexError::LongName { at } => *at,
        LexError::BigLiteral { at } => *at,
        LexError::NoMemory => 0,
    }
}

/// The line of a file without tokens.
pub fn lex_line(alloc: Global, file: &[u8], e: &LexError) -> Result<Name, NoMemory>
    ensures { IfOk result (λ line. line ≡ spec.lex_line file.now e.now) }
{
    refused_line(alloc, file, lex_kind(e), lex_place(e))
}

fn syntax_kind(kind: SyntaxKind) -> &'static [u8]
    ensures { result.now ≡ spec.syntax_kind kind }
{
    match kind {
        SyntaxKind::Expected => b"Expected",
        SyntaxKind::TooDeep => b"TooDeep",
        SyntaxKind::EndName => b"EndName",
        SyntaxKind::NoMemory => b"NoMemory",
    }
}

/// The line of a file whose tokens are refused.
pub fn syntax_line(alloc: Global, file: &[u8], e: SyntaxError) -> Result<Name, NoMemory>
    ensures { IfOk result (λ line. line ≡ spec.syntax_line file.now e) }
{
    refused_line(alloc, file, syntax_kind(e.kind), e.at)
}

/// The line of a component whose form is not built.
pub fn not_built_line(alloc: Global, component: &[u8], at: u32) -> Result<Name, NoMemory>
    ensures { IfOk result (λ line. line ≡ spec.not_built_line component.now at) }
{
    refused_line(alloc, component, b"NotBuilt", at)
}

/// The word of a kind of conditions.
pub fn kind_text(kind: VcKind) -> &'static [u8]
    ensures { result.now ≡ spec.kind_text kind }
{
    match kind {
        VcKind::Facility => b"facility",
        VcKind::Constraint => b"constraint",
        VcKind::InitConvention => b"init_convention",
        VcKind::InitEnsures => b"init_ensures",
        VcKind::Requires => b"requires",
        VcKind::Range => b"range",
        VcKind::Divisor => b"divisor",
        VcKind::Entry => b"entry",
        VcKind::Keep => b"keep",
        VcKind::Progress => b"progress",
        VcKind::Metric => b"metric",
        VcKind::Ensures => b"ensures",
        VcKind::ModeExit => b"mode_exit",
        VcKind::Convention => b"convention",
    }
}

fn put_number(line: &mut Vec<u8>, number: u32) -> Result<(), NoMemory>
    ensures { OnOk result (line.new.items ≡ line.old.items ++ decimal number) }
{
    let mut buffer = Buffer::new();
    put(line, buffer.format(number).as_bytes())
}

// `Unproved NAME.Main.K KIND`
fn unproved_kind(alloc: Global, name: &[u8], number: u32, kind: VcKind) -> Result<Vec<u8>, NoMemory>
    ensures { IfOk result (λ text. text.items ≡ spec.unproved_kind name.now number kind) }
{
    let mut text = Vec::new(alloc);
    put(&mut text, b"Unproved ")?;
    put(&mut text, name)?;
    put(&mut text, b".Main.")?;
    put_number(&mut text, number)?;
    put(&mut text, b" ")?;
    put(&mut text, kind_text(kind))?;
    Ok(text)
}

/// The line of a module whose condition of that number, from 1, is not proved. The place is the condition's, in the module's file.
pub fn unproved_line(
    alloc: Global,
    name: &[u8],
    number: u32,
    kind: VcKind,
    at: u32,
) -> Result<Name, NoMemory>
    ensures { IfOk result (λ line. line ≡ spec.unproved_line name.now number kind at) }
{
    let text = unproved_kind(alloc, name, number, kind)?;
    refused_line(alloc, name, text.as_slice(), at)
}
