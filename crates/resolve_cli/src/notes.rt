//! What each status writes on notes.

ghost use Rattle.std.specs.Prelude.{◌≡◌, [], ◌∷◌, ◌++◌, ◌≤◌, codes, decimal, OnErr, OnOk};
ghost use Rattle.edge_io.specs.Faults.{Rose};
ghost use Rattle.edge_io.specs.Held.{Grew, GrewByPrefix};
ghost use Rattle.resolve_cli.specs.Resolves.{Noted};
ghost use Rattle.resolve_cli.specs.Texts.{note_of};
ghost use Rattle.resolve_cli.specs.declared.status.Status.{Status};

use crate::status::{LinkError, Status};
use edge_io::laws::{growth_composes, growth_is_prefix, growth_then_prefix, rise_lasts, unchanged};
use edge_io::numbers::InputError;
use edge_io::sink::{Sink, write_all};
use edge_io::source::Failed;
use itoa::Buffer;
use math_terms::Name;

// A front, a name and LF.
fn write_line<N: Sink>(notes: &mut N, front: &[u8], name: &[u8]) -> Result<(), Failed>
    ensures appended { OnOk result (Grew (N.held notes.old) (N.held notes.new) (front.now ++ (name.now ++ 10 ∷ []))) }
    ensures prefix { OnErr result (GrewByPrefix (N.held notes.old) (N.held notes.new) (front.now ++ (name.now ++ 10 ∷ []))) }
    ensures never_falls { N.faults notes.old ≤ N.faults notes.new }
    ensures failed { OnErr result (Rose (N.faults notes.old) (N.faults notes.new)) }
{
    growth_composes();
    growth_then_prefix();
    growth_is_prefix();
    rise_lasts();
    write_all(notes, front)?;
    write_rest(notes, name)
}

// A name and LF.
fn write_rest<N: Sink>(notes: &mut N, name: &[u8]) -> Result<(), Failed>
    ensures appended { OnOk result (Grew (N.held notes.old) (N.held notes.new) (name.now ++ 10 ∷ [])) }
    ensures prefix { OnErr result (GrewByPrefix (N.held notes.old) (N.held notes.new) (name.now ++ 10 ∷ [])) }
    ensures never_falls { N.faults notes.old ≤ N.faults notes.new }
    ensures failed { OnErr result (Rose (N.faults notes.old) (N.faults notes.new)) }
{
    growth_composes();
    growth_then_prefix();
    growth_is_prefix();
    rise_lasts();
    write_all(notes, name)?;
    write_all(notes, b"\n")
}

// A text and LF.
fn note<N: Sink>(notes: &mut N, text: &[u8])
    ensures { Noted (N.held notes.old) (N.held notes.new) (N.faults notes.old) (N.faults notes.new) (text.now ++ 10 ∷ []) }
{
    let _ = write_rest(notes, text);
}

// A front, a name and LF.
fn note_name<N: Sink>(notes: &mut N, front: &[u8], name: &Name)
    ensures { Noted (N.held notes.old) (N.held notes.new) (N.faults notes.old) (N.faults notes.new) (front.now ++ (name.now ++ 10 ∷ [])) }
{
    let _ = write_line(notes, front, name.bytes());
}

// Nothing.
fn note_nothing<N: Sink>(notes: &mut N)
    ensures { Noted (N.held notes.old) (N.held notes.new) (N.faults notes.old) (N.faults notes.new) [] }
{
    unchanged();
    let _ = notes;
}

// A front, a number and LF.
fn note_number<N: Sink>(notes: &mut N, front: &[u8], number: u64)
    ensures { Noted (N.held notes.old) (N.held notes.new) (N.faults notes.old) (N.faults notes.new) (front.now ++ (decimal number ++ 10 ∷ [])) }
{
    let mut buffer = Buffer::new();
    let _ = write_line(notes, front, buffer.format(number).as_bytes());
}

// What is wrong with the input.
fn note_input<N: Sink>(notes: &mut N, e: InputError)
    ensures { Noted (N.held notes.old) (N.held notes.new) (N.faults notes.old) (N.faults notes.new) (note_of (Status.BadInput e)) }
{
    match e {
        InputError::Failed => note(notes, b"bad input: Failed"),
        InputError::TooLong => note(notes, b"bad input: TooLong"),
        InputError::NoNumber { at } => note_number(notes, b"bad input: NoNumber at ", at as u64),
        InputError::TooMany { at } => note_number(notes, b"bad input: TooMany at ", at as u64),
        InputError::NoMemory => note(notes, b"bad input: NoMemory"),
    }
}

/// Writes the line of a status, and nothing where the command was carried out. This takes no memory.
pub fn write_note<N: Sink>(notes: &mut N, status: &Status)
    ensures { Noted (N.held notes.old) (N.held notes.new) (N.faults notes.old) (N.faults notes.new) (note_of status.now) }
{
    match status {
        Status::Done => note_nothing(notes),
        Status::Refused { line } => note(notes, line.bytes()),
        Status::BadWords => note(notes, b"bad words"),
        Status::NotFound { name } => note_name(notes, b"not found: ", name),
        Status::ShelfFault => note(notes, b"shelf fault"),
        Status::LinkRefused(LinkError::CodeTooLong) => note(notes, b"link refused: CodeTooLong"),
        Status::BadInput(e) => note_input(notes, *e),
        Status::SourceFault => note(notes, b"source fault"),
        Status::SinkFault => note(notes, b"sink fault"),
        Status::StepsSpent { steps } => note_number(notes, b"steps spent: ", *steps),
        Status::NoMemory => note(notes, b"no memory"),
        Status::FileTooLong { name } => note_name(notes, b"file too long: ", name),
        Status::NotBuilt => note(notes, b"not built"),
    }
}
