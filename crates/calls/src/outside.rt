//! The calls on sources, sinks and shelves. `numbers:K,.. | TEXT` reads the numbers of a text from a source in memory whose calls of these
//! numbers fail; `zeros:N` does so with a text of N zeros, and `blanks:N` with one of N blanks. `reads:K,.. | TEXT` makes five reads
//! of two bytes of such a source, of one that never fails (`reads:calm`) or of a reader (`reads:std`); `writes:.. | WORDS` writes the
//! words one after another on such a sink; `files:.. | CALLS` makes the calls `read:NAME` and `write:NAME:BYTES` on such a shelf.

use crate::saying::{put_bytes, say, say_at, say_bytes, say_number, say_truth};
use crate::trouble::{Trouble, push};
use crate::words::{count, name_and_rest, two_parts};
use edge_io::adapters::{StdSink, StdSource};
use edge_io::calm::{CalmShelf, CalmSink, CalmSource};
use edge_io::memory::{MemShelf, MemSink, MemSource};
use edge_io::numbers::{InputError, read_numbers};
use edge_io::shelf::{Shelf, ShelfError};
use edge_io::sink::{Sink, write_all};
use edge_io::source::Source;
use std::alloc::Global;
use std::io::Cursor;

/// A text's bytes.
pub fn bytes_of(alloc: Global, text: &[u8]) -> Result<Vec<u8>, Trouble> {
    let mut bytes = Vec::new(alloc);
    bytes.extend_from_slice(text)?;
    Ok(bytes)
}

/// The numbers of calls that fail.
pub fn failing(alloc: Global, rest: &str) -> Result<Vec<u32>, Trouble> {
    let mut out = Vec::new(alloc);
    for piece in rest.split(',') {
        if !piece.is_empty() {
            push(&mut out, count(piece)?)?;
        }
    }
    Ok(out)
}

fn say_input_error(said: &mut String, e: InputError) -> Result<(), Trouble> {
    match e {
        InputError::Failed => say(said, "failed"),
        InputError::TooLong => say(said, "TooLong"),
        InputError::NoNumber { at } => say_at(said, "NoNumber", at),
        InputError::TooMany { at } => say_at(said, "TooMany", at),
        InputError::NoMemory => Err(Trouble::NoMemory),
    }
}

fn say_numbers<S: Source>(alloc: Global, said: &mut String, source: &mut S) -> Result<(), Trouble> {
    match read_numbers(alloc, source) {
        Ok(numbers) => {
            for n in numbers.as_slice() {
                say_number(said, *n)?;
            }
            Ok(())
        }
        Err(e) => say_input_error(said, e),
    }
}

/// A text so many times.
pub fn repeated(alloc: Global, piece: &[u8], times: u32) -> Result<Vec<u8>, Trouble> {
    let mut bytes = Vec::new(alloc);
    for _ in 0..times {
        bytes.extend_from_slice(piece)?;
    }
    Ok(bytes)
}

fn say_repeated(alloc: Global, said: &mut String, piece: &[u8], times: u32) -> Result<(), Trouble> {
    let bytes = repeated(alloc, piece, times)?;
    say_numbers(alloc, said, &mut CalmSource::new(bytes))
}

fn say_read<S: Source>(said: &mut String, source: &mut S) -> Result<(), Trouble> {
    let mut buf = [0; 2];
    match source.read(&mut buf) {
        Ok(n) => {
            say_number(said, n as i64)?;
            said.push_str(":")?;
            put_bytes(said, &buf[..n])
        }
        Err(_) => say(said, "failed"),
    }
}

fn say_reads<S: Source + Drop>(said: &mut String, mut source: S) -> Result<(), Trouble> {
    for _ in 0..5 {
        say_read(said, &mut source)?;
    }
    Ok(())
}

fn say_source(alloc: Global, said: &mut String, rest: &str, text: &[u8]) -> Result<(), Trouble> {
    match rest {
        "calm" => say_reads(said, CalmSource::new(bytes_of(alloc, text)?)),
        "std" => say_reads(said, StdSource::new(Cursor::new(text))),
        _ => {
            let failing = failing(alloc, rest)?;
            say_reads(said, MemSource::new(bytes_of(alloc, text)?, failing))
        }
    }
}

fn say_writes<K: Sink>(said: &mut String, sink: &mut K, text: &str) -> Result<(), Trouble> {
    for word in text.split_whitespace() {
        match write_all(sink, word.as_bytes()) {
            Ok(()) => say(said, "ok")?,
            Err(_) => say(said, "failed")?,
        }
    }
    Ok(())
}

fn say_calm_sink(alloc: Global, said: &mut String, text: &str) -> Result<(), Trouble> {
    let mut sink = CalmSink::new(alloc);
    say_writes(said, &mut sink, text)?;
    say_bytes(said, sink.held.as_slice())?;
    say_truth(said, sink.tells)
}

fn say_std_sink(alloc: Global, said: &mut String, text: &str) -> Result<(), Trouble> {
    let mut bytes = Vec::new(alloc);
    say_writes(said, &mut StdSink::new(&mut bytes), text)?;
    say_bytes(said, bytes.as_slice())
}

fn say_mem_sink(
    alloc: Global,
    said: &mut String,
    failing: Vec<u32>,
    text: &str,
) -> Result<(), Trouble> {
    let mut sink = MemSink::new(alloc, failing);
    say_writes(said, &mut sink, text)?;
    say_bytes(said, sink.held.as_slice())?;
    say_truth(said, sink.tells)?;
    say_number(said, sink.faults.min(9) as i64)
}

fn say_sink(alloc: Global, said: &mut String, rest: &str, text: &str) -> Result<(), Trouble> {
    match rest {
        "calm" => say_calm_sink(alloc, said, text),
        "std" => say_std_sink(alloc, said, text),
        _ => say_mem_sink(alloc, said, failing(alloc, rest)?, text),
    }
}

fn say_shelf_error(said: &mut String, e: ShelfError) -> Result<(), Trouble> {
    match e {
        ShelfError::NotFound => say(said, "NotFound"),
        ShelfError::TooLong => say(said, "TooLong"),
        ShelfError::Failed => say(said, "failed"),
        ShelfError::NoMemory => Err(Trouble::NoMemory),
    }
}

fn say_file<F: Shelf>(
    alloc: Global,
    said: &mut String,
    shelf: &mut F,
    name: &str,
) -> Result<(), Trouble> {
    let mut into = bytes_of(alloc, b"old")?;
    match shelf.read(name, &mut into) {
        Ok(()) => say_bytes(said, into.as_slice()),
        Err(e) => say_shelf_error(said, e),
    }
}

fn write_file<F: Shelf>(said: &mut String, shelf: &mut F, rest: &str) -> Result<(), Trouble> {
    let (name, bytes) = two_parts(rest)?;
    match shelf.write(name, bytes.as_bytes()) {
        Ok(()) => say(said, "ok"),
        Err(e) => say_shelf_error(said, e),
    }
}

fn say_files<F: Shelf + Drop>(
    alloc: Global,
    said: &mut String,
    mut shelf: F,
    text: &str,
) -> Result<(), Trouble> {
    for word in text.split_whitespace() {
        let (name, rest) = name_and_rest(word);
        match name {
            "read" => say_file(alloc, said, &mut shelf, rest)?,
            _ => write_file(said, &mut shelf, rest)?,
        }
    }
    Ok(())
}

fn say_shelf(alloc: Global, said: &mut String, rest: &str, text: &str) -> Result<(), Trouble> {
    match rest {
        "calm" => say_files(alloc, said, CalmShelf::new(alloc), text),
        _ => {
            let failing = failing(alloc, rest)?;
            say_files(alloc, said, MemShelf::new(alloc, failing), text)
        }
    }
}

/// Whether this is a call on the outside, which is made.
pub fn outside(
    alloc: Global,
    said: &mut String,
    name: &str,
    rest: &str,
    text: &str,
) -> Result<bool, Trouble> {
    match name {
        "numbers" => {
            let failing = failing(alloc, rest)?;
            let bytes = bytes_of(alloc, text.as_bytes())?;
            say_numbers(alloc, said, &mut MemSource::new(bytes, failing))?;
        }
        "zeros" => say_repeated(alloc, said, b"0 ", count(rest)?)?,
        "blanks" => say_repeated(alloc, said, b" ", count(rest)?)?,
        "reads" => say_source(alloc, said, rest, text.as_bytes())?,
        "writes" => say_sink(alloc, said, rest, text)?,
        "files" => say_shelf(alloc, said, rest, text)?,
        _ => return Ok(false),
    }
    Ok(true)
}
