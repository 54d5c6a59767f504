//! The top call. `answer:FAULT:INPUT:WORDS | TEXT` asks it what the words answer where the file `a` holds the text, and writes the number of
//! the status, what is written on out and what is written on notes, with `/` for each LF. FAULT is empty, or `source1`, `sink2` or
//! `shelf2`, where the first or second call of this end fails; a shelf's first call writes the file. `answer_zeros:N:WORDS | TEXT`
//! asks it where the input is N zeros with blanks between, and `answer_blanks:N:WORDS | ` where the file is N blanks.

use crate::lists::both;
use crate::outside::{bytes_of, failing, repeated};
use crate::saying::{say, say_number};
use crate::trouble::Trouble;
use crate::words::{count, two_parts, words_of};
use edge_io::calm::CalmSink;
use edge_io::memory::{MemShelf, MemSink, MemSource};
use edge_io::shelf::Shelf;
use resolve_cli::resolve;
use std::alloc::Global;

/// What a command is given: its words, and the ends that it works on.
#[derive(Drop)]
struct Asked {
    words: Vec<String>,
    input: MemSource,
    out: MemSink,
    notes: CalmSink,
    shelf: MemShelf,
}

// The numbers of the calls of an end that fail.
fn failing_of(alloc: Global, fault: &str, end: &str) -> Result<Vec<u32>, Trouble> {
    match fault.strip_prefix(end) {
        Some(numbers) => failing(alloc, numbers),
        None => Ok(Vec::new(alloc)),
    }
}

fn source_with(alloc: Global, fault: &str, input: Vec<u8>) -> Result<MemSource, Trouble> {
    let failing = failing_of(alloc, fault, "source")?;
    Ok(MemSource::new(input, failing))
}

fn sink_with(alloc: Global, fault: &str) -> Result<MemSink, Trouble> {
    let failing = failing_of(alloc, fault, "sink")?;
    Ok(MemSink::new(alloc, failing))
}

fn shelf_with(alloc: Global, fault: &str, file: &[u8]) -> Result<MemShelf, Trouble> {
    let failing = failing_of(alloc, fault, "shelf")?;
    let mut shelf = MemShelf::new(alloc, failing);
    let _ = shelf.write("a", file);
    Ok(shelf)
}

// What a command is given where an input is there and the file holds a text.
fn given(
    alloc: Global,
    fault: &str,
    input: Vec<u8>,
    words: &str,
    file: &[u8],
) -> Result<Asked, Trouble> {
    let ends = both(source_with(alloc, fault, input), sink_with(alloc, fault));
    let rest = both(words_of(alloc, words), shelf_with(alloc, fault, file));
    let ((input, out), (words, shelf)) = both(ends, rest)?;
    Ok(Asked {
        words,
        input,
        out,
        notes: CalmSink::new(alloc),
        shelf,
    })
}

// The number of the status that is answered.
fn number_of(alloc: Global, asked: &mut Asked) -> u8 {
    let status = resolve(
        alloc,
        asked.words.as_slice(),
        &mut asked.input,
        &mut asked.out,
        &mut asked.notes,
        &mut asked.shelf,
    );
    status.number()
}

fn put_lines(said: &mut String, text: &str) -> Result<(), Trouble> {
    for (k, line) in text.split('\n').enumerate() {
        if k > 0 {
            said.push_str("/")?;
        }
        said.push_str(line)?;
    }
    Ok(())
}

// What is written, in brackets.
fn say_written(said: &mut String, written: &[u8]) -> Result<(), Trouble> {
    say(said, "[")?;
    match std::str::from_utf8(written) {
        Ok(text) => put_lines(said, text)?,
        Err(_) => return Err(Trouble::NotUnderstood),
    }
    said.push_str("]")?;
    Ok(())
}

fn say_end(said: &mut String, number: u8, asked: &Asked) -> Result<(), Trouble> {
    say_number(said, i64::from(number))?;
    say_written(said, asked.out.held.as_slice())?;
    say_written(said, asked.notes.held.as_slice())
}

// What the words answer.
fn say_answer(
    alloc: Global,
    said: &mut String,
    fault: &str,
    input: Vec<u8>,
    words: &str,
    file: &[u8],
) -> Result<(), Trouble> {
    let mut asked = given(alloc, fault, input, words, file)?;
    let number = number_of(alloc, &mut asked);
    say_end(said, number, &asked)
}

// `FAULT:INPUT:WORDS`
fn say_plain(alloc: Global, said: &mut String, rest: &str, file: &[u8]) -> Result<(), Trouble> {
    let (fault, rest) = two_parts(rest)?;
    let (input, words) = two_parts(rest)?;
    let input = bytes_of(alloc, input.as_bytes())?;
    say_answer(alloc, said, fault, input, words, file)
}

// `N:WORDS`, for an input of N zeros.
fn say_of_zeros(alloc: Global, said: &mut String, rest: &str, file: &[u8]) -> Result<(), Trouble> {
    let (times, words) = two_parts(rest)?;
    let input = repeated(alloc, b"0 ", count(times)?)?;
    say_answer(alloc, said, "", input, words, file)
}

// `N:WORDS`, for a file of N blanks.
fn say_of_blanks(alloc: Global, said: &mut String, rest: &str) -> Result<(), Trouble> {
    let (times, words) = two_parts(rest)?;
    let file = repeated(alloc, b" ", count(times)?)?;
    say_answer(alloc, said, "", Vec::new(alloc), words, file.as_slice())
}

/// Whether this asks the top call, which has answered.
pub fn answers(
    alloc: Global,
    said: &mut String,
    name: &str,
    rest: &str,
    text: &str,
) -> Result<bool, Trouble> {
    match name {
        "answer" => say_plain(alloc, said, rest, text.as_bytes())?,
        "answer_zeros" => say_of_zeros(alloc, said, rest, text.as_bytes())?,
        "answer_blanks" => say_of_blanks(alloc, said, rest)?,
        _ => return Ok(false),
    }
    Ok(true)
}
