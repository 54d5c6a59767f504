//! How answers are written. A term is written as the text by which atoms are ordered.

use crate::trouble::Trouble;
use math_terms::{Line, RowName, Sort, Term};
use num_theory::text_of;
use std::alloc::Global;

/// A word, after a blank.
pub fn say(said: &mut String, word: &str) -> Result<(), Trouble> {
    said.push_str(" ")?;
    said.push_str(word)?;
    Ok(())
}

/// `true` or `false`.
pub fn say_truth(said: &mut String, b: bool) -> Result<(), Trouble> {
    if b {
        say(said, "true")
    } else {
        say(said, "false")
    }
}

/// A number, after a blank.
pub fn say_number(said: &mut String, n: i64) -> Result<(), Trouble> {
    write!(said, " {n}")?;
    Ok(())
}

/// A word and a place, ` WORD at PLACE`.
pub fn say_at(said: &mut String, word: &str, at: u32) -> Result<(), Trouble> {
    say(said, word)?;
    say(said, "at")?;
    say_number(said, i64::from(at))
}

/// Bytes of UTF-8.
pub fn put_bytes(said: &mut String, bytes: &[u8]) -> Result<(), Trouble> {
    match std::str::from_utf8(bytes) {
        Ok(text) => Ok(said.push_str(text)?),
        Err(_) => Err(Trouble::NotUnderstood),
    }
}

/// Bytes of UTF-8, after a blank.
pub fn say_bytes(said: &mut String, bytes: &[u8]) -> Result<(), Trouble> {
    said.push_str(" ")?;
    put_bytes(said, bytes)
}

/// A term, after a blank.
pub fn say_term(alloc: Global, said: &mut String, t: &Term) -> Result<(), Trouble> {
    let text = text_of(alloc, t)?;
    say_bytes(said, text.as_slice())
}

/// Terms, with commas between.
pub fn say_terms(alloc: Global, said: &mut String, terms: &[Term]) -> Result<(), Trouble> {
    for (k, t) in terms.iter().enumerate() {
        if k > 0 {
            said.push_str(",")?;
        }
        say_term(alloc, said, t)?;
    }
    Ok(())
}

/// Numbers in brackets.
pub fn say_row(said: &mut String, row: &[i32]) -> Result<(), Trouble> {
    say(said, "[")?;
    for n in row {
        say_number(said, i64::from(*n))?;
    }
    say(said, "]")
}

/// The name of a row, as certificates write it.
pub fn say_row_name(said: &mut String, name: RowName) -> Result<(), Trouble> {
    match name {
        RowName::Hyp(k) => write!(said, " h{k}")?,
        RowName::Second(k) => write!(said, " r{k}")?,
        RowName::Atom(k) => write!(said, " a{k}")?,
        RowName::Goal => write!(said, " g")?,
    }
    Ok(())
}

/// A line, as certificates write it: p, i, q and j.
fn say_line(said: &mut String, line: Line) -> Result<(), Trouble> {
    let Line { p, i, q, j } = line;
    write!(said, " {p} {i} {q} {j}")?;
    Ok(())
}

/// Lines, one after another.
pub fn say_lines(said: &mut String, lines: &[Line]) -> Result<(), Trouble> {
    for line in lines {
        say_line(said, *line)?;
    }
    Ok(())
}

/// A sort. The parts of a product stand in brackets.
#[cycle(say_sort)]
pub fn say_sort(said: &mut String, s: &Sort) -> Result<(), Trouble> {
    match s {
        Sort::Z => say(said, "Z"),
        Sort::B => say(said, "B"),
        Sort::Str(entry) => {
            say(said, "Str")?;
            say_sort(said, entry.get())
        }
        Sort::Tup(parts) => {
            say(said, "(")?;
            say_sorts(said, parts.as_slice())?;
            say(said, ")")
        }
        Sort::Param(k) => {
            write!(said, " Param {k}")?;
            Ok(())
        }
        Sort::Any => say(said, "Any"),
    }
}

/// Sorts, one after another.
#[cycle(say_sort)]
pub fn say_sorts(said: &mut String, sorts: &[Sort]) -> Result<(), Trouble> {
    for s in sorts {
        say_sort(said, s)?;
    }
    Ok(())
}
