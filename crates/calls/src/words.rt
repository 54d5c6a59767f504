//! How words are read: `NAME`, or `NAME:ARGUMENT`, where an argument may be a list of numbers with commas between.

use crate::trouble::{Trouble, push};
use sqlite_items::Items;
use std::alloc::Global;
use std::str::FromStr;

/// What stands before the first colon of a word, and what stands after it.
pub fn name_and_rest(word: &str) -> (&str, &str) {
    match word.split_once(':') {
        Some((name, rest)) => (name, rest),
        None => (word, ""),
    }
}

/// The words of a text, apart.
pub fn words_of(alloc: Global, line: &str) -> Result<Vec<String>, Trouble> {
    let mut words = Vec::new(alloc);
    for word in line.split_whitespace() {
        push(&mut words, String::from_str(alloc, word)?)?;
    }
    Ok(words)
}

/// What stands before a colon, and what stands after it.
pub fn two_parts(rest: &str) -> Result<(&str, &str), Trouble> {
    rest.split_once(':').ok_or(Trouble::NotUnderstood)
}

/// What a text spells.
pub fn parsed<T: FromStr + Drop>(text: &str) -> Result<T, Trouble>
where
    T::Err: Drop,
{
    match text.parse::<T>() {
        Ok(value) => Ok(value),
        Err(_) => Err(Trouble::NotUnderstood),
    }
}

/// What the pieces of a text spell, with commas between; of an empty text none.
pub fn parsed_list<T: FromStr + Drop>(alloc: Global, text: &str) -> Result<Items<T>, Trouble>
where
    T::Err: Drop,
{
    let mut out = Items::new(alloc);
    for piece in text.split(',') {
        if !piece.is_empty() {
            out.push(parsed::<T>(piece)?)?;
        }
    }
    Ok(out)
}

/// A number that is not negative.
pub fn count(text: &str) -> Result<u32, Trouble> {
    parsed::<u32>(text)
}

/// Two numbers that are not negative, with a colon between.
pub fn two_counts(rest: &str) -> Result<(u32, u32), Trouble> {
    let (a, b) = two_parts(rest)?;
    Ok((count(a)?, count(b)?))
}
