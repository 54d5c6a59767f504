//! The numbers that a source gives as text.

ghost use Rattle.std.specs.Prelude.{◌≡◌, ◌+◌, ◌<◌, ◌≤◌, length, IfOk, IsErrOf, vec_len};
ghost use Rattle.std.specs.List.{prefix_len};
ghost use Rattle.edge_io.specs.Faults.{Rose};
ghost use Rattle.edge_io.specs.Numbers.{Answers, IsReading, IsText, is_blank, is_part, most_numbers, most_text_bytes, number_of};

use crate::source::{Failed, Source};
use std::alloc::{AllocError, AllocFailed, Global};
use thiserror::Error;

/// The most bytes of a text.
const MOST_TEXT_BYTES: usize = 1_048_576;

/// The most numbers of a text.
const MOST_NUMBERS: usize = 65_535;

/// How many bytes are read at once.
const CHUNK: usize = 4096;

/// Why no numbers were read. A place is the offset of a piece's first byte, counted from 0.
#[derive(Clone, Copy, Debug, PartialEq, Eq, Error)]
pub enum InputError {
    #[error("a read failed")]
    Failed,
    #[error("the text is too long")]
    TooLong,
    #[error("no number stands here")]
    NoNumber { at: u32 },
    #[error("there are too many numbers")]
    TooMany { at: u32 },
    #[error("out of memory")]
    NoMemory,
}

impl From<Failed> for InputError {
    ghost use Rattle.std.specs.Prelude.{◌≡◌};
    ghost use Rattle.edge_io.specs.declared.numbers.InputError.TheVariants.{Failed};

    ghost from_gives = { λ _ e. e ≡ Failed };

    fn from(_failed: Failed) -> InputError {
        InputError::Failed
    }
}

impl From<AllocError> for InputError {
    ghost use Rattle.std.specs.Prelude.{◌≡◌};
    ghost use Rattle.edge_io.specs.declared.numbers.InputError.TheVariants.{NoMemory};

    ghost from_gives = { λ _ e. e ≡ NoMemory };

    fn from(_refused: AllocError) -> InputError {
        InputError::NoMemory
    }
}

impl<T: Drop> From<AllocFailed<T>> for InputError {
    ghost use Rattle.std.specs.Prelude.{◌≡◌};
    ghost use Rattle.edge_io.specs.declared.numbers.InputError.TheVariants.{NoMemory};

    ghost from_gives = { λ _ e. e ≡ NoMemory };

    fn from(_refused: AllocFailed<T>) -> InputError {
        InputError::NoMemory
    }
}

fn is_blank(byte: u8) -> bool
    ensures { result ≡ is_blank byte }
{
    matches!(byte, b' ' | b'\t' | b'\r' | b'\n')
}

/// How many bytes at the front are blank.
fn count_blanks(text: &[u8]) -> usize
    ensures { result ≡ prefix_len is_blank text.now }
{
    text.iter().take_while(|byte| is_blank(**byte)).count()
}

/// How many bytes stand before the first blank.
fn piece_len(text: &[u8]) -> usize
    ensures { result ≡ prefix_len is_part text.now }
{
    text.iter().take_while(|byte| !is_blank(**byte)).count()
}

/// The number of a piece. Unlike the standard library's, it has no plus sign.
fn parse_number(piece: &[u8]) -> Option<i64>
    ensures { result ≡ number_of piece.now }
{
    if piece.first() == Some(&b'+') {
        return None;
    }
    match str::from_utf8(piece) {
        Ok(text) => text.parse().ok(),
        Err(_) => None,
    }
}

/// The numbers of a text, in order.
fn parse_numbers(alloc: Global, text: &[u8]) -> Result<Vec<i64>, InputError>
    requires { length text.now ≤ most_text_bytes }
    ensures reading { Answers text.now result }
    ensures few { IfOk result (λ numbers. vec_len numbers ≤ most_numbers) }
    ensures never_fails { ¬ IsErrOf result InputError.Failed }
    ensures never_long { ¬ IsErrOf result InputError.TooLong }
{
    let mut numbers = Vec::new(alloc);
    // Here no blank stands at the place, and all before it is read.
    let mut at = count_blanks(text);
    while at < text.len() {
        let rest = &text[at..];
        let len = piece_len(rest);
        let Some(number) = parse_number(&rest[..len]) else {
            return Err(InputError::NoNumber { at: at as u32 });
        };
        if numbers.len() >= MOST_NUMBERS {
            return Err(InputError::TooMany { at: at as u32 });
        }
        numbers.push(number)?;
        at += len + count_blanks(&rest[len..]);
    }
    Ok(numbers)
}

/// Reads to the end of input, or until one byte more came than a text may have.
fn read_text<S: Source>(alloc: Global, source: &mut S) -> Result<Vec<u8>, InputError>
    ensures text { IsText (S.left source.old) (S.left source.new) result }
    ensures never_falls { S.faults source.old ≤ S.faults source.new }
    ensures failed { IsErrOf result InputError.Failed → Rose (S.faults source.old) (S.faults source.new) }
{
    let mut text = Vec::new(alloc);
    let mut chunk = [0; CHUNK];
    while text.len() <= MOST_TEXT_BYTES {
        let room = (MOST_TEXT_BYTES + 1 - text.len()).min(CHUNK);
        let count = source.read(&mut chunk[..room])?;
        if count == 0 {
            return Ok(text);
        }
        text.extend_from_slice(&chunk[..count])?;
    }
    Err(InputError::TooLong)
}

/// Reads the source to its end: numbers with spaces, tabs, CRs and LFs between them, before and after. A number is an
/// optional `-` and at least one digit, within 64 signed bits. `TooLong` comes before `NoNumber` and `TooMany`, whatever
/// the text holds; then exactly 1,048,577 bytes are read.
pub fn read_numbers<S: Source>(alloc: Global, source: &mut S) -> Result<Vec<i64>, InputError>
    ensures reading { IsReading (S.left source.old) (S.left source.new) result }
    ensures few { IfOk result (λ numbers. vec_len numbers ≤ most_numbers) }
    ensures never_falls { S.faults source.old ≤ S.faults source.new }
    ensures failed { IsErrOf result InputError.Failed → Rose (S.faults source.old) (S.faults source.new) }
{
    let text = read_text(alloc, source)?;
    parse_numbers(alloc, text.as_slice())
}
