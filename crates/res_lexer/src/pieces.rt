//! The piece at the front of a text: a blank, a comment, or a token.

ghost use Rattle.std.specs.Prelude.{◌≡◌, ◌↔◌, pos, ◌+◌, ◌-◌, ◌^◌, ◌<◌, ◌≤◌, length, take, drop, Some, slice_get, IsTrue, MatchOption};
ghost use Rattle.std.specs.List.{prefix_len};
ghost use Rattle.std.specs.Str.Parse.{digits_value};
ghost use Rattle.res_lexer.specs.Pieces as spec;
ghost use Rattle.res_lexer.specs.Pieces.{is_blank, is_digit, is_literal, line_comment_len, bracket_comment_len, before_closing, piece_at, symbol_at, symbols, greatest_literal};
ghost use Rattle.res_lexer.specs.working.Found.{Answers};

use crate::token::{LexError, Token, TokenKind};
use identifiers::identifier_len;
use math_terms::Name;
use std::alloc::Global;

const MOST_NAME_BYTES: usize = 64;

const GREATEST_LITERAL: u64 = 1_000_000_000;

const SYMBOLS: u8 = 19;

/// A blank or a comment, of so many bytes, or a token.
#[derive(Drop)]
pub enum Piece {
    Gap(usize),
    Token(Token),
}

fn is_blank(byte: u8) -> bool
    ensures { result ≡ is_blank byte }
{
    matches!(byte, b' ' | b'\t' | b'\r' | b'\n')
}

// How many bytes at the front are digits.
fn digits_len(bytes: &[u8]) -> usize
    ensures { result ≡ prefix_len is_digit bytes.now }
{
    bytes
        .iter()
        .take_while(|byte| byte.is_ascii_digit())
        .count()
}

// How many bytes stand before the next LF, or before the end.
fn line_comment_len(bytes: &[u8]) -> usize
    ensures { result ≡ line_comment_len bytes.now }
{
    bytes.iter().take_while(|byte| **byte != b'\n').count()
}

// How many bytes stand before the first `*)`.
fn before_closing(bytes: &[u8]) -> Option<usize>
    ensures { result ≡ before_closing bytes.now }
{
    for start in 0..bytes.len() {
        if bytes[start..].starts_with(b"*)") {
            return Some(start);
        }
    }
    None
}

// A comment, whose text has to be UTF-8.
fn comment(at: u32, text: &[u8]) -> Result<Piece, LexError>
    requires fits { at + length text.now < 2 ^ 32 }
    ensures { Answers at result (spec.comment at text.now) }
{
    match str::from_utf8(text) {
        Ok(_) => Ok(Piece::Gap(text.len())),
        Err(error) => Err(LexError::BadByte {
            at: at + error.valid_up_to() as u32,
        }),
    }
}

// A comment in brackets, which has to be closed.
fn bracket_comment(at: u32, rest: &[u8]) -> Result<Piece, LexError>
    requires some { 2 ≤ length rest.now }
    requires fits { at + length rest.now < 2 ^ 32 }
    ensures { Answers at result (spec.bracket_comment at rest.now (bracket_comment_len rest.now)) }
{
    match before_closing(&rest[2..]) {
        Some(inside) => comment(at, &rest[..2 + inside + 2]),
        None => Err(LexError::OpenComment { at }),
    }
}

fn word(alloc: Global, at: u32, text: &[u8]) -> Result<Piece, LexError>
    requires fits { length text.now < 2 ^ 32 }
    ensures { Answers at result (spec.word at text.now) }
{
    if text.len() > MOST_NAME_BYTES {
        return Err(LexError::LongName { at });
    }
    match Name::new(alloc, text) {
        Ok(name) => Ok(Piece::Token(Token {
            at,
            len: text.len() as u32,
            kind: TokenKind::Word(name),
        })),
        Err(_) => Err(LexError::NoMemory),
    }
}

// The number that decimal digits write, or `None` if it is too great for a literal.
fn literal_value(digits: &[u8]) -> Option<u64>
    requires { IsTrue (is_literal digits.now) }
    ensures { MatchOption result (greatest_literal < digits_value 10 digits.now) (λ n. (n ≡ digits_value 10 digits.now) × (n ≤ greatest_literal)) }
{
    let mut value = 0;
    for digit in digits {
        value = value * 10 + u64::from(*digit - b'0');
        if value > GREATEST_LITERAL {
            return None;
        }
    }
    Some(value)
}

fn literal(at: u32, text: &[u8]) -> Result<Piece, LexError>
    requires digits { IsTrue (is_literal text.now) }
    requires fits { length text.now < 2 ^ 32 }
    ensures { Answers at result (spec.literal at text.now) }
{
    match literal_value(text) {
        Some(value) => Ok(Piece::Token(Token {
            at,
            len: text.len() as u32,
            kind: TokenKind::Literal(value as i64),
        })),
        None => Err(LexError::BigLiteral { at }),
    }
}

// The bytes of the symbol of this number.
fn symbol_text(number: u8) -> &'static [u8]
    requires counted { 0 < number }
    requires listed { number ≤ 19 }
    ensures { slice_get symbols (number - 1) ≡ Some result.now }
{
    match number {
        1 => b":=:",
        2 => b":=",
        3 => b"<=",
        4 => b">=",
        5 => b"/=",
        6 => b"<",
        7 => b">",
        8 => b"=",
        9 => b"+",
        10 => b"-",
        11 => b"*",
        12 => b"(",
        13 => b")",
        14 => b",",
        15 => b";",
        16 => b":",
        17 => b".",
        18 => b"|",
        _ => b"#",
    }
}

fn symbol(at: u32, rest: &[u8]) -> Result<Piece, LexError>
    ensures { Answers at result (symbol_at at rest.now) }
{
    for number in 1..=SYMBOLS {
        let text = symbol_text(number);
        if rest.starts_with(text) {
            return Ok(Piece::Token(Token {
                at,
                len: text.len() as u32,
                kind: TokenKind::Symbol(number),
            }));
        }
    }
    Err(LexError::BadByte { at })
}

/// The piece at the front of what is left of a text from this place on, or why none stands there.
pub fn piece_at(alloc: Global, at: u32, rest: &[u8]) -> Result<Piece, LexError>
    requires some { 0 < length rest.now }
    requires fits { at + length rest.now < 2 ^ 32 }
    ensures { Answers at result (piece_at at rest.now) }
{
    if is_blank(rest[0]) {
        return Ok(Piece::Gap(1));
    }
    if rest.starts_with(b"--") {
        return comment(at, &rest[..line_comment_len(rest)]);
    }
    if rest.starts_with(b"(*") {
        return bracket_comment(at, rest);
    }
    let name = identifier_len(rest);
    if name > 0 {
        return word(alloc, at, &rest[..name]);
    }
    let digits = digits_len(rest);
    if digits > 0 {
        return literal(at, &rest[..digits]);
    }
    symbol(at, rest)
}
