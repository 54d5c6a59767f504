//! How answers are written.

use crate::trouble::Trouble;
use expr_parser::{SyntaxError, SyntaxKind};
use res_grammar::Fault;
use res_lexer::{LexError, Token, TokenKind};

/// A word, after a blank.
pub fn say(said: &mut String, word: &str) -> Result<(), Trouble> {
    said.push_str(" ")?;
    said.push_str(word)?;
    Ok(())
}

/// Bytes of UTF-8.
pub fn put_bytes(said: &mut String, bytes: &[u8]) -> Result<(), Trouble> {
    match std::str::from_utf8(bytes) {
        Ok(text) => Ok(said.push_str(text)?),
        Err(_) => Err(Trouble::NotUnderstood),
    }
}

/// Bytes of UTF-8, after a blank.
pub fn say_bytes(said: &mut String, bytes: &[u8]) -> Result<(), Trouble> {
    said.push_str(" ")?;
    put_bytes(said, bytes)
}

/// Lines of UTF-8, with `\n` in place of each line feed.
pub fn put_lines(said: &mut String, bytes: &[u8]) -> Result<(), Trouble> {
    match std::str::from_utf8(bytes) {
        Ok(text) => {
            for (number, line) in text.split('\n').enumerate() {
                if number > 0 {
                    said.push_str("\\n")?;
                }
                said.push_str(line)?;
            }
            Ok(())
        }
        Err(_) => Err(Trouble::NotUnderstood),
    }
}

/// Why a text has no tokens.
pub fn say_lex_error(said: &mut String, e: &LexError) -> Result<(), Trouble> {
    match e {
        LexError::BadByte { at } => write!(said, " BadByte at {at}")?,
        LexError::OpenComment { at } => write!(said, " OpenComment at {at}")?,
        LexError::LongName { at } => write!(said, " LongName at {at}")?,
        LexError::BigLiteral { at } => write!(said, " BigLiteral at {at}")?,
        LexError::NoMemory => return Err(Trouble::NoMemory),
    }
    Ok(())
}

/// Why tokens are no text, and the number of the token, from 0.
pub fn say_fault(said: &mut String, fault: Fault, token: usize) -> Result<(), Trouble> {
    match fault {
        Fault::Expected => write!(said, " Expected at token {token}")?,
        Fault::TooDeep => write!(said, " TooDeep at token {token}")?,
        Fault::EndName => write!(said, " EndName at token {token}")?,
    }
    Ok(())
}

/// Why a text spells nothing.
pub fn say_syntax_error(said: &mut String, e: SyntaxError) -> Result<(), Trouble> {
    let at = e.at;
    match e.kind {
        SyntaxKind::Expected => write!(said, " Expected at {at}")?,
        SyntaxKind::TooDeep => write!(said, " TooDeep at {at}")?,
        SyntaxKind::EndName => write!(said, " EndName at {at}")?,
        SyntaxKind::NoMemory => return Err(Trouble::NoMemory),
    }
    Ok(())
}

// `PLACE+LENGTH:TOKEN`, where a symbol is written by its number.
fn say_token(said: &mut String, token: &Token) -> Result<(), Trouble> {
    let at = token.at;
    let len = token.len;
    write!(said, " {at}+{len}:")?;
    match &token.kind {
        TokenKind::Word(name) => put_bytes(said, name.bytes())?,
        TokenKind::Literal(value) => write!(said, "{value}")?,
        TokenKind::Symbol(symbol) => write!(said, "#{symbol}")?,
    }
    Ok(())
}

/// Tokens, each after a blank.
pub fn say_tokens(said: &mut String, tokens: &[Token]) -> Result<(), Trouble> {
    for token in tokens {
        say_token(said, token)?;
    }
    Ok(())
}
