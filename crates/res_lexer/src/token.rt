//! Tokens, and why a text has none.

ghost use Rattle.std.specs.Prelude.{◌≡◌, ◌↔◌, IfOk, IsTrue};

use math_terms::{Name, NoMemory};
use std::alloc::Global;
use thiserror::Error;

/// A token: the place of its first byte in the file, from 0, the number of its bytes, and what it is.
#[derive(Debug, Drop)]
pub struct Token {
    pub at: u32,
    pub len: u32,
    pub kind: TokenKind,
}

impl Token {
    /// A second token, equal to the first.
    pub fn copy(&self, alloc: Global) -> Result<Token, NoMemory>
        ensures { IfOk result (λ token. token ≡ self.now) }
    {
        Ok(Token {
            at: self.at,
            len: self.len,
            kind: self.kind.copy(alloc)?,
        })
    }
}

/// A word, reserved or not, a literal, or a symbol by its number, which `symbol` names.
#[derive(Debug, Drop)]
pub enum TokenKind {
    Word(Name),
    Literal(i64),
    Symbol(u8),
}

impl TokenKind {
    /// A second kind, equal to the first.
    pub fn copy(&self, alloc: Global) -> Result<TokenKind, NoMemory>
        ensures { IfOk result (λ kind. kind ≡ self.now) }
    {
        match self {
            TokenKind::Word(name) => Ok(TokenKind::Word(name.copy(alloc)?)),
            TokenKind::Literal(value) => Ok(TokenKind::Literal(*value)),
            TokenKind::Symbol(number) => Ok(TokenKind::Symbol(*number)),
        }
    }

    /// Whether this is the word of these bytes.
    pub fn is_word(&self, word: &[u8]) -> bool
        ensures { IsTrue result ↔ (self.now ≡ TokenKind.Word word.now) }
    {
        match self {
            TokenKind::Word(name) => name.bytes() == word,
            TokenKind::Literal(_) | TokenKind::Symbol(_) => false,
        }
    }

    /// Whether this is the symbol of this number.
    pub fn is_symbol(&self, number: u8) -> bool
        ensures { IsTrue result ↔ (self.now ≡ TokenKind.Symbol number) }
    {
        match self {
            TokenKind::Symbol(own) => *own == number,
            TokenKind::Word(_) | TokenKind::Literal(_) => false,
        }
    }
}

/// Why a text has no tokens, with the place of the first breach, from 0.
#[derive(Clone, Copy, Debug, PartialEq, Eq, Error)]
pub enum LexError {
    #[error("no token begins here")]
    BadByte { at: u32 },
    #[error("a comment is not closed")]
    OpenComment { at: u32 },
    #[error("a name is too long")]
    LongName { at: u32 },
    #[error("a literal is too great")]
    BigLiteral { at: u32 },
    #[error("out of memory")]
    NoMemory,
}
