//! Words that were read and wait for what they belong to.

ghost use Rattle.std.specs.Prelude.{◌≡◌, IfOk};
ghost use Rattle.res_grammar.specs.Classes.{word_of};
ghost use Rattle.expr_parser.specs.Actions.{kept, negated, no_word, value_of};

use math_terms::{Name, NoMemory};
use res_lexer::{Token, TokenKind};
use std::alloc::Global;

/// A token that was read: its place, and its bytes where it is a word.
#[derive(Drop)]
pub struct Word {
    pub at: u32,
    pub name: Name,
}

/// The bytes of a word, and none of another token.
pub fn name_of(alloc: Global, token: &Token) -> Result<Name, NoMemory>
    ensures { IfOk result (λ name. name ≡ word_of token.now.kind) }
{
    match &token.kind {
        TokenKind::Word(name) => name.copy(alloc),
        TokenKind::Literal(_) => Name::new(alloc, &[]),
        TokenKind::Symbol(_) => Name::new(alloc, &[]),
    }
}

/// The value of a literal.
pub fn value_of(token: &Token) -> i64
    ensures { result ≡ value_of token.now.kind }
{
    match &token.kind {
        TokenKind::Word(_) => 0,
        TokenKind::Literal(n) => *n,
        TokenKind::Symbol(_) => 0,
    }
}

/// The value of a literal with a minus sign before it.
pub fn negated(n: i64) -> i64
    ensures { result ≡ negated n }
{
    if n < 0 { 0 } else { -n }
}

impl Word {
    /// The token as a word.
    pub fn of(alloc: Global, token: &Token) -> Result<Word, NoMemory>
        ensures { IfOk result (λ word. word ≡ kept token.now) }
    {
        Ok(Word {
            at: token.at,
            name: name_of(alloc, token)?,
        })
    }

    /// A word that is not there.
    pub fn none(alloc: Global) -> Result<Word, NoMemory>
        ensures { IfOk result (λ word. word ≡ no_word) }
    {
        Ok(Word {
            at: 0,
            name: Name::new(alloc, &[])?,
        })
    }
}
