//! The class of a token.

ghost use Rattle.std.specs.Prelude.{◌≡◌, ◌<◌, ◌≤◌, length, map, IfOk, option_copied};
ghost use Rattle.res_grammar.specs.Classes.{class_among, class_of, class_of_symbol, class_of_word, classes_of, remembered, same_word, word_of};
ghost use Rattle.res_grammar.specs.Numbers.{first_word};

use crate::classes::{FIRST_SYMBOL, FIRST_WORD, ID, LITERAL, NONE, RESERVED, SYMBOLS};
use res_lexer::{Token, TokenKind};
use std::alloc::{AllocError, Global};

pub fn same_word(a: &[u8], b: &[u8]) -> bool
    ensures { result ≡ same_word a.now b.now }
{
    a == b
}

// The class of a word among these, which have their classes in their order.
fn class_among(words: &[&[u8]], word: &[u8]) -> u8
    requires { length words.now ≤ 100 }
    ensures { result ≡ class_among first_word (map (λ w. w.now) words.now) word.now }
{
    let mut class = FIRST_WORD;
    for reserved in words {
        if same_word(reserved, word) {
            return class;
        }
        class += 1;
    }
    ID
}

/// The class of a word: its own if it is reserved, else that of identifiers.
#[tactic(auto, unfolding(crate::specs::Classes::class_of_word))]
pub fn class_of_word(word: &[u8]) -> u8
    ensures { result ≡ class_of_word word.now }
{
    class_among(&RESERVED, word)
}

fn class_of_symbol(number: u8) -> u8
    ensures { result ≡ class_of_symbol number }
{
    if 1 <= number && number <= SYMBOLS {
        FIRST_SYMBOL + (number - 1)
    } else {
        NONE
    }
}

/// The class of a token of this kind.
pub fn class_of(kind: &TokenKind) -> u8
    ensures { result ≡ class_of kind.now }
{
    match kind {
        TokenKind::Word(word) => class_of_word(word.bytes()),
        TokenKind::Literal(_) => LITERAL,
        TokenKind::Symbol(number) => class_of_symbol(*number),
    }
}

/// The classes of the tokens.
pub fn classes_of(alloc: Global, tokens: &[Token]) -> Result<Vec<u8>, AllocError>
    ensures { IfOk result (λ v. v.items ≡ classes_of tokens.now) }
{
    tokens
        .iter()
        .map(|token| class_of(&token.kind))
        .collect(alloc)
}

/// The last identifier, where after it comes a token of this class and of these bytes.
pub fn remember<'a>(class: u8, word: &'a [u8], last: Option<&'a [u8]>) -> Option<&'a [u8]>
    ensures { option_copied result ≡ remembered class word.now (option_copied last.entry) }
{
    if class == ID { Some(word) } else { last }
}

/// The bytes of a word, and none of any other token.
pub fn word_of(kind: &TokenKind) -> &[u8]
    ensures { result.now ≡ word_of kind.now }
{
    match kind {
        TokenKind::Word(word) => word.bytes(),
        TokenKind::Literal(_) | TokenKind::Symbol(_) => b"",
    }
}
