//! The reader of a text's tokens, from its front to its end.

ghost use Rattle.std.specs.Prelude.{◌≡◌, ℕ, ◌^◌, ◌<◌, ◌⊎◌, List, length, IfOk, IfErr, MatchResult};
ghost use Rattle.res_lexer.specs.declared.token.LexError.{LexError};
ghost use Rattle.res_lexer.specs.declared.token.Token.{Token};
ghost use Rattle.res_lexer.specs.Tokens.{AreTokens, Refuses, RefusesOrNoMemory};

use crate::pieces::{Piece, piece_at};
use crate::token::{LexError, Token};
use identifiers::identifier_laws;
use std::alloc::Global;

fn read(alloc: Global, bytes: &[u8]) -> Result<Vec<Token>, LexError>
    requires { length bytes.now < 2 ^ 32 }
    ensures found { IfOk result (λ ts. AreTokens bytes.now ts.items) }
    ensures refused { IfErr result (λ e. RefusesOrNoMemory bytes.now e) }
{
    identifier_laws();
    let mut tokens = Vec::new(alloc);
    let mut at = 0;
    while at < bytes.len() {
        match piece_at(alloc, at as u32, &bytes[at..])? {
            Piece::Gap(len) => at += len,
            Piece::Token(token) => {
                at += token.len as usize;
                tokens.push(token).map_err(|_| LexError::NoMemory)?;
            }
        }
    }
    Ok(tokens)
}

/// The tokens of a text in order, or why the first place without a piece has none: `BadByte` where no token begins, or
/// where a comment is no UTF-8, `OpenComment` at a `(*` without its `*)`, `LongName` where a word of over 64 bytes stands,
/// and `BigLiteral` where a literal of over 1,000,000,000 does.
pub fn tokens(alloc: Global, bytes: &[u8]) -> Result<Vec<Token>, LexError>
    requires { length bytes.now < 2 ^ 32 }
    ensures found { IfOk result (λ ts. AreTokens bytes.now ts.items) }
    ensures refused { IfErr result (λ e. RefusesOrNoMemory bytes.now e) }

    // A text that has tokens is read, and one that is refused answers its cause, but for want of memory.
    ensures only { (ts : List Token) → AreTokens bytes.now ts → MatchResult result (λ v. v.items ≡ ts) (λ e. e ≡ LexError.NoMemory) }
    ensures refused_only { (e : LexError) → Refuses bytes.now e → MatchResult result (λ _. ⊥) (λ f. (f ≡ e) ⊎ (f ≡ LexError.NoMemory)) }
{
    read(alloc, bytes)
}
