//! What holds of tokens and refusals of every text.

ghost use Rattle.std.specs.Prelude.{◌≡◌, ℕ, List};
ghost use Rattle.res_lexer.specs.declared.token.LexError.{LexError};
ghost use Rattle.res_lexer.specs.declared.token.Token.{Token};
ghost use Rattle.res_lexer.specs.Spaced.{AreApart, Row, placed_from, spaced};
ghost use Rattle.res_lexer.specs.Tokens.{AreTokens, Lie, Refuses};

use identifiers::identifier_laws;

/// A text has at most one list of tokens. The call does nothing.
pub fn one_reading()
    ensures { (bytes : List ℕ) (ts us : List Token) → AreTokens bytes ts → AreTokens bytes us → ts ≡ us }
{}

/// A text that has tokens is not refused. The call does nothing.
pub fn read_or_refused()
    ensures { (bytes : List ℕ) (ts : List Token) (e : LexError) → AreTokens bytes ts → Refuses bytes e → ⊥ }
{}

/// A text is refused for at most one cause, at one place. The call does nothing.
pub fn one_refusal()
    ensures { (bytes : List ℕ) (e f : LexError) → Refuses bytes e → Refuses bytes f → e ≡ f }
{}

/// Tokens follow each other inside the text, and each is what its own bytes mean. The call does nothing.
pub fn tokens_lie()
    ensures { (bytes : List ℕ) (ts : List Token) → AreTokens bytes ts → Lie bytes 0 ts }
{
    identifier_laws();
}

/// Tokens that are written with blanks between them are read again, at the places where they were written. The call does nothing.
pub fn reads_back()
    ensures { (row : Row) → AreApart row → AreTokens (spaced row) (placed_from 0 row) }
{
    identifier_laws();
}
