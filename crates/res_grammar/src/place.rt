//! The places of tokens in a file.

ghost use Rattle.std.specs.Prelude.{◌≡◌};
ghost use Rattle.res_grammar.specs.Places.{place_of};

use res_lexer::Token;

/// The place of the first byte of the token of this number, from 0; where there are not so many, the end of the file.
pub fn place_of(tokens: &[Token], number: usize, end: u32) -> u32
    ensures { result ≡ place_of tokens.now number end }
{
    match tokens.get(number) {
        Some(token) => token.at,
        None => end,
    }
}
