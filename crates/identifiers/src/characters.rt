//! The character that bytes begin with, and what it does in an identifier.

ghost use Rattle.std.specs.Prelude.{◌≡◌, ◌<◌, ◌≤◌, ◌++◌, ℕ, List, take, length, MatchOption, [], IsUtf8, encode_utf8};
ghost use Rattle.std.specs.Char.{IsScalar};
ghost use Rattle.identifiers.specs.Identifiers.{begins_identifier};
ghost use Rattle.unicode_ident.specs.Ident.{is_xid_continue};

use unicode_ident::{is_xid_continue, is_xid_start};

/// Whether an identifier may begin with the character.
pub fn begins(character: char) -> bool
    ensures { result ≡ begins_identifier character }
{
    is_xid_start(character) || character == '_'
}

/// Whether an identifier may go on with the character.
pub fn continues(character: char) -> bool
    ensures { result ≡ is_xid_continue character }
{
    is_xid_continue(character)
}

// The character at the front of well-formed text.
fn first_of_text(bytes: &[u8]) -> Option<char>
    ensures { MatchOption result (IsUtf8 bytes.now → bytes.now ≡ []) (λ c. IsScalar c × ((rest : List ℕ) × (bytes.now ≡ encode_utf8 c ++ rest))) }
{
    match str::from_utf8(bytes) {
        Ok(text) => text.chars().next(),
        Err(_) => None,
    }
}

/// The character at the front and the number of its bytes, or `None` where no well-formed character stands there.
pub fn first_character(bytes: &[u8]) -> Option<(char, usize)>
    ensures { MatchOption result ((c : ℕ) (rest : List ℕ) → IsScalar c → bytes.now ≡ encode_utf8 c ++ rest → ⊥) (λ found. IsScalar found.0 × (take found.1 bytes.now ≡ encode_utf8 found.0) × (0 < found.1) × (found.1 ≤ length bytes.now)) }
{
    for len in 1..=bytes.len().min(4) {
        if let Some(character) = first_of_text(&bytes[..len]) {
            return Some((character, len));
        }
    }
    None
}
