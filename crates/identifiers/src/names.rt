//! Which bytes are an identifier, and how long the identifier is that bytes begin with.

ghost use Rattle.std.specs.Prelude.{◌≡◌, ◌≤◌, length};
ghost use Rattle.identifiers.specs.Identifiers.{is_identifier, longest};

use crate::characters::{begins, continues, first_character};

/// How many bytes the longest identifier has that stands at the front, or 0 where none does.
pub fn identifier_len(bytes: &[u8]) -> usize
    ensures longest { result ≡ longest is_identifier bytes.now }
    ensures within { result ≤ length bytes.now }
{
    let Some((first, mut len)) = first_character(bytes) else {
        return 0;
    };
    if !begins(first) {
        return 0;
    }
    while let Some((next, more)) = first_character(&bytes[len..]) {
        if !continues(next) {
            break;
        }
        len += more;
    }
    len
}

/// Whether the bytes are an identifier.
pub fn is_identifier(bytes: &[u8]) -> bool
    ensures { result ≡ is_identifier bytes.now }
{
    let len = identifier_len(bytes);
    len > 0 && len == bytes.len()
}
