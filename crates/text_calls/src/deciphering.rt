//! The bytes that a case's text stands for.

use crate::trouble::{Trouble, push};
use std::alloc::Global;

// What has been read of `\n` or `\xHH`: nothing, the `\`, the `x` too, or the first digit too.
#[derive(Clone, Copy, Debug, PartialEq, Eq)]
enum Begun {
    Nothing,
    Mark,
    Number,
    Digit(u8),
}

fn digit(byte: u8) -> Result<u8, Trouble> {
    match byte {
        b'0'..=b'9' => Ok(byte - b'0'),
        b'A'..=b'F' => Ok(byte - b'A' + 10),
        _ => Err(Trouble::NotUnderstood),
    }
}

// What is begun after a byte, and the byte that is complete with it.
fn next(begun: Begun, byte: u8) -> Result<(Begun, Option<u8>), Trouble> {
    match begun {
        Begun::Nothing if byte == b'\\' => Ok((Begun::Mark, None)),
        Begun::Nothing => Ok((Begun::Nothing, Some(byte))),
        Begun::Mark if byte == b'n' => Ok((Begun::Nothing, Some(b'\n'))),
        Begun::Mark if byte == b'r' => Ok((Begun::Nothing, Some(b'\r'))),
        Begun::Mark if byte == b'x' => Ok((Begun::Number, None)),
        Begun::Mark => Err(Trouble::NotUnderstood),
        Begun::Number => Ok((Begun::Digit(digit(byte)?), None)),
        Begun::Digit(high) => {
            let value = high.wrapping_mul(16).wrapping_add(digit(byte)?);
            Ok((Begun::Nothing, Some(value)))
        }
    }
}

/// The bytes of a text, in which `\n`, `\r` and `\xHH` stand for one byte each.
pub fn deciphered(alloc: Global, text: &str) -> Result<Vec<u8>, Trouble> {
    let mut bytes = Vec::new(alloc);
    let mut begun = Begun::Nothing;
    for byte in text.as_bytes() {
        let (after, complete) = next(begun, *byte)?;
        begun = after;
        if let Some(value) = complete {
            push(&mut bytes, value)?;
        }
    }
    Ok(bytes)
}
