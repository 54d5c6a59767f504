//! Why a text is refused.

use math_terms::NoMemory;
use std::alloc::AllocError;

/// Where a text is refused, in bytes from its beginning, and why. Where memory has run out the place is 0.
#[derive(Clone, Copy, Debug, PartialEq, Eq)]
pub struct SyntaxError {
    pub at: u32,
    pub kind: SyntaxKind,
}

/// Why a text is refused: no text goes on with the token, its nodes are over 200 deep, or it is not the name that an `end`
/// closes.
#[derive(Clone, Copy, Debug, PartialEq, Eq)]
pub enum SyntaxKind {
    Expected,
    TooDeep,
    EndName,
    NoMemory,
}

impl From<NoMemory> for SyntaxError {
    ghost use Rattle.std.specs.Prelude.{◌≡◌};
    ghost use Rattle.expr_parser.specs.Built.{no_memory};

    ghost from_gives = { λ _ e. e ≡ no_memory };

    fn from(_error: NoMemory) -> SyntaxError {
        SyntaxError {
            at: 0,
            kind: SyntaxKind::NoMemory,
        }
    }
}

impl From<AllocError> for SyntaxError {
    ghost use Rattle.std.specs.Prelude.{◌≡◌};
    ghost use Rattle.expr_parser.specs.Built.{no_memory};

    ghost from_gives = { λ _ e. e ≡ no_memory };

    fn from(_error: AllocError) -> SyntaxError {
        SyntaxError {
            at: 0,
            kind: SyntaxKind::NoMemory,
        }
    }
}
