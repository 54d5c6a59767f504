//! Why a clause is refused.

ghost use Rattle.std.specs.Prelude.{◌≡◌};

use math_terms::NoMemory;
use std::alloc::AllocError;

/// `Sort`: the node at that place is the first, clauses in the order of the text and each in post-order, that has no sort or is a
/// name that may not stand there; or it is the root of a clause of another sort than its place asks for.
#[derive(Clone, Copy, Debug, PartialEq, Eq)]
pub enum SortError {
    Sort { at: u32 },
    NoMemory,
}

impl From<NoMemory> for SortError {
    ghost use Rattle.math_types.specs.declared.error.SortError.TheVariants.{NoMemory};

    ghost from_gives = { λ _ e. e ≡ NoMemory };

    fn from(_error: NoMemory) -> SortError {
        SortError::NoMemory
    }
}

impl From<AllocError> for SortError {
    ghost use Rattle.math_types.specs.declared.error.SortError.TheVariants.{NoMemory};

    ghost from_gives = { λ _ e. e ≡ NoMemory };

    fn from(_error: AllocError) -> SortError {
        SortError::NoMemory
    }
}
