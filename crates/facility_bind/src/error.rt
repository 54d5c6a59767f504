//! Why the arguments of a declaration are refused.

ghost use Rattle.std.specs.Prelude.{◌≡◌};

use math_terms::NoMemory;
use std::alloc::AllocError;

/// `ArgCount`: the declaration at that place has another number of arguments than its concept has formals. `ArgKind`: the argument
/// at that place is the first of another kind than its formal, a number for a type or a type for a number.
#[derive(Clone, Copy, Debug, PartialEq, Eq)]
pub enum ArgError {
    ArgCount { at: u32 },
    ArgKind { at: u32 },
    NoMemory,
}

impl From<NoMemory> for ArgError {
    ghost use Rattle.facility_bind.specs.declared.error.ArgError.TheVariants.{NoMemory};

    ghost from_gives = { λ _ e. e ≡ NoMemory };

    fn from(_error: NoMemory) -> ArgError {
        ArgError::NoMemory
    }
}

impl From<AllocError> for ArgError {
    ghost use Rattle.facility_bind.specs.declared.error.ArgError.TheVariants.{NoMemory};

    ghost from_gives = { λ _ e. e ≡ NoMemory };

    fn from(_error: AllocError) -> ArgError {
        ArgError::NoMemory
    }
}
