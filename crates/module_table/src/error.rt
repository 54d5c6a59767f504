//! Why a name is refused.

ghost use Rattle.std.specs.Prelude.{◌≡◌};

use math_terms::{Name, NoMemory};
use std::alloc::AllocError;

/// Why a component is not taken into a table, or does not stand on it: another has its name, or the component that it names is
/// not held, or is of another kind. `at` is the first word of the declaration with that name, or else of the component.
#[derive(Debug, Drop)]
pub enum NameError {
    Duplicate { name: Name },
    Unknown { name: Name, at: u32 },
    WrongKind { name: Name, at: u32 },
    NoMemory,
}

impl From<NoMemory> for NameError {
    ghost use Rattle.module_table.specs.declared.error.NameError.TheVariants.{NoMemory};

    ghost from_gives = { λ _ e. e ≡ NoMemory };

    fn from(_error: NoMemory) -> NameError {
        NameError::NoMemory
    }
}

impl From<AllocError> for NameError {
    ghost use Rattle.module_table.specs.declared.error.NameError.TheVariants.{NoMemory};

    ghost from_gives = { λ _ e. e ≡ NoMemory };

    fn from(_error: AllocError) -> NameError {
        NameError::NoMemory
    }
}
