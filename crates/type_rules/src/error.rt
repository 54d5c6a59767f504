//! How a component breaks a rule of types and modes.

ghost use Rattle.std.specs.Prelude.{◌≡◌};

use math_terms::{Name, NoMemory};

/// A breach, with its place. A type, result, operator, heading or representation does not fit, or a name is not known or not
/// new; a mode is not kept; places overlap in one call or swap; a loop changes a variable that it does not list; an operation
/// is called that may not be; a stream stands where none may; Main has another heading; a procedure or a representation is
/// missing.
#[derive(Debug, Drop)]
pub enum ModeError {
    OfType { at: u32 },
    Mode { at: u32 },
    Repeated { at: u32 },
    Changing { at: u32, name: Name },
    Order { at: u32 },
    Stream { at: u32 },
    MainHeading { at: u32 },
    Missing { at: u32, name: Name },
    NoMemory,
}

impl From<NoMemory> for ModeError {
    ghost use Rattle.type_rules.specs.declared.error.ModeError.TheVariants.{NoMemory};

    ghost from_gives = { λ _ e. e ≡ NoMemory };

    fn from(_error: NoMemory) -> ModeError {
        ModeError::NoMemory
    }
}
