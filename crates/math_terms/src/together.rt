//! Values of which some needed memory, taken together: so a function that makes several has one place at which it can
//! end for want of memory, and is proved fast.

ghost use Rattle.std.specs.Prelude.{◌≡◌, IfOk, Ok};

use crate::name::NoMemory;

/// Both values, where memory sufficed for both.
pub fn both<T: Drop, U: Drop>(
    a: Result<T, NoMemory>,
    b: Result<U, NoMemory>,
) -> Result<(T, U), NoMemory>
    ensures { IfOk result (λ p. (a ≡ Ok p.0) × (b ≡ Ok p.1)) }
{
    match a {
        Ok(a) => match b {
            Ok(b) => Ok((a, b)),
            Err(e) => Err(e),
        },
        Err(e) => Err(e),
    }
}

/// The first value and the second, where memory sufficed for the first.
pub fn with<T: Drop, U: Drop>(a: Result<T, NoMemory>, b: U) -> Result<(T, U), NoMemory>
    ensures { IfOk result (λ p. (a ≡ Ok p.0) × (p.1 ≡ b)) }
{
    match a {
        Ok(a) => Ok((a, b)),
        Err(e) => Err(e),
    }
}
