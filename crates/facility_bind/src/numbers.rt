//! Numbers of formals and variables. One that does not fit its type is taken for want of memory.

ghost use Rattle.std.specs.Prelude.{◌≡◌, ◌+◌, IfOk};

use math_terms::NoMemory;

/// The number of this length.
pub(crate) fn number(n: usize) -> Result<u32, NoMemory>
    ensures { IfOk result (λ k. k ≡ n) }
{
    match u32::try_from(n) {
        Ok(k) => Ok(k),
        Err(_) => Err(NoMemory),
    }
}

/// The sum of two numbers.
pub(crate) fn sum(a: u32, b: u32) -> Result<u32, NoMemory>
    ensures { IfOk result (λ k. k ≡ a + b) }
{
    match a.checked_add(b) {
        Some(k) => Ok(k),
        None => Err(NoMemory),
    }
}
