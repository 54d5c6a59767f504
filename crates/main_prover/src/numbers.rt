//! Numbers of variables and of conditions.

ghost use Rattle.std.specs.Prelude.{◌≡◌, ◌+◌, IfOk};

use math_terms::NoMemory;

/// The next number. One that 32 bits do not hold counts as want of memory.
pub(crate) fn next(n: u32) -> Result<u32, NoMemory>
    ensures { IfOk result (λ k. k ≡ n + 1) }
{
    match n.checked_add(1) {
        Some(k) => Ok(k),
        None => Err(NoMemory),
    }
}
