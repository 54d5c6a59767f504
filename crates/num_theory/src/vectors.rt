//! Vectors that grow, with want of memory as the only error.

ghost use Rattle.std.specs.Prelude.{◌≡◌, ◌≤◌, ◌++◌, [], ◌∷◌, OnOk, insert, vec_len};

use math_terms::NoMemory;

/// Puts an item last.
pub(crate) fn push<T: Drop>(items: &mut Vec<T>, item: T) -> Result<(), NoMemory>
    ensures { OnOk result (items.new.items ≡ items.old.items ++ item ∷ []) }
{
    match items.push(item) {
        Ok(()) => Ok(()),
        Err(_) => Err(NoMemory),
    }
}

/// Puts an item at a place, and those from there on after it.
pub(crate) fn insert<T: Drop>(items: &mut Vec<T>, at: usize, item: T) -> Result<(), NoMemory>
    requires { at ≤ vec_len items.old }
    ensures { OnOk result (items.new.items ≡ insert items.old.items at item) }
{
    match items.insert(at, item) {
        Ok(()) => Ok(()),
        Err(_) => Err(NoMemory),
    }
}
