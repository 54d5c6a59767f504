//! Copies, which may fail for want of memory, of names, pairs, lists and what may be missing.

ghost use Rattle.std.specs.Prelude.{◌≡◌, IfOk};

use math_terms::{Name, NoMemory, both};
use sqlite_items::Items;
use std::alloc::Global;

/// What can be copied while memory lasts.
pub trait TryCopy: Drop {
    /// A second value, equal to the first.
    fn copy(&self, alloc: Global) -> Result<Self, NoMemory>
        ensures { IfOk result (λ t. t ≡ self.now) };
}

impl TryCopy for Name {
    fn copy(&self, alloc: Global) -> Result<Name, NoMemory> {
        Name::new(alloc, self.bytes())
    }
}

impl<T: TryCopy, U: TryCopy> TryCopy for (T, U) {
    fn copy(&self, alloc: Global) -> Result<(T, U), NoMemory> {
        both(self.0.copy(alloc), self.1.copy(alloc))
    }
}

/// The items of a slice once more, in their order.
pub fn copy_items<T: TryCopy>(alloc: Global, items: &[T]) -> Result<Items<T>, NoMemory>
    ensures { IfOk result (λ it. it ≡ items.now) }
{
    let mut out = Items::new(alloc);
    for item in items {
        out.push(item.copy(alloc)?)?;
    }
    Ok(out)
}

/// What may be missing, once more.
pub fn copy_option<T: TryCopy>(alloc: Global, item: &Option<T>) -> Result<Option<T>, NoMemory>
    ensures { IfOk result (λ it. it ≡ item.now) }
{
    match item {
        Some(item) => Ok(Some(item.copy(alloc)?)),
        None => Ok(None),
    }
}
