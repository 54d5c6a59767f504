//! Items put on a stack, and lists that are opened on one.

ghost use Rattle.std.specs.Prelude.{◌≡◌, ◌∷◌, [], OnOk};

use ll_grammar::Stack;
use math_terms::NoMemory;
use sqlite_items::Items;
use std::alloc::Global;

/// Puts an item on top.
pub fn put<T: Drop>(stack: &mut Stack<T>, item: T) -> Result<(), NoMemory>
    ensures { OnOk result (stack.new ≡ item ∷ stack.old) }
{
    stack.push(item)?;
    Ok(())
}

/// Puts an empty list on top.
pub fn open<T: Drop>(alloc: Global, lists: &mut Stack<Items<T>>) -> Result<(), NoMemory>
    ensures { OnOk result (lists.new ≡ [] ∷ lists.old) }
{
    lists.push(Items::new(alloc))?;
    Ok(())
}
