//! The variables that a module declares, where Main begins.

ghost use Rattle.std.specs.Prelude.{◌≡◌, IfOk, map};

use math_terms::{Name, NoMemory};
use sqlite_items::Items;
use std::alloc::Global;

/// As many numbers 0 as there are names.
pub(crate) fn zeros(alloc: Global, names: &[Name]) -> Result<Items<u32>, NoMemory>
    ensures { IfOk result (λ ns. ns ≡ map (λ n. 0) names.now) }
{
    let mut out = Items::new(alloc);
    for _name in names {
        out.push(0)?;
    }
    Ok(out)
}
