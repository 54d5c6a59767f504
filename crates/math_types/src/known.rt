//! Names that a clause knows.

ghost use Rattle.std.specs.Prelude.{◌≡◌, IfOk};
ghost use Rattle.std.specs.List.{find};
ghost use Rattle.std.specs.Option.{option_copied};
ghost use Rattle.std.specs.Str.{bytes_eq};
ghost use Rattle.math_types.specs.Names as spec;

use math_terms::{Name, NoMemory, Sort};
use sqlite_items::Items;
use std::alloc::Global;

/// A name that a clause knows. `x` and `x.p` may stand where `current`, and `#x` and `#x.p` where `old`; `x` and `#x` by
/// themselves only where `whole`. The parts stand with their sorts.
#[derive(Drop)]
pub struct Known {
    pub name: Name,
    pub whole: bool,
    pub current: bool,
    pub old: bool,
    pub sort: Sort,
    pub parts: Items<(Name, Sort)>,
}

/// The sort of `x`, or of `#x` where it is `old`; none where it may not stand.
pub(crate) fn word(
    alloc: Global,
    known: &[Known],
    old: bool,
    name: &Name,
) -> Result<Option<Sort>, NoMemory>
    ensures { IfOk result (λ o. o ≡ spec.word known.now old name.now) }
{
    match entry(known, name) {
        Some(own) => own.whole_sort(alloc, old),
        None => Ok(None),
    }
}

/// The sort of `x.p`, or of `#x.p` where it is `old`; none where it may not stand.
pub(crate) fn dotted(
    alloc: Global,
    known: &[Known],
    old: bool,
    name: &Name,
    part: &Name,
) -> Result<Option<Sort>, NoMemory>
    ensures { IfOk result (λ o. o ≡ spec.dotted known.now old name.now part.now) }
{
    match entry(known, name) {
        Some(own) => own.part_sort(alloc, old, part),
        None => Ok(None),
    }
}

impl Known {
    fn may_stand(&self, old: bool) -> bool
        ensures { result ≡ spec.may_stand old self.now }
    {
        if old { self.old } else { self.current }
    }

    fn whole_sort(&self, alloc: Global, old: bool) -> Result<Option<Sort>, NoMemory>
        ensures { IfOk result (λ o. o ≡ spec.whole old self.now) }
    {
        if self.may_stand(old) && self.whole {
            Ok(Some(self.sort.copy(alloc)?))
        } else {
            Ok(None)
        }
    }

    fn part_sort(&self, alloc: Global, old: bool, part: &Name) -> Result<Option<Sort>, NoMemory>
        ensures { IfOk result (λ o. o ≡ spec.part old part.now self.now) }
    {
        if self.may_stand(old) {
            sort_in(alloc, self.parts.as_slice(), part)
        } else {
            Ok(None)
        }
    }
}

fn sort_in(alloc: Global, parts: &[(Name, Sort)], part: &Name) -> Result<Option<Sort>, NoMemory>
    ensures { IfOk result (λ o. o ≡ spec.part_in parts.now part.now) }
{
    match find_part(parts, part) {
        Some(own) => Ok(Some(own.1.copy(alloc)?)),
        None => Ok(None),
    }
}

fn find_part<'p>(parts: &'p [(Name, Sort)], name: &Name) -> Option<&'p (Name, Sort)>
    ensures { option_copied result ≡ find (λ q. bytes_eq q.0 name.now) parts.now }
{
    for part in parts {
        if part.0.same(name) {
            return Some(part);
        }
    }
    None
}

/// The first entry of a name.
fn entry<'k>(known: &'k [Known], name: &Name) -> Option<&'k Known>
    ensures { option_copied result ≡ spec.entry known.now name.now }
{
    for own in known {
        if own.name.same(name) {
            return Some(own);
        }
    }
    None
}
