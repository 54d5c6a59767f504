//! Where two sorts meet.

ghost use Rattle.std.specs.Prelude.{◌≡◌, IfOk};
ghost use Rattle.math_terms.specs.Sorts.{mapped, meet, meet_all, str, tuple_option};

use crate::descriptor::Sort;
use crate::name::NoMemory;
use sqlite_items::{Boxed, Items};
use std::alloc::Global;

/// What a sort gives where it meets another, and none where the two do not meet.
#[cycle(meet)]
pub fn meet(alloc: Global, s: &Sort, t: &Sort) -> Result<Option<Sort>, NoMemory>
    ensures { IfOk result (λ o. o ≡ meet s.now t.now) }
{
    match s {
        Sort::Z => match t {
            Sort::Z | Sort::Any => Ok(Some(Sort::Z)),
            _ => Ok(None),
        },
        Sort::B => match t {
            Sort::B | Sort::Any => Ok(Some(Sort::B)),
            _ => Ok(None),
        },
        Sort::Str(entry) => match t {
            Sort::Str(other) => string_of(alloc, meet(alloc, entry.get(), other.get())?),
            Sort::Any => Ok(Some(s.copy(alloc)?)),
            _ => Ok(None),
        },
        Sort::Tup(parts) => match t {
            Sort::Tup(others) => {
                Ok(product_of(meet_all(alloc, parts.as_slice(), others.as_slice())?))
            }
            Sort::Any => Ok(Some(s.copy(alloc)?)),
            _ => Ok(None),
        },
        Sort::Param(j) => match t {
            Sort::Param(k) => Ok(if j == k { Some(Sort::Param(*j)) } else { None }),
            Sort::Any => Ok(Some(Sort::Param(*j))),
            _ => Ok(None),
        },
        Sort::Any => Ok(Some(t.copy(alloc)?)),
    }
}

/// What each sort gives where it meets the one at its place, and none where some do not meet or there are not as many.
#[cycle(meet)]
fn meet_all(alloc: Global, parts: &[Sort], others: &[Sort]) -> Result<Option<Items<Sort>>, NoMemory>
    ensures { IfOk result (λ o. o ≡ meet_all parts.now others.now) }
{
    if parts.len() != others.len() {
        return Ok(None);
    }
    let mut out = Items::new(alloc);
    for (s, t) in parts.iter().zip(others) {
        match meet(alloc, s, t)? {
            Some(met) => out.push(met)?,
            None => return Ok(None),
        }
    }
    Ok(Some(out))
}

/// The string that holds what has the sort.
pub(crate) fn string_of(alloc: Global, s: Option<Sort>) -> Result<Option<Sort>, NoMemory>
    ensures { IfOk result (λ o. o ≡ mapped str s) }
{
    match s {
        Some(s) => Ok(Some(Sort::Str(Boxed::new(alloc, s)?))),
        None => Ok(None),
    }
}

/// The product of the sorts.
fn product_of(ss: Option<Items<Sort>>) -> Option<Sort>
    ensures { result ≡ tuple_option ss }
{
    match ss {
        Some(ss) => Some(Sort::Tup(ss)),
        None => None,
    }
}
