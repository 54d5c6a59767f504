//! Values that own terms, moved through calls, so that no caller has to drop one where something fails.

use crate::trouble::Trouble;
use math_terms::NoMemory;
use sqlite_items::{Boxed, Items};
use std::alloc::Global;

/// Puts what was made behind the others.
pub fn put<T: Drop>(items: &mut Items<T>, made: Result<T, NoMemory>) -> Result<(), Trouble> {
    match made {
        Ok(item) => Ok(items.push(item)?),
        Err(_) => Err(Trouble::NoMemory),
    }
}

/// Puts what was read behind the others.
pub fn put_read<T: Drop>(items: &mut Items<T>, read: Result<T, Trouble>) -> Result<(), Trouble> {
    match read {
        Ok(item) => Ok(items.push(item)?),
        Err(e) => Err(e),
    }
}

/// Both of two values.
pub fn both<T: Drop, U: Drop>(
    a: Result<T, Trouble>,
    b: Result<U, Trouble>,
) -> Result<(T, U), Trouble> {
    match a {
        Ok(a) => match b {
            Ok(b) => Ok((a, b)),
            Err(e) => Err(e),
        },
        Err(e) => Err(e),
    }
}

/// What was made, on the heap.
pub fn on_heap<T: Drop>(alloc: Global, made: Result<T, NoMemory>) -> Result<Boxed<T>, NoMemory> {
    match made {
        Ok(item) => Ok(Boxed::new(alloc, item)?),
        Err(e) => Err(e),
    }
}

/// The latest items, so many, the last one first. They are taken off.
pub fn take_latest<T: Drop>(
    alloc: Global,
    items: &mut Items<T>,
    count: usize,
) -> Result<Items<T>, Trouble> {
    let mut out = Items::new(alloc);
    for _ in 0..count {
        match items.pop() {
            Some(item) => out.push(item)?,
            None => return Err(Trouble::NotUnderstood),
        }
    }
    Ok(out)
}

/// The items themselves, the last one first.
pub fn unboxed<T: Drop>(alloc: Global, mut items: Items<Boxed<T>>) -> Result<Items<T>, Trouble> {
    let mut out = Items::new(alloc);
    for _ in 0..items.len() {
        match items.pop() {
            Some(item) => out.push(item.into_inner())?,
            None => return Ok(out),
        }
    }
    Ok(out)
}
