//! Why a case has no answer.

use math_terms::NoMemory;
use std::alloc::AllocError;

/// Memory has run out, or the words are none that make a case.
#[derive(Clone, Copy)]
pub enum Trouble {
    NoMemory,
    NotUnderstood,
}

impl From<NoMemory> for Trouble {
    fn from(_error: NoMemory) -> Trouble {
        Trouble::NoMemory
    }
}

impl From<AllocError> for Trouble {
    fn from(_error: AllocError) -> Trouble {
        Trouble::NoMemory
    }
}

/// Puts an item behind the others.
pub fn push<T: Drop>(items: &mut Vec<T>, item: T) -> Result<(), Trouble> {
    match items.push(item) {
        Ok(()) => Ok(()),
        Err(_) => Err(Trouble::NoMemory),
    }
}
