//! Positions inside terms.

ghost use Rattle.std.specs.Prelude.{◌≡◌, IfOk};

use crate::name::NoMemory;
use smallvec::SmallVec;
use std::alloc::Global;
use std::marker::Model;

/// A position in a term: the numbers of children from the root on, each counted from 1. The position without numbers is the root.
#[derive(Debug, Drop)]
pub struct Position {
    places: SmallVec<u32, 16>,
}

impl Model for Position {
    ghost use Rattle.std.specs.Prelude.{List, ℕ};

    ghost Value = { List ℕ };

    ghost view = { λ p. p.places.items };
}

impl From<SmallVec<u32, 16>> for Position {
    ghost use Rattle.std.specs.Prelude.{◌≡◌};

    ghost from_gives = { λ places p. p ≡ places.items };

    fn from(places: SmallVec<u32, 16>) -> Position {
        Position { places }
    }
}

impl Position {
    /// The position with these numbers.
    pub fn new(alloc: Global, places: &[u32]) -> Result<Position, NoMemory>
        ensures { IfOk result (λ p. p ≡ places.now) }
    {
        match SmallVec::from_slice(alloc, places) {
            Ok(places) => Ok(Position { places }),
            Err(_) => Err(NoMemory),
        }
    }

    /// The position's numbers. This takes no memory.
    pub fn places(&self) -> &SmallVec<u32, 16>
        ensures { result.now.items ≡ self.now }
    {
        &self.places
    }

    /// A second position with the same numbers.
    pub fn copy(&self, alloc: Global) -> Result<Position, NoMemory>
        ensures { IfOk result (λ p. p ≡ self.now) }
    {
        Position::new(alloc, self.places.as_slice())
    }
}
