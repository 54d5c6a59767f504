//! A stack of places, in room that is taken once.

ghost use Rattle.std.specs.Prelude.{◌≡◌, ◌-◌, ◌≤◌, [], ◌∷◌, length, take, drop, slice_get, IfOk};
ghost use Rattle.cert_check.specs.working.Path.{Puts};

use math_terms::NoMemory;
use std::alloc::Global;
use std::marker::Model;

/// Places one after another, and room for more. A contract sees the places that are there and how many there can be.
#[derive(Debug, Drop)]
pub(crate) struct Places {
    places: Vec<u32>,
    used: usize,
}

impl Model for Places {
    ghost use Rattle.std.specs.Prelude.{List, ℕ, take, length};

    ghost Value = { List ℕ × ℕ };

    ghost view = { λ p. (take p.used p.places.items, length p.places.items) };
}

impl Places {
    /// No places, with room for so many.
    pub(crate) fn new(alloc: Global, room: usize) -> Result<Places, NoMemory>
        ensures { IfOk result (λ p. p ≡ ([], room)) }
    {
        Ok(Places {
            places: vec![in alloc; 0; room]?,
            used: 0,
        })
    }

    /// How many places are held.
    pub(crate) fn held(&self) -> usize
        ensures count { result ≡ length self.now.0 }
        ensures within { length self.now.0 ≤ self.now.1 }
    {
        self.used.min(self.places.len())
    }

    /// One more place; none where there is no room.
    pub(crate) fn push(&mut self, place: u32) -> Option<()>
        ensures { Puts self.old self.new (place ∷ []) result }
    {
        let used = self.used;
        if used >= self.places.len() {
            return None;
        }
        self.places[used] = place;
        self.used += 1;
        Some(())
    }

    /// Only the first n places stay.
    pub(crate) fn truncate(&mut self, n: usize)
        ensures { self.new ≡ (take n self.old.0, self.old.1) }
    {
        self.used = self.used.min(n);
    }

    /// The place of this number, from 0.
    pub(crate) fn at(&self, n: usize) -> Option<u32>
        ensures { result ≡ slice_get self.now.0 n }
    {
        if n < self.used {
            self.places.get(n).copied()
        } else {
            None
        }
    }

    /// The places from number `start` on.
    pub(crate) fn from(&self, start: usize) -> &[u32]
        ensures { result.now ≡ drop start self.now.0 }
    {
        let held = self.held();
        if start <= held {
            &self.places[start..held]
        } else {
            &[]
        }
    }

    /// The places of the numbers from `from` to before `to` once more; none where there is no room.
    pub(crate) fn repeat(&mut self, from: usize, to: usize) -> Option<()>
        requires order { from ≤ to }
        requires within { to ≤ length self.old.0 }
        ensures { Puts self.old self.new (take (to - from) (drop from self.old.0)) result }
    {
        for i in from..to {
            let place = self.at(i)?;
            self.push(place)?;
        }
        Some(())
    }
}
