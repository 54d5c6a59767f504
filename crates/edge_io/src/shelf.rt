//! Files by name.

ghost use Rattle.std.specs.Prelude.{◌≡◌, ◌<◌, ◌≤◌, ◌^◌, length, IsErrOf, IsTrue, OnOk, Some};
ghost use Rattle.edge_io.specs.Faults.{Rose};

use crate::source::Failed;
use std::alloc::{AllocError, AllocFailed};
use thiserror::Error;

/// The most bytes of a file.
pub const LONGEST_FILE: usize = 16_777_216;

/// Why a shelf refused a call.
#[derive(Clone, Copy, Debug, PartialEq, Eq, Error)]
pub enum ShelfError {
    #[error("there is no such file")]
    NotFound,
    #[error("the file is too long")]
    TooLong,
    #[error("the call failed")]
    Failed,
    #[error("out of memory")]
    NoMemory,
}

impl From<AllocError> for ShelfError {
    ghost use Rattle.std.specs.Prelude.{◌≡◌};
    ghost use Rattle.edge_io.specs.declared.shelf.ShelfError.TheVariants.{NoMemory};

    ghost from_gives = { λ _ e. e ≡ NoMemory };

    fn from(_refused: AllocError) -> ShelfError {
        ShelfError::NoMemory
    }
}

impl<T: Drop> From<AllocFailed<T>> for ShelfError {
    ghost use Rattle.std.specs.Prelude.{◌≡◌};
    ghost use Rattle.edge_io.specs.declared.shelf.ShelfError.TheVariants.{NoMemory};

    ghost from_gives = { λ _ e. e ≡ NoMemory };

    fn from(_refused: AllocFailed<T>) -> ShelfError {
        ShelfError::NoMemory
    }
}

impl From<Failed> for ShelfError {
    ghost use Rattle.std.specs.Prelude.{◌≡◌};
    ghost use Rattle.edge_io.specs.declared.shelf.ShelfError.TheVariants.{Failed};

    ghost from_gives = { λ _ e. e ≡ Failed };

    fn from(_failed: Failed) -> ShelfError {
        ShelfError::Failed
    }
}

/// Files by name. A name is a path; a file has at most 16,777,216 bytes.
pub trait Shelf {
    ghost use Rattle.std.specs.Prelude.{ℕ, Bool};
    ghost use Rattle.edge_io.specs.Files.{Files, LeavesFew, ReadAnswers, SameFiles, SameOthers, WriteAnswers};

    /// How many of its calls have failed.
    ghost faults: { Self → ℕ };

    /// Whether it tells its files.
    ghost tells: { Self → Bool };

    /// Its files, which are known where it tells.
    ghost files: { Self → Files };

    /// Leaves the bytes of a file in `into`, and nothing there where it is refused.
    fn read(&mut self, name: &str, into: &mut Vec<u8>) -> Result<(), ShelfError>
        ensures answer { IsTrue (tells self.old) → ReadAnswers (files self.old name.now) result into.new.items }
        ensures few { LeavesFew result into.new.items }
        ensures same { IsTrue (tells self.old) → SameFiles (files self.old) (files self.new) }
        ensures tells_on { tells self.new ≡ tells self.old }
        ensures never_falls { faults self.old ≤ faults self.new }
        ensures fits { faults self.new < 2 ^ 64 }
        ensures failed { IsErrOf result ShelfError.Failed → Rose (faults self.old) (faults self.new) };

    /// Makes these bytes the file of that name. After a refusal the file of that name is unknown.
    fn write(&mut self, name: &str, bytes: &[u8]) -> Result<(), ShelfError>
        ensures answer { WriteAnswers result (length bytes.now) }
        ensures written { OnOk result (IsTrue (tells self.old) → files self.new name.now ≡ Some bytes.now) }
        ensures others { IsTrue (tells self.old) → SameOthers name.now (files self.old) (files self.new) }
        ensures tells_on { tells self.new ≡ tells self.old }
        ensures never_falls { faults self.old ≤ faults self.new }
        ensures fits { faults self.new < 2 ^ 64 }
        ensures failed { IsErrOf result ShelfError.Failed → Rose (faults self.old) (faults self.new) };
}
