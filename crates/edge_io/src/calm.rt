//! Sources, sinks and shelves in memory that never fail.

ghost use Rattle.std.specs.Prelude.{◌≡◌, ◌≤◌, ◌+◌, [], Some, IfOk, IsErrOf, IsFalse, IsOk, OnErr, OnOk, drop, length, true};
ghost use Rattle.edge_io.specs.Files.{LeavesFew, ReadAnswers, SameOthers, WriteAnswers};
ghost use Rattle.edge_io.specs.Held.{Grew, Took};
ghost use Rattle.edge_io.specs.Memory.{files_of, told};

use crate::left::read_from;
use crate::listed::Listed;
use crate::pairs;
use crate::pairs::NamedFile;
use crate::shelf::{Shelf, ShelfError};
use crate::sink::Sink;
use crate::source::{Failed, Source};
use std::alloc::Global;

/// Bytes that are read from a place on, counted from 0. With `place` past the end nothing is left.
#[derive(Debug, Drop)]
pub struct CalmSource {
    pub bytes: Listed<u8>,
    pub place: usize,
}

/// The bytes that were written. It tells nothing once its growth was refused.
#[derive(Debug, Drop)]
pub struct CalmSink {
    pub held: Listed<u8>,
    pub tells: bool,
}

/// Names and bytes of files. Of two files of one name the first one counts.
#[derive(Debug, Drop)]
pub struct CalmShelf {
    pub files: Listed<NamedFile>,
}

impl CalmSource {
    pub fn new(bytes: Vec<u8>) -> Self
        ensures bytes { result.bytes ≡ bytes.items }
        ensures place { result.place ≡ 0 }
    {
        CalmSource {
            bytes: Listed::from_vec(bytes),
            place: 0,
        }
    }
}

impl Source for CalmSource {
    ghost use Rattle.std.specs.Prelude.{Some, drop};

    ghost faults = { λ _. 0 };

    ghost left = { λ source. Some (drop source.place source.bytes) };

    fn read(&mut self, buf: &mut [u8]) -> Result<usize, Failed>
        ensures calm { IsOk result }
        ensures within { IfOk result (λ n. n ≤ length buf.old) }
        ensures taken { IfOk result (λ n. Took (Some (drop self.old.place self.old.bytes)) (Some (drop self.new.place self.new.bytes)) buf.new n) }
        ensures moved { IfOk result (λ n. self.new.place ≡ self.old.place + n) }
        ensures bytes { self.new.bytes ≡ self.old.bytes }
    {
        Ok(read_from(self.bytes.as_slice(), &mut self.place, buf))
    }
}

impl CalmSink {
    pub fn new(alloc: Global) -> Self
        ensures held { result.held ≡ [] }
        ensures tells { result.tells ≡ true }
    {
        CalmSink {
            held: Listed::new(alloc),
            tells: true,
        }
    }
}

impl Sink for CalmSink {
    ghost use Rattle.edge_io.specs.Memory.{told};

    ghost faults = { λ _. 0 };

    ghost held = { λ sink. told sink.tells sink.held };

    fn write(&mut self, bytes: &[u8]) -> Result<usize, Failed>
        ensures whole { result ≡ Ok (length bytes.now) }
        ensures appended { Grew (told self.old.tells self.old.held) (told self.new.tells self.new.held) bytes.now }
        ensures refused { IsFalse self.new.tells → self.new.held ≡ self.old.held }
    {
        if self.tells {
            self.tells = self.held.extend_from_slice(bytes).is_ok();
        }
        Ok(bytes.len())
    }
}

impl CalmShelf {
    pub fn new(alloc: Global) -> Self
        ensures { result.files ≡ [] }
    {
        CalmShelf {
            files: Listed::new(alloc),
        }
    }
}

impl Shelf for CalmShelf {
    ghost use Rattle.std.specs.Prelude.{true};
    ghost use Rattle.edge_io.specs.Memory.{files_of};

    ghost faults = { λ _. 0 };

    ghost tells = { λ _. true };

    ghost files = { λ shelf. files_of shelf.files };

    fn read(&mut self, name: &str, into: &mut Vec<u8>) -> Result<(), ShelfError>
        ensures answer { ReadAnswers (files_of self.old.files name.now) result into.new.items }
        ensures few { LeavesFew result into.new.items }
        ensures same { self.new.files ≡ self.old.files }
        ensures never_fails { ¬ IsErrOf result ShelfError.Failed }
    {
        pairs::read_file(self.files.as_slice(), name, into)
    }

    fn write(&mut self, name: &str, bytes: &[u8]) -> Result<(), ShelfError>
        ensures answer { WriteAnswers result (length bytes.now) }
        ensures written { OnOk result (files_of self.new.files name.now ≡ Some bytes.now) }
        ensures others { SameOthers name.now (files_of self.old.files) (files_of self.new.files) }
        ensures unchanged { OnErr result (self.new.files ≡ self.old.files) }
        ensures never_fails { ¬ IsErrOf result ShelfError.Failed }
    {
        pairs::write_file(&mut self.files, name, bytes)
    }
}
