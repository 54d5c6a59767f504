//! Sources, sinks and shelves in memory, of which chosen calls fail.

ghost use Rattle.std.specs.Prelude.{◌≡◌, ◌≤◌, ◌<◌, ◌+◌, ◌-◌, ◌^◌, ◌↔◌, [], Some, IfOk, IsErr, IsErrOf, IsFalse, OnErr, OnOk, drop, length, min, true};
ghost use Rattle.edge_io.specs.Files.{LeavesFew, ReadAnswers, SameOthers, WriteAnswers};
ghost use Rattle.edge_io.specs.Held.{Grew, Took};
ghost use Rattle.edge_io.specs.Memory.{Fails, files_of, told};

use crate::calls::call_fails;
use crate::left::read_from;
use crate::listed::Listed;
use crate::pairs;
use crate::pairs::NamedFile;
use crate::shelf::{Shelf, ShelfError};
use crate::sink::Sink;
use crate::source::{Failed, Source};
use std::alloc::Global;

/// Bytes that are read from a place on, counted from 0. With `place` past the end nothing is left.
#[derive(Debug, Drop)]
pub struct MemSource {
    pub bytes: Listed<u8>,
    pub place: usize,
    /// The numbers of the calls that fail, counted from 1.
    pub failing: Listed<u32>,
    /// How many calls there were. At its last value the number stays and no call fails.
    pub calls: u32,
    /// How many calls failed.
    pub faults: u64,
}

/// The bytes that were written. It tells nothing once its growth was refused.
#[derive(Debug, Drop)]
pub struct MemSink {
    pub held: Listed<u8>,
    pub tells: bool,
    /// The numbers of the calls that fail, counted from 1.
    pub failing: Listed<u32>,
    /// How many calls there were. At its last value the number stays and no call fails.
    pub calls: u32,
    /// How many calls failed.
    pub faults: u64,
}

/// Names and bytes of files. Of two files of one name the first one counts.
#[derive(Debug, Drop)]
pub struct MemShelf {
    pub files: Listed<NamedFile>,
    /// The numbers of the calls that fail, counted from 1 over reads and writes together.
    pub failing: Listed<u32>,
    /// How many calls there were. At its last value the number stays and no call fails.
    pub calls: u32,
    /// How many calls failed.
    pub faults: u64,
}

impl MemSource {
    /// A source at its first byte, of which the calls of these numbers fail.
    pub fn new(bytes: Vec<u8>, failing: Vec<u32>) -> Self
        ensures bytes { result.bytes ≡ bytes.items }
        ensures place { result.place ≡ 0 }
        ensures failing { result.failing ≡ failing.items }
        ensures calls { result.calls ≡ 0 }
        ensures faults { result.faults ≡ 0 }
    {
        MemSource {
            bytes: Listed::from_vec(bytes),
            place: 0,
            failing: Listed::from_vec(failing),
            calls: 0,
            faults: 0,
        }
    }
}

impl Source for MemSource {
    ghost use Rattle.std.specs.Prelude.{Some, drop};

    ghost faults = { λ source. source.faults };

    ghost left = { λ source. Some (drop source.place source.bytes) };

    fn read(&mut self, buf: &mut [u8]) -> Result<usize, Failed>
        ensures fails { IsErr result ↔ Fails self.old.failing self.old.calls }
        ensures within { IfOk result (λ n. n ≤ length buf.old) }
        ensures taken { IfOk result (λ n. Took (Some (drop self.old.place self.old.bytes)) (Some (drop self.new.place self.new.bytes)) buf.new n) }
        ensures moved { IfOk result (λ n. self.new.place ≡ self.old.place + n) }
        ensures stays { OnErr result (self.new.place ≡ self.old.place) }
        ensures bytes { self.new.bytes ≡ self.old.bytes }
        ensures failing { self.new.failing ≡ self.old.failing }
        ensures counted { self.new.calls ≡ min (self.old.calls + 1) (2 ^ 32 - 1) }
        ensures never_falls { self.old.faults ≤ self.new.faults }
        ensures fits { self.new.faults < 2 ^ 64 }
        ensures fault { OnErr result (self.new.faults ≡ min (self.old.faults + 1) (2 ^ 64 - 1)) }
        ensures no_fault { OnOk result (self.new.faults ≡ self.old.faults) }
    {
        if call_fails(&self.failing, &mut self.calls, &mut self.faults) {
            return Err(Failed);
        }
        Ok(read_from(self.bytes.as_slice(), &mut self.place, buf))
    }
}

impl MemSink {
    /// An empty sink that tells, of which the calls of these numbers fail.
    pub fn new(alloc: Global, failing: Vec<u32>) -> Self
        ensures held { result.held ≡ [] }
        ensures tells { result.tells ≡ true }
        ensures failing { result.failing ≡ failing.items }
        ensures calls { result.calls ≡ 0 }
        ensures faults { result.faults ≡ 0 }
    {
        MemSink {
            held: Listed::new(alloc),
            tells: true,
            failing: Listed::from_vec(failing),
            calls: 0,
            faults: 0,
        }
    }
}

impl Sink for MemSink {
    ghost use Rattle.edge_io.specs.Memory.{told};

    ghost faults = { λ sink. sink.faults };

    ghost held = { λ sink. told sink.tells sink.held };

    fn write(&mut self, bytes: &[u8]) -> Result<usize, Failed>
        ensures fails { IsErr result ↔ Fails self.old.failing self.old.calls }
        ensures whole { IfOk result (λ n. n ≡ length bytes.now) }
        ensures appended { OnOk result (Grew (told self.old.tells self.old.held) (told self.new.tells self.new.held) bytes.now) }
        ensures refused { IsFalse self.new.tells → self.new.held ≡ self.old.held }
        ensures held_on { OnErr result (self.new.held ≡ self.old.held) }
        ensures tells_on { OnErr result (self.new.tells ≡ self.old.tells) }
        ensures failing { self.new.failing ≡ self.old.failing }
        ensures counted { self.new.calls ≡ min (self.old.calls + 1) (2 ^ 32 - 1) }
        ensures never_falls { self.old.faults ≤ self.new.faults }
        ensures fits { self.new.faults < 2 ^ 64 }
        ensures fault { OnErr result (self.new.faults ≡ min (self.old.faults + 1) (2 ^ 64 - 1)) }
        ensures no_fault { OnOk result (self.new.faults ≡ self.old.faults) }
    {
        if call_fails(&self.failing, &mut self.calls, &mut self.faults) {
            return Err(Failed);
        }
        if self.tells {
            self.tells = self.held.extend_from_slice(bytes).is_ok();
        }
        Ok(bytes.len())
    }
}

impl MemShelf {
    /// An empty shelf, of which the calls of these numbers fail.
    pub fn new(alloc: Global, failing: Vec<u32>) -> Self
        ensures files { result.files ≡ [] }
        ensures failing { result.failing ≡ failing.items }
        ensures calls { result.calls ≡ 0 }
        ensures faults { result.faults ≡ 0 }
    {
        MemShelf {
            files: Listed::new(alloc),
            failing: Listed::from_vec(failing),
            calls: 0,
            faults: 0,
        }
    }
}

impl Shelf for MemShelf {
    ghost use Rattle.std.specs.Prelude.{true};
    ghost use Rattle.edge_io.specs.Memory.{files_of};

    ghost faults = { λ shelf. shelf.faults };

    ghost tells = { λ _. true };

    ghost files = { λ shelf. files_of shelf.files };

    fn read(&mut self, name: &str, into: &mut Vec<u8>) -> Result<(), ShelfError>
        ensures fails { IsErrOf result ShelfError.Failed ↔ Fails self.old.failing self.old.calls }
        ensures answer { ReadAnswers (files_of self.old.files name.now) result into.new.items }
        ensures few { LeavesFew result into.new.items }
        ensures same { self.new.files ≡ self.old.files }
        ensures failing { self.new.failing ≡ self.old.failing }
        ensures counted { self.new.calls ≡ min (self.old.calls + 1) (2 ^ 32 - 1) }
        ensures never_falls { self.old.faults ≤ self.new.faults }
        ensures fits { self.new.faults < 2 ^ 64 }
        ensures fault { IsErrOf result ShelfError.Failed → self.new.faults ≡ min (self.old.faults + 1) (2 ^ 64 - 1) }
        ensures no_fault { ¬ IsErrOf result ShelfError.Failed → self.new.faults ≡ self.old.faults }
    {
        if call_fails(&self.failing, &mut self.calls, &mut self.faults) {
            into.clear();
            return Err(ShelfError::Failed);
        }
        pairs::read_file(self.files.as_slice(), name, into)
    }

    fn write(&mut self, name: &str, bytes: &[u8]) -> Result<(), ShelfError>
        ensures fails { IsErrOf result ShelfError.Failed ↔ Fails self.old.failing self.old.calls }
        ensures answer { WriteAnswers result (length bytes.now) }
        ensures written { OnOk result (files_of self.new.files name.now ≡ Some bytes.now) }
        ensures others { SameOthers name.now (files_of self.old.files) (files_of self.new.files) }
        ensures unchanged { OnErr result (self.new.files ≡ self.old.files) }
        ensures failing { self.new.failing ≡ self.old.failing }
        ensures counted { self.new.calls ≡ min (self.old.calls + 1) (2 ^ 32 - 1) }
        ensures never_falls { self.old.faults ≤ self.new.faults }
        ensures fits { self.new.faults < 2 ^ 64 }
        ensures fault { IsErrOf result ShelfError.Failed → self.new.faults ≡ min (self.old.faults + 1) (2 ^ 64 - 1) }
        ensures no_fault { ¬ IsErrOf result ShelfError.Failed → self.new.faults ≡ self.old.faults }
    {
        if call_fails(&self.failing, &mut self.calls, &mut self.faults) {
            return Err(ShelfError::Failed);
        }
        pairs::write_file(&mut self.files, name, bytes)
    }
}
