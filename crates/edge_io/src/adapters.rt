//! Adapters over the readers, the writers and the files of the system. They tell no content.

ghost use Rattle.std.specs.Prelude.{◌≡◌, ◌≤◌, IsErrOf, OnOk, length};
ghost use Rattle.edge_io.specs.Faults.{Rose};
ghost use Rattle.edge_io.specs.Files.{WriteAnswers, most_bytes};

use crate::shelf::{LONGEST_FILE, Shelf, ShelfError};
use crate::sink::{Sink, write_all};
use crate::source::{Failed, Source};
use std::alloc::Global;
use std::io::{Read, Write};
use std::path::Path;
use std::rt::Files;
use std::{fs, io};

/// How many bytes are read from a file at once.
const CHUNK: usize = 4096;

/// A reader as a source. An interrupted read is a failure, as any other that errs.
#[derive(Drop)]
pub struct StdSource<R> {
    reader: R,
    faults: u64,
}

/// A writer as a sink. An interrupted write is a failure, as any other that errs or takes nothing.
#[derive(Drop)]
pub struct StdSink<W> {
    writer: W,
    faults: u64,
}

/// The files of a folder. A name is joined to the folder as a path, so an absolute one stands for itself.
#[derive(Drop)]
pub struct DirShelf<R> {
    alloc: Global,
    rt: R,
    folder: String,
    faults: u64,
}

impl<R: Read + Drop> StdSource<R> {
    pub fn new(reader: R) -> Self
        ensures { ⟦<StdSource<R> as Source>⟧.faults result ≡ 0 }
    {
        StdSource { reader, faults: 0 }
    }
}

impl<R: Read + Drop> Source for StdSource<R> {
    ghost use Rattle.std.specs.Prelude.{None};

    ghost faults = { λ source. source.faults };

    ghost left = { λ _. None };

    fn read(&mut self, buf: &mut [u8]) -> Result<usize, Failed> {
        let so_far = self.faults;
        match self.reader.read(buf) {
            Ok(count) if count <= buf.len() => Ok(count),
            _ => {
                self.faults = so_far.saturating_add(1);
                Err(Failed)
            }
        }
    }
}

impl<W: Write + Drop> StdSink<W> {
    pub fn new(writer: W) -> Self
        ensures { ⟦<StdSink<W> as Sink>⟧.faults result ≡ 0 }
    {
        StdSink { writer, faults: 0 }
    }
}

impl<W: Write + Drop> Sink for StdSink<W> {
    ghost use Rattle.std.specs.Prelude.{None};

    ghost faults = { λ sink. sink.faults };

    ghost held = { λ _. None };

    fn write(&mut self, bytes: &[u8]) -> Result<usize, Failed> {
        let so_far = self.faults;
        match self.writer.write(bytes) {
            Ok(count) if count > 0 || bytes.is_empty() => Ok(count),
            _ => {
                self.faults = so_far.saturating_add(1);
                Err(Failed)
            }
        }
    }
}

impl<R: Files + Drop> DirShelf<R> {
    /// The shelf over a folder. An empty name of the folder is the current one.
    pub fn new(alloc: Global, rt: R, folder: String) -> Self
        ensures { ⟦<DirShelf<R> as Shelf>⟧.faults result ≡ 0 }
    {
        DirShelf {
            alloc,
            rt,
            folder,
            faults: 0,
        }
    }
}

impl<R: Files + Drop> Shelf for DirShelf<R> {
    ghost use Rattle.std.specs.Prelude.{None, false};

    ghost faults = { λ shelf. shelf.faults };

    ghost tells = { λ _. false };

    ghost files = { λ _ _. None };

    fn read(&mut self, name: &str, into: &mut Vec<u8>) -> Result<(), ShelfError> {
        let result = read_file(self.alloc, &self.rt, self.folder.as_str(), name, into);
        if result.is_err() {
            into.clear();
        }
        self.faults = faults_after(self.faults, &result);
        result
    }

    fn write(&mut self, name: &str, bytes: &[u8]) -> Result<(), ShelfError> {
        let result = write_file(self.alloc, &self.rt, self.folder.as_str(), name, bytes);
        self.faults = faults_after(self.faults, &result);
        result
    }
}

/// The count of faults after a call with this outcome.
fn faults_after(faults: u64, outcome: &Result<(), ShelfError>) -> u64
    ensures never_falls { faults ≤ result }
    ensures rose { IsErrOf outcome.now ShelfError.Failed → Rose faults result }
{
    match outcome {
        Err(ShelfError::Failed) => faults.saturating_add(1),
        _ => faults,
    }
}

fn read_file<R: Files>(
    alloc: Global,
    rt: &R,
    folder: &str,
    name: &str,
    into: &mut Vec<u8>,
) -> Result<(), ShelfError>
    ensures { OnOk result (length into.new.items ≤ most_bytes) }
{
    let path = Path::new(folder).join(alloc, name)?;
    match fs::open(rt, path) {
        Ok(file) => read_to_end(&mut StdSource::new(file), into),
        Err(error) => Err(open_error(&error)),
    }
}

fn open_error(error: &io::Error) -> ShelfError {
    match error.kind() {
        io::ErrorKind::NotFound => ShelfError::NotFound,
        io::ErrorKind::OutOfMemory => ShelfError::NoMemory,
        _ => ShelfError::Failed,
    }
}

/// Reads to the end, or until more bytes came than a file may have.
fn read_to_end<S: Source>(source: &mut S, into: &mut Vec<u8>) -> Result<(), ShelfError>
    ensures { OnOk result (length into.new.items ≤ most_bytes) }
{
    into.clear();
    let mut chunk = [0; CHUNK];
    while into.len() <= LONGEST_FILE {
        let count = source.read(&mut chunk)?;
        if count == 0 {
            return Ok(());
        }
        into.extend_from_slice(&chunk[..count])?;
    }
    Err(ShelfError::TooLong)
}

fn write_file<R: Files>(
    alloc: Global,
    rt: &R,
    folder: &str,
    name: &str,
    bytes: &[u8],
) -> Result<(), ShelfError>
    ensures { WriteAnswers result (length bytes.now) }
{
    if bytes.len() > LONGEST_FILE {
        return Err(ShelfError::TooLong);
    }
    let path = Path::new(folder).join(alloc, name)?;
    match fs::create(rt, path) {
        Ok(file) => {
            write_all(&mut StdSink::new(file), bytes)?;
            Ok(())
        }
        Err(error) if error.kind() == io::ErrorKind::OutOfMemory => Err(ShelfError::NoMemory),
        Err(_) => Err(ShelfError::Failed),
    }
}
