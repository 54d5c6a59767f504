//! Files as a list of names and bytes, of which the first one of a name counts.

ghost use Rattle.std.specs.Prelude.{◌≡◌, ◌<◌, IfNone, IfSome, IsErrOf, OnOk, OnErr, Some, length};
ghost use Rattle.std.specs.Option.{option_copied};
ghost use Rattle.edge_io.specs.Files.{LeavesFew, ReadAnswers, SameOthers, WriteAnswers};
ghost use Rattle.edge_io.specs.Memory.{files_of};
ghost use Rattle.edge_io.specs.working.First.{IsFirst};

use crate::listed::{Listed, Text};
use crate::shelf::{LONGEST_FILE, ShelfError};
use std::alloc::AllocError;

/// A name and the bytes of its file.
pub type NamedFile = (Text, Listed<u8>);

fn first_of(files: &[NamedFile], name: &str) -> Option<usize>
    ensures absent { IfNone result (files_of files.now name.now ≡ None) }
    ensures within { IfSome result (λ at. at < length files.now) }
    ensures first { IfSome result (IsFirst files.now name.now) }
{
    for (at, file) in files.iter().enumerate() {
        if file.0.as_str() == name {
            return Some(at);
        }
    }
    None
}

/// The bytes of the file of that name.
fn find<'a>(files: &'a [NamedFile], name: &str) -> Option<&'a [u8]>
    ensures { option_copied result ≡ files_of files.now name.now }
{
    match first_of(files, name) {
        Some(at) => Some(files[at].1.as_slice()),
        None => None,
    }
}

/// Makes these bytes the file of that name. Without memory the files stay as they were.
fn put(files: &mut Listed<NamedFile>, name: &str, bytes: &[u8]) -> Result<(), AllocError>
    ensures written { OnOk result (files_of files.new name.now ≡ Some bytes.now) }
    ensures others { SameOthers name.now (files_of files.old) (files_of files.new) }
    ensures unchanged { OnErr result (files.new ≡ files.old) }
{
    let alloc = files.alloc();
    let file = (
        Text::from_str(alloc, name)?,
        Listed::from_slice(alloc, bytes)?,
    );
    match first_of(files.as_slice(), name) {
        Some(at) => files.replace(at, file),
        None => files.push(file)?,
    }
    Ok(())
}

/// Leaves the bytes of the file of that name in `into`.
pub(crate) fn read_file(
    files: &[NamedFile],
    name: &str,
    into: &mut Vec<u8>,
) -> Result<(), ShelfError>
    ensures answer { ReadAnswers (files_of files.now name.now) result into.new.items }
    ensures few { LeavesFew result into.new.items }
    ensures never_fails { ¬ IsErrOf result ShelfError.Failed }
{
    into.clear();
    match find(files, name) {
        None => Err(ShelfError::NotFound),
        Some(bytes) if bytes.len() > LONGEST_FILE => Err(ShelfError::TooLong),
        Some(bytes) => {
            into.extend_from_slice(bytes)?;
            Ok(())
        }
    }
}

/// Makes these bytes the file of that name. After a refusal all files are as they were.
pub(crate) fn write_file(
    files: &mut Listed<NamedFile>,
    name: &str,
    bytes: &[u8],
) -> Result<(), ShelfError>
    ensures answer { WriteAnswers result (length bytes.now) }
    ensures written { OnOk result (files_of files.new name.now ≡ Some bytes.now) }
    ensures others { SameOthers name.now (files_of files.old) (files_of files.new) }
    ensures unchanged { OnErr result (files.new ≡ files.old) }
    ensures never_fails { ¬ IsErrOf result ShelfError.Failed }
{
    if bytes.len() > LONGEST_FILE {
        return Err(ShelfError::TooLong);
    }
    put(files, name, bytes)?;
    Ok(())
}
