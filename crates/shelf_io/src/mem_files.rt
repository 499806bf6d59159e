//! A list of named files, seen as a map: the first file of a name counts.
ghost use Rattle.std.specs.Prelude.{◌≡◌, ◌++◌, [], None, IfSome, IfNone, OnOk, OnErr, option_copied};
ghost use Rattle.std.specs.FinMap.{get, insert};
ghost use Rattle.shelf_io.specs.Shelf.{lengthened};
ghost use Rattle.shelf_io.specs.MemView.{entries_of, files_of};
ghost use Rattle.shelf_io.specs.Calls.{IsFirst};

use crate::Failed;
use std::alloc::{AllocError, Global};

/// A file in memory.
#[derive(Drop)]
pub(crate) struct MemFile {
    pub(crate) name: String,
    pub(crate) bytes: Vec<u8>,
}

/// Where the first file of a name stands.
pub(crate) fn index_of(files: &[MemFile], name: &str) -> Option<usize>
    ensures some { IfSome result (λ i. IsFirst (entries_of files.now) name.now i) }
    ensures none { IfNone result (get (files_of files.now) name.now ≡ None) }
{
    for (i, file) in files.iter().enumerate() {
        if file.name.as_str() == name {
            return Some(i);
        }
    }
    None
}

/// The bytes of a file.
pub(crate) fn bytes_of<'a>(files: &'a [MemFile], name: &str) -> Option<&'a [u8]>
    ensures { option_copied result ≡ get (files_of files.now) name.now }
{
    match index_of(files, name) {
        Some(i) => Some(files[i].bytes.as_slice()),
        None => None,
    }
}

/// Gives a file these bytes, in the place of those that it had.
pub(crate) fn set_file(
    alloc: Global,
    files: &mut Vec<MemFile>,
    name: &str,
    bytes: Vec<u8>,
) -> Result<(), AllocError>
    ensures ok { OnOk result (files_of files.new.items ≡ insert (files_of files.old.items) name.now bytes.items) }
    ensures err { OnErr result (entries_of files.new.items ≡ entries_of files.old.items) }
{
    match index_of(files, name) {
        Some(i) => {
            let file = &mut files[i];
            file.bytes = bytes;
        }
        None => {
            let name = String::from_str(alloc, name)?;
            files.push(MemFile { name, bytes })?;
        }
    }
    Ok(())
}

/// Adds bytes at the end of a file, where it is there and memory is found.
pub(crate) fn add_bytes(files: &mut Vec<MemFile>, name: &str, piece: &[u8]) -> Result<(), Failed>
    ensures ok { OnOk result (files_of files.new.items ≡ lengthened name.now piece.now (files_of files.old.items)) }
    ensures err { OnErr result (entries_of files.new.items ≡ entries_of files.old.items) }
{
    match index_of(files, name) {
        Some(i) => {
            let file = &mut files[i];
            match file.bytes.extend_from_slice(piece) {
                Ok(()) => Ok(()),
                Err(_) => Err(Failed),
            }
        }
        None => Err(Failed),
    }
}
