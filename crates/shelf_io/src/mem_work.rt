//! What a shelf in memory has open, or is making.
ghost use Rattle.std.specs.Prelude.{◌≡◌, ◌⊎◌, [], drop, take, length, min, true, false, Some, None, IsSome, IfSome, IfNone, OnSome, OnOk, OnErr, IfOk, string_bytes};
ghost use Rattle.std.specs.Option.{option_map};
ghost use Rattle.std.specs.FinMap.{get, insert};
ghost use Rattle.shelf_io.specs.declared.mem_work.Work.TheVariants.{Reading};
ghost use Rattle.shelf_io.specs.MemView.{entries_of, files_of, opened_of, making_of};
ghost use Rattle.shelf_io.specs.Calls.{OpensAt, ReadsNext, open_name_of, AddsTo};

use crate::Failed;
use crate::mem_files::{MemFile, add_bytes, index_of, set_file};
use std::alloc::Global;

/// Where the next byte of the open file stands.
#[derive(Clone, Copy)]
pub(crate) struct ReadHead {
    pub(crate) file: usize,
    pub(crate) at: usize,
}

/// What a shelf is at: a file is open, or one of this name is being made, or neither.
#[derive(Drop)]
pub(crate) enum Work {
    Nothing,
    Reading(ReadHead),
    Making(String),
}

/// The start of a file, unless the call is due to fail.
pub(crate) fn read_head(due: bool, files: &[MemFile], name: &str) -> Option<ReadHead>
    ensures some { IfSome result (OpensAt (entries_of files.now) name.now) }
    ensures undue { OnSome result (due ≡ false) }
    ensures none { IfNone result ((due ≡ true) ⊎ (get (files_of files.now) name.now ≡ None)) }
{
    if due {
        return None;
    }
    let file = index_of(files, name)?;
    Some(ReadHead { file, at: 0 })
}

/// Reads the next bytes of the open file, unless the call is due to fail.
pub(crate) fn read_piece(
    due: bool,
    files: &[MemFile],
    work: &mut Work,
    buf: &mut [u8],
) -> Option<usize>
    requires { IsSome (opened_of (entries_of files.now) work.old) }
    ensures some { IfSome result (λ n. ReadsNext (entries_of files.now) work.old n buf.new work.new) }
    ensures making { making_of work.new ≡ making_of work.old }
    ensures undue { OnSome result (due ≡ false) }
    ensures due { IfNone result (due ≡ true) }
    ensures none { IfNone result (work.new ≡ work.old) }
{
    match work {
        Work::Reading(head) if !due => Some(read_next(files, head, buf)),
        _ => None,
    }
}

// Reads the next bytes at a read head, as many as fit.
fn read_next(files: &[MemFile], head: &mut ReadHead, buf: &mut [u8]) -> usize
    requires { IsSome (opened_of (entries_of files.now) (Reading head.old)) }
    ensures { ReadsNext (entries_of files.now) (Reading head.old) result buf.new (Reading head.new) }
{
    copy_next(&files[head.file].bytes, &mut head.at, buf)
}

// Copies the bytes behind `at`, as many as fit.
fn copy_next(bytes: &[u8], at: &mut usize, buf: &mut [u8]) -> usize
    ensures fits { result ≡ min (length buf.new) (length (drop at.old bytes.now)) }
    ensures bytes { take result buf.new ≡ take result (drop at.old bytes.now) }
    ensures rest { drop at.new bytes.now ≡ drop result (drop at.old bytes.now) }
{
    let start = (*at).min(bytes.len());
    let rest = &bytes[start..];
    let n = buf.len().min(rest.len());
    buf[..n].copy_from_slice(&rest[..n]);
    *at = start + n;
    n
}

/// Makes an empty file, and gives its name, unless the call is due to fail or there is no memory.
pub(crate) fn make_file(
    due: bool,
    alloc: Global,
    files: &mut Vec<MemFile>,
    name: &str,
) -> Result<String, Failed>
    ensures ok { OnOk result (files_of files.new.items ≡ insert (files_of files.old.items) name.now []) }
    ensures name { IfOk result (λ s. string_bytes s ≡ name.now) }
    ensures undue { OnOk result (due ≡ false) }
    ensures err { OnErr result (entries_of files.new.items ≡ entries_of files.old.items) }
{
    if due {
        return Err(Failed);
    }
    let making = String::from_str(alloc, name).map_err(|_| Failed)?;
    set_file(alloc, files, name, Vec::new(alloc)).map_err(|_| Failed)?;
    Ok(making)
}

/// Adds bytes to the file that is being made, unless the call is due to fail or there is no memory.
pub(crate) fn add_piece(
    due: bool,
    files: &mut Vec<MemFile>,
    work: &Work,
    piece: &[u8],
) -> Result<(), Failed>
    requires { IsSome (making_of work.now) }
    ensures ok { OnOk result (AddsTo work.now piece.now files.old.items files.new.items) }
    ensures undue { OnOk result (due ≡ false) }
    ensures err { OnErr result (entries_of files.new.items ≡ entries_of files.old.items) }
    ensures part { OnErr result (AddsTo work.now [] files.old.items files.new.items) }
{
    match work {
        Work::Making(name) if !due => add_bytes(files, name.as_str(), piece),
        _ => Err(Failed),
    }
}

/// A copy of a name, where there is memory for it.
pub(crate) fn copy_of(alloc: Global, name: &str) -> Option<String>
    ensures { IfSome result (λ s. string_bytes s ≡ name.now) }
{
    String::from_str(alloc, name).ok()
}

/// The name of the open file, where there is memory for it.
pub(crate) fn opened_name(alloc: Global, files: &[MemFile], work: &Work) -> Option<String>
    requires { IsSome (opened_of (entries_of files.now) work.now) }
    ensures { IfSome result (λ s. open_name_of (entries_of files.now) work.now ≡ Some (string_bytes s)) }
{
    match work {
        Work::Reading(head) => copy_of(alloc, files[head.file].name.as_str()),
        _ => None,
    }
}

/// The name of the file that is being made, where there is memory for it.
pub(crate) fn making_name(alloc: Global, work: &Work) -> Option<String>
    ensures { IfSome result (λ s. making_of work.now ≡ Some (string_bytes s)) }
{
    match work {
        Work::Making(name) => copy_of(alloc, name.as_str()),
        _ => None,
    }
}

/// The name itself of the file that was being made.
pub(crate) fn made_name(work: Work) -> Option<String>
    ensures { option_map string_bytes result ≡ making_of work }
{
    match work {
        Work::Making(name) => Some(name),
        _ => None,
    }
}
