//! The acts, each done whole or stopped.
ghost use Rattle.std.specs.Prelude.{◌≡◌, ◌∷◌, [], ◌≤◌, ◌<◌, ◌+◌, ◌^◌, length, IfOk, IfSome, IfNone, option_map};
ghost use Rattle.std.specs.FinMap.{get};
ghost use Rattle.report_text.specs.declared.line.Line.TheVariants as lines;
ghost use Rattle.report_text.specs.Lines.{text_of_line};
ghost use Rattle.shelf_io.specs.Shelf.{ShelfState};
ghost use Rattle.ipc_top.specs.Acts.{Take, Put, Say, world};
ghost use Rattle.ipc_top.specs.Calls.Acts.{Does};
ghost use Rattle.ipc_top.specs.Calls.Files.{IsTaken};

use report_text::{Line, line_text};
use scene_toml::NameText;
use shelf_io::{ReadErr, Shelf, Sink, read_all, say_all, write_all};
use std::alloc::{AllocError, Global};

/// What stopped an act.
#[derive(Clone, Copy, Debug, PartialEq, Eq)]
pub enum Stop {
    /// A file could not be read.
    Read,
    /// A file could not be written.
    Write,
    /// A line could not be said.
    Console,
    /// Memory was wanting.
    Memory,
}

impl From<AllocError> for Stop {
    ghost use Rattle.std.specs.Prelude.{◌≡◌};
    ghost use Rattle.ipc_top.specs.declared.acts.Stop.TheVariants.{Memory};

    ghost from_gives = { λ _ e. e ≡ Memory };

    fn from(_: AllocError) -> Self {
        Stop::Memory
    }
}

// The text of a line.
fn text_of(alloc: Global, line: &Line) -> Result<Vec<u8>, AllocError>
    ensures { IfOk result (λ text. text.items ≡ text_of_line line.now) }
{
    let mut text = Vec::new(alloc);
    line_text(alloc, line, &mut text)?;
    Ok(text)
}

/// A name as a line has it.
pub fn name_text(alloc: Global, name: &str) -> Result<NameText, AllocError>
    ensures { IfOk result (λ text. text ≡ name.now) }
{
    let name = String::from_str(alloc, name)?;
    Ok(NameText::of_text(name))
}

/// Says a line.
pub fn say<C: Sink>(alloc: Global, console: &mut C, line: &Line) -> Result<(), Stop>
    ensures { (s : ShelfState) → Does (Say line.now ∷ []) result
        (world s (C.state console.old)) (world s (C.state console.new)) }
{
    let text = text_of(alloc, line)?;
    match say_all(console, &text) {
        Ok(()) => Ok(()),
        Err(_) => Err(Stop::Console),
    }
}

// The line of a file that could not be written.
fn write_fault(alloc: Global, name: &str) -> Result<Vec<u8>, AllocError>
    ensures { IfOk result (λ text. text.items ≡ text_of_line (lines.WriteFault name.now)) }
{
    let name = name_text(alloc, name)?;
    text_of(alloc, &Line::WriteFault { name })
}

/// Makes a file of a text. Where the shelf fails, it says so.
pub fn put<S: Shelf, C: Sink>(
    alloc: Global,
    shelf: &mut S,
    console: &mut C,
    name: &str,
    text: &[u8],
) -> Result<(), Stop>
    ensures { Does (Put name.now text.now ∷ []) result
        (world (S.state shelf.old) (C.state console.old))
        (world (S.state shelf.new) (C.state console.new)) }
{
    let line = write_fault(alloc, name)?;
    match write_all(shelf, name, text) {
        Ok(()) => Ok(()),
        Err(_) => match say_all(console, &line) {
            Ok(()) => Err(Stop::Write),
            Err(_) => Err(Stop::Console),
        },
    }
}

// The line of a file that could not be read.
fn read_fault(alloc: Global, name: &str) -> Result<Vec<u8>, AllocError>
    ensures { IfOk result (λ text. text.items ≡ text_of_line (lines.ReadFault name.now)) }
{
    let name = name_text(alloc, name)?;
    text_of(alloc, &Line::ReadFault { name })
}

/// Takes a file, or gives None where it has more than `limit` bytes. Where the shelf fails, it says so. Condition:
/// `limit` is below 2^63.
pub fn take<S: Shelf, C: Sink>(
    alloc: Global,
    shelf: &mut S,
    console: &mut C,
    name: &str,
    limit: u64,
) -> Result<Option<Vec<u8>>, Stop>
    requires { limit < 2 ^ 63 }
    ensures does { Does (Take name.now ∷ []) result
        (world (S.state shelf.old) (C.state console.old))
        (world (S.state shelf.new) (C.state console.new)) }
    ensures told { IfOk result (λ taken. IfSome (S.state shelf.old).files (λ files.
        IsTaken limit (get files name.now) (option_map (λ v. v.items) taken))) }
    ensures within { IfOk result (λ taken. IfSome taken (λ v. length v.items ≤ limit)) }
    ensures too_long { IfOk result (λ taken. IfNone taken ((S.state shelf.new).taken ≡ limit + 1)) }
{
    let line = read_fault(alloc, name)?;
    match read_all(alloc, shelf, name, limit) {
        Ok(bytes) => Ok(Some(bytes)),
        Err(ReadErr::TooLong { .. }) => Ok(None),
        Err(ReadErr::Memory) => Err(Stop::Memory),
        Err(ReadErr::Failed) => match say_all(console, &line) {
            Ok(()) => Err(Stop::Read),
            Err(_) => Err(Stop::Console),
        },
    }
}
