//! All of a file, or all of a text, over any device.
ghost use Rattle.std.specs.Prelude.{◌<◌, ◌^◌};
ghost use Rattle.shelf_io.specs.Whole.{ReadsAll, WritesAll, SaysAll};

use crate::{Failed, Shelf, Sink};
use std::alloc::{AllocError, Global};

/// Why a file was not read whole.
#[derive(Clone, Copy, Debug, PartialEq, Eq)]
pub enum ReadErr {
    /// There was no memory for the bytes.
    Memory,
    /// The shelf failed, or has no file of that name.
    Failed,
    /// The file is longer than the limit: `taken` bytes were read, one more than the limit.
    TooLong { taken: u64 },
}

impl From<Failed> for ReadErr {
    ghost use Rattle.std.specs.Prelude.{◌≡◌};
    ghost use Rattle.shelf_io.specs.declared.whole.ReadErr.TheVariants.{Failed as ReadFailed};

    ghost from_gives = { λ _ e. e ≡ ReadFailed };

    fn from(_: Failed) -> Self {
        ReadErr::Failed
    }
}

impl From<AllocError> for ReadErr {
    ghost use Rattle.std.specs.Prelude.{◌≡◌};
    ghost use Rattle.shelf_io.specs.declared.whole.ReadErr.TheVariants.{Memory};

    ghost from_gives = { λ _ e. e ≡ Memory };

    fn from(_: AllocError) -> Self {
        ReadErr::Memory
    }
}

// The most bytes that one read asks for.
const PIECE: usize = 4096;

/// Reads a whole file of at most `limit` bytes. Condition: `limit` is below 2^63.
pub fn read_all<S: Shelf>(
    alloc: Global,
    shelf: &mut S,
    name: &str,
    limit: u64,
) -> Result<Vec<u8>, ReadErr>
    requires { limit < 2 ^ 63 }
    ensures { ReadsAll name.now limit (S.state shelf.old) result (S.state shelf.new) }
{
    shelf.open(name)?;
    let mut bytes = Vec::new(alloc);
    let mut piece = [0u8; PIECE];
    while bytes.len() as u64 <= limit {
        let room = PIECE.min((limit + 1) as usize - bytes.len());
        let n = shelf.read(&mut piece[..room])?;
        if n == 0 {
            return Ok(bytes);
        }
        bytes.extend_from_slice(&piece[..n])?;
    }
    Err(ReadErr::TooLong {
        taken: bytes.len() as u64,
    })
}

/// Makes a file of exactly these bytes. Where it fails, the file is as it was or holds a front of them.
pub fn write_all<S: Shelf>(shelf: &mut S, name: &str, bytes: &[u8]) -> Result<(), Failed>
    ensures { WritesAll name.now bytes.now (S.state shelf.old) result (S.state shelf.new) }
{
    shelf.create(name)?;
    let mut sent = 0;
    while sent < bytes.len() {
        sent += shelf.write(&bytes[sent..])?;
    }
    shelf.finish()
}

/// Writes all of these bytes to a console. Where it fails, a front of them was written.
pub fn say_all<C: Sink>(console: &mut C, bytes: &[u8]) -> Result<(), Failed>
    ensures { SaysAll bytes.now (C.state console.old) result (C.state console.new) }
{
    let mut said = 0;
    while said < bytes.len() {
        said += console.write(&bytes[said..])?;
    }
    Ok(())
}
