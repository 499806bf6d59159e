//! A file that is taken, or refused for its length.
ghost use Rattle.std.specs.Prelude.{◌≡◌, ◌<◌, ◌^◌};
ghost use Rattle.ipc_top.specs.Acts.{world};
ghost use Rattle.ipc_top.specs.Files.{Accepted};
ghost use Rattle.ipc_top.specs.Calls.Files.{Takes, bytes_of};

use crate::acts::take;
use crate::refusals::{End, refuse_too_long};
use shelf_io::{Shelf, Sink};
use std::alloc::Global;

/// Takes a file whole, or refuses it where it has more than `limit` bytes. Condition: `limit` is below 2^63.
pub fn take_file<S: Shelf, C: Sink>(
    alloc: Global,
    shelf: &mut S,
    console: &mut C,
    name: &str,
    limit: u64,
) -> Result<Vec<u8>, End>
    requires { limit < 2 ^ 63 }
    ensures { Takes name.now limit (λ bytes outcome. outcome ≡ Accepted bytes) (bytes_of result)
        (world (S.state shelf.old) (C.state console.old))
        (world (S.state shelf.new) (C.state console.new)) }
{
    match take(alloc, shelf, console, name, limit)? {
        Some(bytes) => Ok(bytes),
        None => Err(refuse_too_long(alloc, console, name, limit)),
    }
}
