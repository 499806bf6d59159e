//! What ends a command before its work: a refusal, which is one line with its status, or an act that was stopped.
ghost use Rattle.std.specs.Prelude.{◌+◌, ◌<◌, ◌^◌, Err};
ghost use Rattle.shelf_io.specs.Shelf.{ShelfState};
ghost use Rattle.mesh_check.specs.Defects.{HasPair};
ghost use Rattle.ipc_top.specs.Acts.{world};
ghost use Rattle.ipc_top.specs.Ends.{IsPlain};
ghost use Rattle.ipc_top.specs.Files.{too_long_plan};
ghost use Rattle.ipc_top.specs.Meshes.{defect_plan};
ghost use Rattle.ipc_top.specs.Plans.{refusal};
ghost use Rattle.ipc_top.specs.Calls.Plans.{Follows};

use crate::acts::{Stop, name_text, say};
use crate::numbered::defect_line;
use mesh_check::Defect;
use report_text::Line;
use shelf_io::Sink;
use std::alloc::Global;
use surface_mesh::Setup;

/// What ended a command before its work was done.
#[derive(Clone, Copy, Debug, PartialEq, Eq)]
pub enum End {
    /// Words or a file were refused with this status, and the refusal's line was said.
    Refused(u8),
    /// An act was stopped.
    Stopped(Stop),
}

impl From<Stop> for End {
    ghost use Rattle.std.specs.Prelude.{◌≡◌};
    ghost use Rattle.ipc_top.specs.declared.refusals.End.TheVariants.{Stopped};

    ghost from_gives = { λ stop e. e ≡ Stopped stop };

    fn from(stop: Stop) -> Self {
        End::Stopped(stop)
    }
}

/// Says a refusal's line, which ends the command with this status.
pub fn refuse<C: Sink>(alloc: Global, console: &mut C, line: &Line, status: u8) -> End
    requires { IsPlain status }
    ensures { (s : ShelfState) → Follows (refusal line.now status) (Err result)
        (world s (C.state console.old)) (world s (C.state console.new)) }
{
    match say(alloc, console, line) {
        Ok(()) => End::Refused(status),
        Err(stop) => End::Stopped(stop),
    }
}

/// Refuses a file that has more than `limit` bytes. Condition: `limit` is below 2^63.
pub fn refuse_too_long<C: Sink>(alloc: Global, console: &mut C, name: &str, limit: u64) -> End
    requires { limit < 2 ^ 63 }
    ensures { (s : ShelfState) → Follows (too_long_plan name.now limit) (Err result)
        (world s (C.state console.old)) (world s (C.state console.new)) }
{
    match name_text(alloc, name) {
        Ok(name) => refuse(
            alloc,
            console,
            &Line::TooLong {
                name,
                taken: limit + 1,
            },
            10,
        ),
        Err(_) => End::Stopped(Stop::Memory),
    }
}

/// Refuses bodies for a defect.
pub fn refuse_defect<C: Sink>(alloc: Global, console: &mut C, setup: &Setup, defect: Defect) -> End
    requires { HasPair setup.now.surface defect }
    ensures { (s : ShelfState) → Follows (defect_plan setup.now defect) (Err result)
        (world s (C.state console.old)) (world s (C.state console.new)) }
{
    match defect_line(alloc, setup, defect) {
        Ok(line) => refuse(alloc, console, &line, 7),
        Err(_) => End::Stopped(Stop::Memory),
    }
}
