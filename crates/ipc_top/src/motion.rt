//! How the bodies of a job move: the start, and the frames that follow it.
ghost use Rattle.std.specs.Prelude.{◌≡◌, ◌∷◌, length, List, if◌then◌else◌};
ghost use Rattle.space3.specs.Mesh.{IsSound};
ghost use Rattle.surface_mesh.specs.Setup.{IsSetup};
ghost use Rattle.frame_driver.specs.Frames.{Frame};
ghost use Rattle.ipc_top.specs.Acts.{Say, world};
ghost use Rattle.report_text.specs.declared.line.Line.TheVariants as lines;
ghost use Rattle.ipc_top.specs.Moves.{AreFrames, Moves, first_start};
ghost use Rattle.ipc_top.specs.Calls.Acts.{Does};
ghost use Rattle.ipc_top.specs.Calls.Frames.{ShowsFrames};
ghost use Rattle.ipc_top.specs.Calls.Jobs.{AreFit, job_of};
ghost use Rattle.ipc_top.specs.Calls.Plans.{FollowsOne};

use crate::acts::{Stop, say};
use crate::frame_acts::put_frame;
use crate::frames::show_frames;
use crate::job::Job;
use crate::refusals::End;
use frame_driver::Sim;
use report_text::Line;
use shelf_io::{Shelf, Sink};
use space3::Mesh;
use std::alloc::Global;
use surface_mesh::Setup;

/// Says the size of a mesh that is accepted, shows its start, and then each frame that follows.
///
/// The status is 0 where each frame that follows converged, and 1 where all are shown and some did not.
pub fn show_motion<S: Shelf, C: Sink>(
    alloc: Global,
    shelf: &mut S,
    console: &mut C,
    job: &Job,
    setup: Setup,
) -> Result<u8, End>
    requires { AreFit setup }
    ensures { let held = job_of job.now setup.numbers in
        FollowsOne (Moves held setup (first_start held setup)) result
        (world (S.state shelf.old) (C.state console.old))
        (world (S.state shelf.new) (C.state console.new)) }
{
    show_start(alloc, shelf, console, job, &setup)?;
    let all = show_path(alloc, shelf, console, job, setup)?;
    Ok(frames_status(all))
}

// The status of frames that are all shown.
fn frames_status(all_converged: bool) -> u8
    ensures { result ≡ (if all_converged then 0 else 1) }
{
    if all_converged { 0 } else { 1 }
}

// Says the size of a mesh, writes frame 0 and says it.
fn show_start<S: Shelf, C: Sink>(
    alloc: Global,
    shelf: &mut S,
    console: &mut C,
    job: &Job,
    setup: &Setup,
) -> Result<(), Stop>
    requires { IsSetup setup.now }
    ensures { let mesh = setup.now.mesh in
        Does (Say (lines.Accepted (length mesh.numbers) (length mesh.tets))
        ∷ (first_start (job_of job.now setup.now.numbers) setup.now).shown) result
        (world (S.state shelf.old) (C.state console.old))
        (world (S.state shelf.new) (C.state console.new)) }
{
    say(alloc, console, &accepted_line(&setup.mesh))?;
    show_first(alloc, shelf, console, job, setup)
}

// The line of a mesh that is accepted.
fn accepted_line(mesh: &Mesh) -> Line
    requires { IsSound mesh.now }
    ensures { result ≡ lines.Accepted (length mesh.now.numbers) (length mesh.now.tets) }
{
    Line::Accepted {
        nodes: mesh.numbers.items().len() as u32,
        tets: mesh.tets.items().len() as u32,
    }
}

// Writes frame 0 and says it.
fn show_first<S: Shelf, C: Sink>(
    alloc: Global,
    shelf: &mut S,
    console: &mut C,
    job: &Job,
    setup: &Setup,
) -> Result<(), Stop>
    requires { IsSetup setup.now }
    ensures { Does (first_start (job_of job.now setup.now.numbers) setup.now).shown result
        (world (S.state shelf.old) (C.state console.old))
        (world (S.state shelf.new) (C.state console.new)) }
{
    put_frame(alloc, shelf, console, job, setup, &setup.mesh.places, 0)?;
    say(alloc, console, &Line::Start)
}

// Shows the frames that follow frame 0. Where there are none, no simulation is opened.
fn show_path<S: Shelf, C: Sink>(
    alloc: Global,
    shelf: &mut S,
    console: &mut C,
    job: &Job,
    setup: Setup,
) -> Result<bool, Stop>
    requires { AreFit setup }
    ensures { let held = job_of job.now setup.numbers in (frames : List Frame)
        → AreFrames held setup (first_start held setup) frames
        → ShowsFrames held setup setup.mesh.places frames result
        (world (S.state shelf.old) (C.state console.old))
        (world (S.state shelf.new) (C.state console.new)) }
{
    if job.frames == 0 {
        return Ok(true);
    }
    let keep = job.trace.is_some();
    let mut sim = Sim::open(alloc, setup, job.tol, job.budget, keep)?;
    show_frames(alloc, shelf, console, job, &mut sim)
}
