//! The frames of a path, one after another.
ghost use Rattle.std.specs.Prelude.{◌≡◌, ◌∷◌, [], List, IfOk};
ghost use Rattle.std.specs.Option.{is_some};
ghost use Rattle.frame_driver.specs.Frames.{Frame};
ghost use Rattle.frame_driver.specs.Sims.{Advances};
ghost use Rattle.ipc_top.specs.Acts.{world};
ghost use Rattle.ipc_top.specs.Moves.{is_converged};
ghost use Rattle.ipc_top.specs.Calls.Frames.{AreNext, ShowsFrame, ShowsFrames};
ghost use Rattle.ipc_top.specs.Calls.Jobs.{job_of};

use crate::acts::Stop;
use crate::frame_acts::show_acts;
use crate::job::Job;
use frame_driver::Sim;
use line_search::FrameEnd;
use shelf_io::{Shelf, Sink};
use std::alloc::Global;

/// Computes the frames of a job, numbered from 1. Each is shown before the next begins. Answers whether all converged.
/// The simulation keeps the steps of a frame where traces are wanted.
pub fn show_frames<S: Shelf, C: Sink>(
    alloc: Global,
    shelf: &mut S,
    console: &mut C,
    job: &Job,
    sim: &mut Sim,
) -> Result<bool, Stop>
    requires { sim.old.keep ≡ is_some job.now.trace }
    ensures { (frames : List Frame) → AreNext sim.old job.now.frames frames
        → ShowsFrames (job_of job.now sim.old.setup.numbers) sim.old.setup sim.old.places
        frames result
        (world (S.state shelf.old) (C.state console.old))
        (world (S.state shelf.new) (C.state console.new)) }
{
    let mut all = true;
    for number in 1..=job.frames {
        let end = show_frame(alloc, shelf, console, job, sim, number)?;
        all &= is_converged(end);
    }
    Ok(all)
}

// Computes the frame of this number and shows it.
fn show_frame<S: Shelf, C: Sink>(
    alloc: Global,
    shelf: &mut S,
    console: &mut C,
    job: &Job,
    sim: &mut Sim,
    number: u32,
) -> Result<FrameEnd, Stop>
    requires { sim.old.keep ≡ is_some job.now.trace }
    ensures does { (frame : Frame) → AreNext sim.old 1 (frame ∷ [])
        → ShowsFrame (job_of job.now sim.old.setup.numbers) sim.old number frame result
        (world (S.state shelf.old) (C.state console.old))
        (world (S.state shelf.new) (C.state console.new)) }
    ensures advances { IfOk result (λ end. Advances end sim.old sim.new) }
{
    let end = sim.frame(alloc)?;
    show_acts(alloc, shelf, console, job, sim, number, end)?;
    Ok(end)
}

fn is_converged(end: FrameEnd) -> bool
    ensures { result ≡ is_converged end }
{
    match end {
        FrameEnd::Converged { .. } => true,
        FrameEnd::Stalled { .. } => false,
        FrameEnd::Budget { .. } => false,
    }
}
