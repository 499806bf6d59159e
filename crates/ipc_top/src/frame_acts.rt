//! The acts that show one frame.
ghost use Rattle.std.specs.Prelude.{◌≡◌, ◌++◌, ◌∷◌, [], length};
ghost use Rattle.shelf_io.specs.Shelf.{ShelfState};
ghost use Rattle.surface_mesh.specs.declared.materials.Numbers.{Numbers};
ghost use Rattle.surface_mesh.specs.Setup.{IsSetup};
ghost use Rattle.msh_text.specs.Frame.{frame_text};
ghost use Rattle.report_text.specs.declared.line.Line.TheVariants as lines;
ghost use Rattle.report_text.specs.Traces.{trace_text};
ghost use Rattle.ipc_top.specs.Acts.{Put, Say, world};
ghost use Rattle.ipc_top.specs.Moves as moves;
ghost use Rattle.ipc_top.specs.Calls.Acts.{Does};
ghost use Rattle.ipc_top.specs.Calls.Jobs.{job_of};

use crate::acts::{Stop, put, say};
use crate::frame_files::{frame_name, frame_text, frame_trace, trace_name};
use crate::grids::Digits;
use crate::job::Job;
use crate::sums::sum_line;
use frame_driver::Sim;
use line_search::{FrameEnd, Step};
use report_text::Line;
use shelf_io::{Shelf, Sink};
use space3::{Mesh, Places};
use std::alloc::Global;
use surface_mesh::Setup;

/// Shows the frame of this number, to which a simulation has come: writes its files, says its line, and where frames go
/// to no file the sums of its places.
pub fn show_acts<S: Shelf, C: Sink>(
    alloc: Global,
    shelf: &mut S,
    console: &mut C,
    job: &Job,
    sim: &Sim,
    number: u32,
    end: FrameEnd,
) -> Result<(), Stop>
    ensures { let held = job_of job.now sim.now.setup.numbers in
        Does (moves.acts_showing held sim.now.setup number sim.now.places sim.now.notes end) result
        (world (S.state shelf.old) (C.state console.old))
        (world (S.state shelf.new) (C.state console.new)) }
{
    put_files(alloc, shelf, console, job, sim, number, end)?;
    say_frame(alloc, console, job, sim.places(), number, end)
}

// Writes the files of a frame.
fn put_files<S: Shelf, C: Sink>(
    alloc: Global,
    shelf: &mut S,
    console: &mut C,
    job: &Job,
    sim: &Sim,
    number: u32,
    end: FrameEnd,
) -> Result<(), Stop>
    ensures { let held = job_of job.now sim.now.setup.numbers in
        Does (moves.frame_put held sim.now.setup number sim.now.places
        ++ moves.trace_put held sim.now.setup number sim.now.notes end) result
        (world (S.state shelf.old) (C.state console.old))
        (world (S.state shelf.new) (C.state console.new)) }
{
    let setup = sim.setup();
    put_frame(alloc, shelf, console, job, setup, sim.places(), number)?;
    put_trace(alloc, shelf, console, job, setup, number, sim.notes(), end)
}

/// Writes the places of a frame, one per node, where frames go to files.
pub fn put_frame<S: Shelf, C: Sink>(
    alloc: Global,
    shelf: &mut S,
    console: &mut C,
    job: &Job,
    setup: &Setup,
    places: &Places,
    number: u32,
) -> Result<(), Stop>
    requires built { IsSetup setup.now }
    requires placed { length places.now ≡ length setup.now.mesh.numbers }
    ensures { Does (moves.frame_put (job_of job.now setup.now.numbers) setup.now number places.now)
        result
        (world (S.state shelf.old) (C.state console.old))
        (world (S.state shelf.new) (C.state console.new)) }
{
    match job.out {
        Some(out) => put_places(
            alloc, shelf, console, out, job.digits, setup, places, number,
        ),
        None => Ok(()),
    }
}

// Writes the places of a frame to a file.
fn put_places<S: Shelf, C: Sink>(
    alloc: Global,
    shelf: &mut S,
    console: &mut C,
    out: &str,
    digits: Digits,
    setup: &Setup,
    places: &Places,
    number: u32,
) -> Result<(), Stop>
    requires built { IsSetup setup.now }
    requires placed { length places.now ≡ length setup.now.mesh.numbers }
    ensures { Does (Put (moves.frame_name out.now number)
        (frame_text setup.now.mesh places.now digits.count) ∷ []) result
        (world (S.state shelf.old) (C.state console.old))
        (world (S.state shelf.new) (C.state console.new)) }
{
    let name = frame_name(alloc, out, number)?;
    let text = frame_text(alloc, &setup.mesh, places, digits)?;
    put(alloc, shelf, console, &name, &text)
}

// Writes the trace of a frame, where traces go to files.
fn put_trace<S: Shelf, C: Sink>(
    alloc: Global,
    shelf: &mut S,
    console: &mut C,
    job: &Job,
    setup: &Setup,
    number: u32,
    steps: &[Step],
    end: FrameEnd,
) -> Result<(), Stop>
    ensures { Does (moves.trace_put (job_of job.now setup.now.numbers) setup.now number steps.now end)
        result
        (world (S.state shelf.old) (C.state console.old))
        (world (S.state shelf.new) (C.state console.new)) }
{
    match job.trace {
        Some(trace) => put_steps(
            alloc,
            shelf,
            console,
            trace,
            &setup.mesh,
            number,
            steps,
            end,
        ),
        None => Ok(()),
    }
}

// Writes the trace of a frame to a file.
fn put_steps<S: Shelf, C: Sink>(
    alloc: Global,
    shelf: &mut S,
    console: &mut C,
    trace: &str,
    mesh: &Mesh,
    number: u32,
    steps: &[Step],
    end: FrameEnd,
) -> Result<(), Stop>
    ensures { Does (Put (moves.trace_name trace.now number)
        (trace_text mesh.now number steps.now end) ∷ []) result
        (world (S.state shelf.old) (C.state console.old))
        (world (S.state shelf.new) (C.state console.new)) }
{
    let name = trace_name(alloc, trace, number)?;
    let text = frame_trace(alloc, mesh, number, steps, end)?;
    put(alloc, shelf, console, &name, &text)
}

// Says the line of a frame, and its sums where frames go to no file.
fn say_frame<C: Sink>(
    alloc: Global,
    console: &mut C,
    job: &Job,
    places: &Places,
    number: u32,
    end: FrameEnd,
) -> Result<(), Stop>
    ensures { (s : ShelfState) (numbers : Numbers) →
        Does (Say (lines.Frame number end) ∷ moves.sum_said (job_of job.now numbers) places.now) result
        (world s (C.state console.old)) (world s (C.state console.new)) }
{
    say(alloc, console, &Line::Frame { frame: number, end })?;
    say_sum(alloc, console, job, places)
}

// Says the sums of the places of a frame, where frames go to no file.
fn say_sum<C: Sink>(alloc: Global, console: &mut C, job: &Job, places: &Places) -> Result<(), Stop>
    ensures { (s : ShelfState) (numbers : Numbers) →
        Does (moves.sum_said (job_of job.now numbers) places.now) result
        (world s (C.state console.old)) (world s (C.state console.new)) }
{
    match job.out {
        Some(_) => Ok(()),
        None => say(alloc, console, &sum_line(places)),
    }
}
