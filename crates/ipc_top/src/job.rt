//! What a command works on, and how its work is done.
ghost use Rattle.std.specs.Prelude.{◌≡◌, ◌+◌};
ghost use Rattle.surface_mesh.specs.Materials.{AreNumbers};
ghost use Rattle.ipc_top.specs.Acts.{world};
ghost use Rattle.ipc_top.specs.CallsFor.{JobCallsFor};
ghost use Rattle.ipc_top.specs.Calls.Jobs.{job_of};
ghost use Rattle.ipc_top.specs.Calls.Plans.{Obeys, status_of};

use crate::grids::Digits;
use crate::mesh::{MESH_LIMIT, take_mesh};
use crate::motion::show_motion;
use crate::refusals::End;
use dec_text::Snap;
use shelf_io::{Shelf, Sink};
use std::alloc::Global;
use surface_mesh::Numbers;

/// What a command works on, but for the numbers of its bodies.
#[derive(Drop)]
pub struct Job<'a> {
    /// The name of the mesh's file.
    pub mesh: &'a str,
    /// What the names of the frames' files begin with, where frames go to files.
    pub out: Option<&'a str>,
    /// What the names of the traces' files begin with, where traces go to files.
    pub trace: Option<&'a str>,
    /// A grid unit is 10^-digits of the mesh file's unit.
    pub digits: Digits,
    /// What is done with coordinates of the mesh file that aren't on this grid.
    pub snap: Snap,
    /// A frame has converged where no component of the gradient is above this in absolute value.
    pub tol: i64,
    /// The most steps of a frame.
    pub budget: u32,
    /// The number of frames after frame 0.
    pub frames: u32,
}

/// Takes the mesh of a job and shows how its bodies move, or says why the mesh is refused.
pub fn do_job<S: Shelf, C: Sink>(
    alloc: Global,
    shelf: &mut S,
    console: &mut C,
    job: &Job,
    numbers: Numbers,
) -> Result<u8, End>
    requires { AreNumbers numbers }
    ensures obeys { Obeys (JobCallsFor (job_of job.now numbers)) result
        (world (S.state shelf.old) (C.state console.old))
        (world (S.state shelf.new) (C.state console.new)) }
    ensures too_long { status_of result ≡ 10 → (S.state shelf.new).taken ≡ MESH_LIMIT + 1 }
{
    let setup = take_mesh(alloc, shelf, console, job, numbers)?;
    show_motion(alloc, shelf, console, job, setup)
}
