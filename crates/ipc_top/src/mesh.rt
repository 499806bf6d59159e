//! The mesh of a file, and the bodies that it makes.
ghost use Rattle.std.specs.Prelude.{IfOk, Err};
ghost use Rattle.boundary.specs.Refusals.{Refuses};
ghost use Rattle.surface_mesh.specs.declared.materials.Numbers.{Numbers};
ghost use Rattle.shelf_io.specs.Shelf.{ShelfState};
ghost use Rattle.space3.specs.Mesh.{IsSound};
ghost use Rattle.surface_mesh.specs.Materials.{AreNumbers};
ghost use Rattle.surface_mesh.specs.Setup.{HasSurface, setup_of};
ghost use Rattle.ipc_top.specs.Acts.{world};
ghost use Rattle.ipc_top.specs.Meshes.{MeshMakes, MeshMeans, SetupMeans};
ghost use Rattle.ipc_top.specs.Calls.Files.{Takes, LooksThrough};
ghost use Rattle.ipc_top.specs.Calls.Jobs.{AreFit, job_of};

use crate::acts::Stop;
use crate::files::take_file;
use crate::job::Job;
use crate::numbered::{same_line, thrice_line};
use crate::refusals::{End, refuse, refuse_defect};
use boundary::{SurfErr, Surface};
use mesh_check::first_defect;
use msh_text::{ReadMshErr, read_msh};
use report_text::Line;
use shelf_io::{Shelf, Sink};
use space3::Mesh;
use std::alloc::Global;
use surface_mesh::{Numbers, Setup};

/// The most bytes that a mesh file may have: 2^28, enough for the greatest mesh with long decimals and tags.
pub const MESH_LIMIT: u64 = 268_435_456;

/// Takes and reads the mesh of a job and makes its bodies, or says why it is refused: 6 for the text's first fault and
/// for a surface that is refused, 7 for a defect, 10 for a file that is too long.
pub fn take_mesh<S: Shelf, C: Sink>(
    alloc: Global,
    shelf: &mut S,
    console: &mut C,
    job: &Job,
    numbers: Numbers,
) -> Result<Setup, End>
    requires { AreNumbers numbers }
    ensures takes { Takes job.now.mesh.now MESH_LIMIT (MeshMeans (job_of job.now numbers)) result
        (world (S.state shelf.old) (C.state console.old))
        (world (S.state shelf.new) (C.state console.new)) }
    ensures fit { IfOk result AreFit }
{
    let bytes = take_file(alloc, shelf, console, job.mesh, MESH_LIMIT)?;
    bodies_of_bytes(alloc, console, &bytes, job, numbers)
}

// Reads the bytes of a job's mesh file.
fn bodies_of_bytes<C: Sink>(
    alloc: Global,
    console: &mut C,
    bytes: &[u8],
    job: &Job,
    numbers: Numbers,
) -> Result<Setup, End>
    requires { AreNumbers numbers }
    ensures looks { (s : ShelfState) →
        LooksThrough (MeshMeans (job_of job.now numbers) bytes.now) result
        (world s (C.state console.old)) (world s (C.state console.new)) }
    ensures fit { IfOk result AreFit }
{
    match read_msh(alloc, bytes, job.digits.count, job.snap) {
        Ok(mesh) => bodies_of_mesh(alloc, console, mesh, numbers),
        Err(ReadMshErr::Memory) => Err(End::Stopped(Stop::Memory)),
        Err(ReadMshErr::Text(fault)) => Err(refuse(
            alloc,
            console,
            &Line::MeshText { err: fault },
            6,
        )),
    }
}

/// Makes the surface of a mesh, and then its bodies, or says why they are refused: 6 for the surface, 7 for a defect.
pub fn bodies_of_mesh<C: Sink>(
    alloc: Global,
    console: &mut C,
    mesh: Mesh,
    numbers: Numbers,
) -> Result<Setup, End>
    requires sound { IsSound mesh }
    requires in_range { AreNumbers numbers }
    ensures looks { (s : ShelfState) → LooksThrough (MeshMakes numbers mesh) result
        (world s (C.state console.old)) (world s (C.state console.new)) }
    ensures fit { IfOk result AreFit }
{
    match Surface::build(alloc, &mesh) {
        Ok(surface) => bodies_with_surface(alloc, console, mesh, surface, numbers),
        Err(err) => Err(end_without_surface(alloc, console, &mesh, err)),
    }
}

// Ends the command where a mesh has no surface.
fn end_without_surface<C: Sink>(alloc: Global, console: &mut C, mesh: &Mesh, err: SurfErr) -> End
    requires { Refuses mesh.now err }
    ensures { (numbers : Numbers) (s : ShelfState) → LooksThrough (MeshMakes numbers mesh.now) (Err result)
        (world s (C.state console.old)) (world s (C.state console.new)) }
{
    match err {
        SurfErr::Memory => End::Stopped(Stop::Memory),
        SurfErr::FaceThrice { tets } => refuse(alloc, console, &thrice_line(mesh, &tets), 6),
        SurfErr::FaceSame { tets } => refuse(alloc, console, &same_line(mesh, &tets), 6),
        SurfErr::TooManyTriangles { count } => {
            refuse(alloc, console, &Line::Triangles { count }, 6)
        }
    }
}

// Makes the bodies of a mesh with its surface, and looks for a defect.
fn bodies_with_surface<C: Sink>(
    alloc: Global,
    console: &mut C,
    mesh: Mesh,
    surface: Surface,
    numbers: Numbers,
) -> Result<Setup, End>
    requires sound { IsSound mesh }
    requires surface { HasSurface mesh surface }
    requires in_range { AreNumbers numbers }
    ensures looks { (s : ShelfState) →
        LooksThrough (SetupMeans (setup_of mesh surface numbers)) result
        (world s (C.state console.old)) (world s (C.state console.new)) }
    ensures fit { IfOk result AreFit }
{
    let Ok(setup) = Setup::build(alloc, mesh, surface, numbers) else {
        return Err(End::Stopped(Stop::Memory));
    };
    let Ok(found) = first_defect(alloc, &setup) else {
        return Err(End::Stopped(Stop::Memory));
    };
    match found {
        Some(defect) => Err(refuse_defect(alloc, console, &setup, defect)),
        None => Ok(setup),
    }
}
