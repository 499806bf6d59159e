//! What each command does.
ghost use Rattle.std.specs.Prelude.{◌≡◌, ◌⊎◌, ◌+◌, Some, option_map};
ghost use Rattle.surface_mesh.specs.Materials.{AreNumbers};
ghost use Rattle.ipc_top.specs.Acts.{world};
ghost use Rattle.ipc_top.specs.CallsFor.{CommandCallsFor};
ghost use Rattle.ipc_top.specs.Commands as commands;
ghost use Rattle.ipc_top.specs.Jobs as jobs;
ghost use Rattle.ipc_top.specs.Calls.Plans.{Obeys, status_of};

use crate::acts::Stop;
use crate::blocks::Blocks;
use crate::grids::Digits;
use crate::job::{Job, do_job};
use crate::mesh::{MESH_LIMIT, bodies_of_mesh};
use crate::motion::show_motion;
use crate::refusals::End;
use crate::scene::{SCENE_LIMIT, take_scene};
use dec_text::Snap;
use scene_toml::NameText;
use shelf_io::{Shelf, Sink};
use space3::V3;
use std::alloc::Global;
use surface_mesh::{Material, Numbers, PartList};
use work_gen::stack_scene;

/// Checks the mesh of a file, read with so many digits: says its size and writes its frame 0 under the name `out`, or
/// says why it is refused.
pub fn check<'a, S: Shelf, C: Sink>(
    alloc: Global,
    shelf: &mut S,
    console: &mut C,
    digits: Digits,
    mesh: &'a str,
    out: &'a str,
) -> Result<u8, End>
    ensures obeys { let command = commands.Check digits.count mesh.now out.now in
        Obeys (CommandCallsFor (Some command)) result
        (world (S.state shelf.old) (C.state console.old))
        (world (S.state shelf.new) (C.state console.new)) }
    ensures too_long { status_of result ≡ 10 → (S.state shelf.new).taken ≡ MESH_LIMIT + 1 }
{
    let job = Job {
        mesh,
        out: Some(out),
        trace: None,
        digits,
        snap: Snap::Nearest,
        tol: 0,
        budget: 1,
        frames: 0,
    };
    do_job(alloc, shelf, console, &job, check_numbers(alloc))
}

const ORIGIN: V3 = V3 { x: 0, y: 0, z: 0 };

// The numbers with which a mesh is checked.
fn check_numbers(alloc: Global) -> Numbers
    ensures same { result ≡ jobs.check_numbers }
    ensures in_range { AreNumbers result }
{
    Numbers {
        base: Material {
            density: 1,
            mu: 0,
            lambda: 0,
            fixed: false,
            velocity: ORIGIN,
        },
        parts: PartList::of_vec(Vec::new(alloc)),
        kappa: 1,
        dhat: 2,
        friction: 0,
        slip: 1,
        gravity: ORIGIN,
    }
}

/// Runs the scene of a file: takes it and does its job, or says why it is refused.
pub fn run<S: Shelf, C: Sink>(
    alloc: Global,
    shelf: &mut S,
    console: &mut C,
    name: &str,
) -> Result<u8, End>
    ensures obeys { Obeys (CommandCallsFor (Some (commands.RunScene name.now))) result
        (world (S.state shelf.old) (C.state console.old))
        (world (S.state shelf.new) (C.state console.new)) }
    ensures too_long { status_of result ≡ 10 → ((S.state shelf.new).taken ≡ SCENE_LIMIT + 1)
        ⊎ ((S.state shelf.new).taken ≡ MESH_LIMIT + 1) }
{
    let scene = take_scene(alloc, shelf, console, name)?;
    let numbers = scene.numbers;
    let job = Job {
        mesh: scene.mesh.text(),
        out: Some(scene.out.text()),
        trace: text_of(&scene.trace),
        digits: Digits {
            count: scene.digits,
        },
        snap: scene.snap,
        tol: scene.tol,
        budget: scene.budget,
        frames: scene.frames,
    };
    do_job(alloc, shelf, console, &job, numbers)
}

// The text of a name, if there is one.
fn text_of(name: &Option<NameText>) -> Option<&str>
    ensures { option_map (λ text. text.now) result ≡ name.now }
{
    match name {
        Some(name) => Some(name.text()),
        None => None,
    }
}

/// Runs the stated stack of so many blocks: says its size, its frames and their sums, or says why it is refused. It takes
/// no file and makes none.
pub fn run_stack<S: Shelf, C: Sink>(
    alloc: Global,
    shelf: &mut S,
    console: &mut C,
    blocks: Blocks,
) -> Result<u8, End>
    ensures { Obeys (CommandCallsFor (Some (commands.RunStack blocks.count))) result
        (world (S.state shelf.old) (C.state console.old))
        (world (S.state shelf.new) (C.state console.new)) }
{
    let Ok((scene, mesh)) = stack_scene(alloc, blocks.count) else {
        return Err(End::Stopped(Stop::Memory));
    };
    let numbers = scene.numbers;
    let job = Job {
        mesh: scene.mesh.text(),
        out: None,
        trace: None,
        digits: Digits {
            count: scene.digits,
        },
        snap: scene.snap,
        tol: scene.tol,
        budget: scene.budget,
        frames: scene.frames,
    };
    let setup = bodies_of_mesh(alloc, console, mesh, numbers)?;
    show_motion(alloc, shelf, console, &job, setup)
}
