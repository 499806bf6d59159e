//! The top call.
ghost use Rattle.std.specs.Prelude.{◌≡◌, ◌⊎◌, ◌∷◌, [], ◌+◌, List, ℕ, map, None, Some, IfSome, string_bytes};
ghost use Rattle.shelf_io.specs.Shelf.{Files, Rose};
ghost use Rattle.ipc_top.specs.Acts.{world};
ghost use Rattle.ipc_top.specs.CallsFor.{CallsFor};
ghost use Rattle.ipc_top.specs.Commands.{RunStack, command_of};
ghost use Rattle.ipc_top.specs.Ends.{IsOneOf, IsStatus, IsInput, Ends, Completes};
ghost use Rattle.ipc_top.specs.Motions.{IsSafeThroughout};
ghost use Rattle.ipc_top.specs.Plans.{Plan};
ghost use Rattle.ipc_top.specs.Roles.{Seen, everywhere};
ghost use Rattle.ipc_top.specs.Calls.Plans.{Obeys, status_of};

use crate::acts::Stop;
use crate::commands::{check, run, run_stack};
use crate::mesh::MESH_LIMIT;
use crate::refusals::{End, refuse};
use crate::scene::SCENE_LIMIT;
use crate::words::{Command, command_of};
use report_text::Line;
use shelf_io::{Shelf, Sink};
use std::alloc::Global;

/// Does all that the program does, and answers its status. `words` are those after the program's name.
///
/// `check DIGITS MESH OUT` reads the mesh of a file with so many digits after the point, one from 0 to 9, and writes its
/// frame 0 to the file `OUT_0000.msh`.
/// `run SCENE` reads the scene of a file and its mesh, and writes frame 0 and the frames that follow, each with its trace
/// where the scene names one.
/// `gen N` runs one frame of the stated stack of N blocks, 1 to 512, and says the sums of its coordinates.
///
/// | status | comes |
/// |---|---|
/// | 0 | all frames are shown, and each that follows frame 0 converged |
/// | 1 | all frames are shown, and some stalled or spent its budget |
/// | 2 | the words are no command |
/// | 3 | the shelf failed at a file that was to be read, or has none of that name |
/// | 4 | the shelf failed at the file of a frame or of a trace |
/// | 5 | the scene is refused |
/// | 6 | the mesh text has a fault, or the mesh has no surface |
/// | 7 | the mesh has a defect: a tetrahedron that isn't positive, is thin or long, a node that is too heavy, or a pair of parts of the surface that meet |
/// | 8 | memory was wanting |
/// | 9 | the console failed |
/// | 10 | the scene file has more than 1048576 bytes, or the mesh file more than 268435456 |
pub fn ipc_run<S: Shelf, C: Sink>(
    alloc: Global,
    words: &[String],
    shelf: &mut S,
    console: &mut C,
) -> u8
    // Where the files are told, or the words call for none: what they call for was done, or was stopped, and bodies
    // are safe throughout the motion that was shown.
    ensures told { (files : Files)
        → IsInput (map string_bytes words.now) (S.state shelf.old).files files
        → Ends (map string_bytes words.now) (everywhere files) result
        (world (S.state shelf.old) (C.state console.old))
        (world (S.state shelf.new) (C.state console.new)) }
    // In any case so it was for what the words and some files call for.
    ensures some { (seen : Seen) × Ends (map string_bytes words.now) seen result
        (world (S.state shelf.old) (C.state console.old))
        (world (S.state shelf.new) (C.state console.new)) }
    // There are no other statuses.
    ensures answers { IsStatus result }
    // 2 comes exactly where the words are no command, unless memory was wanting or the console failed.
    ensures usage { result ≡ 2 → command_of (map string_bytes words.now) ≡ None }
    ensures no_command { command_of (map string_bytes words.now) ≡ None
        → IsOneOf (2 ∷ 8 ∷ 9 ∷ []) result }
    // The stated stack takes no file and makes none, so it ends with no status of a file.
    ensures stack { (blocks : ℕ) →
        command_of (map string_bytes words.now) ≡ Some (RunStack blocks)
        → IsOneOf (0 ∷ 1 ∷ 6 ∷ 7 ∷ 8 ∷ 9 ∷ []) result }
    // The causes of the statuses that stop a command: a device failed in this call.
    ensures read { result ≡ 3
        → Rose (S.state shelf.old).read_faults (S.state shelf.new).read_faults }
    ensures write { result ≡ 4
        → Rose (S.state shelf.old).write_faults (S.state shelf.new).write_faults }
    ensures console { result ≡ 9
        → Rose (C.state console.old).faults (C.state console.new).faults }
    // 10 comes only where so many bytes were taken.
    ensures too_long { result ≡ 10 → ((S.state shelf.new).taken ≡ SCENE_LIMIT + 1)
        ⊎ ((S.state shelf.new).taken ≡ MESH_LIMIT + 1) }
    // Where nothing fails and memory is enough, what words and files call for is done whole.
    ensures complete { Completes (map string_bytes words.now) result
        (world (S.state shelf.old) (C.state console.old))
        (world (S.state shelf.new) (C.state console.new)) }
{
    status(do_command(alloc, words, shelf, console))
}

// Does what the words ask for.
fn do_command<S: Shelf, C: Sink>(
    alloc: Global,
    words: &[String],
    shelf: &mut S,
    console: &mut C,
) -> Result<u8, End>
    ensures obeys { Obeys (CallsFor (map string_bytes words.now)) result
        (world (S.state shelf.old) (C.state console.old))
        (world (S.state shelf.new) (C.state console.new)) }
    ensures too_long { status_of result ≡ 10 → ((S.state shelf.new).taken ≡ SCENE_LIMIT + 1)
        ⊎ ((S.state shelf.new).taken ≡ MESH_LIMIT + 1) }
{
    match command_of(words) {
        Some(Command::Check { digits, mesh, out }) => check(
            alloc, shelf, console, digits, mesh, out,
        ),
        Some(Command::RunScene { scene }) => run(alloc, shelf, console, scene),
        Some(Command::RunStack { blocks }) => run_stack(alloc, shelf, console, blocks),
        None => Err(refuse(alloc, console, &Line::Usage, 2)),
    }
}

// The status of what was done, or of what ended it.
fn status(ended: Result<u8, End>) -> u8
    ensures { result ≡ status_of ended }
{
    match ended {
        Ok(status) => status,
        Err(End::Refused(status)) => status,
        Err(End::Stopped(Stop::Read)) => 3,
        Err(End::Stopped(Stop::Write)) => 4,
        Err(End::Stopped(Stop::Console)) => 9,
        Err(End::Stopped(Stop::Memory)) => 8,
    }
}

/// A law: words and files call for at most one plan.
pub fn one_plan()
    ensures { (words : List (List ℕ)) (seen : Seen) (a b : Plan) →
        CallsFor words seen a → CallsFor words seen b → a ≡ b }
{}

/// A law: in the motion of whatever words and files call for, no pair meets and every volume is positive, at the start
/// and at every fraction of every step of every frame.
pub fn plans_are_safe()
    ensures { (words : List (List ℕ)) (seen : Seen) (plan : Plan) →
        CallsFor words seen plan → IfSome plan.motion IsSafeThroughout }
{}
