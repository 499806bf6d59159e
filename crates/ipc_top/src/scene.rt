//! The scene of a file.
ghost use Rattle.std.specs.Prelude.{IfOk};
ghost use Rattle.shelf_io.specs.Shelf.{ShelfState};
ghost use Rattle.scene_toml.specs.Scenes.{IsScene};
ghost use Rattle.ipc_top.specs.Acts.{world};
ghost use Rattle.ipc_top.specs.CallsFor.{SceneMeans};
ghost use Rattle.ipc_top.specs.Calls.Files.{Takes, LooksThrough};

use crate::acts::Stop;
use crate::files::take_file;
use crate::refusals::{End, refuse};
use report_text::Line;
use scene_toml::{ReadSceneErr, Scene, read_scene};
use shelf_io::{Shelf, Sink};
use std::alloc::Global;

/// The most bytes that a scene file may have: 2^20, far more than any scene needs.
pub const SCENE_LIMIT: u64 = 1_048_576;

/// Takes and reads the scene of a file, or says why it is refused: 5 for a fault of the scene, 10 for a file that is
/// too long.
pub fn take_scene<S: Shelf, C: Sink>(
    alloc: Global,
    shelf: &mut S,
    console: &mut C,
    name: &str,
) -> Result<Scene, End>
    ensures takes { Takes name.now SCENE_LIMIT SceneMeans result
        (world (S.state shelf.old) (C.state console.old))
        (world (S.state shelf.new) (C.state console.new)) }
    ensures in_range { IfOk result IsScene }
{
    let bytes = take_file(alloc, shelf, console, name, SCENE_LIMIT)?;
    scene_of_bytes(alloc, console, &bytes)
}

// Reads the bytes of a scene file.
fn scene_of_bytes<C: Sink>(alloc: Global, console: &mut C, bytes: &[u8]) -> Result<Scene, End>
    ensures looks { (s : ShelfState) → LooksThrough (SceneMeans bytes.now) result
        (world s (C.state console.old)) (world s (C.state console.new)) }
    ensures in_range { IfOk result IsScene }
{
    match read_scene(alloc, bytes) {
        Ok(scene) => Ok(scene),
        Err(ReadSceneErr::Memory) => Err(End::Stopped(Stop::Memory)),
        Err(ReadSceneErr::Scene(err)) => Err(refuse(alloc, console, &Line::Scene { err }, 5)),
    }
}
