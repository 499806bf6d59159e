//! The stack as a scene and a mesh.
ghost use Rattle.std.specs.Prelude.{◌≡◌, ◌≤◌, IfOk, codes};
ghost use Rattle.space3.specs.Mesh.{IsSound};
ghost use Rattle.scene_toml.specs.Scenes.{IsScene};
ghost use Rattle.work_gen.specs.Stack.{soft, stack_mesh, stack_scene};

use crate::blocks::{node_numbers, places, tets};
use dec_text::Snap;
use scene_toml::{NameText, Scene};
use space3::{Mesh, NodeNumbers, Places, TetList, V3};
use std::alloc::{AllocError, Global};
use surface_mesh::{Material, Numbers, PartList};

/// The most blocks of the stack.
pub const MOST_BLOCKS: u32 = 512;

const ORIGIN: V3 = V3 { x: 0, y: 0, z: 0 };

/// The stack of so many blocks, 1 to 512, as a scene and a mesh. Each block is a cube with an edge of 100 grid units and
/// a gap of 10 above the one below; the lowest is held, and the others fall.
pub fn stack_scene(alloc: Global, blocks: u32) -> Result<(Scene, Mesh), AllocError>
    requires some { 1 ≤ blocks }
    requires few { blocks ≤ MOST_BLOCKS }
    ensures scene { IfOk result (λ made. made.0 ≡ stack_scene) }
    ensures mesh { IfOk result (λ made. made.1 ≡ stack_mesh blocks) }
    ensures in_range { IfOk result (λ made. IsScene made.0) }
    ensures sound { IfOk result (λ made. IsSound made.1) }
{
    let scene = stated_scene(alloc)?;
    let mesh = stated_mesh(alloc, blocks)?;
    Ok((scene, mesh))
}

fn stated_mesh(alloc: Global, blocks: u32) -> Result<Mesh, AllocError>
    requires { blocks ≤ MOST_BLOCKS }
    ensures { IfOk result (λ mesh. mesh ≡ stack_mesh blocks) }
{
    let numbers = node_numbers(alloc, blocks)?;
    let places = places(alloc, blocks)?;
    let tets = tets(alloc, blocks)?;
    Ok(Mesh {
        numbers: NodeNumbers::of_vec(numbers),
        places: Places::of_list(alloc, &places)?.unwrap(),
        tets: TetList::of_vec(tets),
    })
}

fn stated_scene(alloc: Global) -> Result<Scene, AllocError>
    ensures scene { IfOk result (λ scene. scene ≡ stack_scene) }
    ensures in_range { IfOk result IsScene }
{
    Ok(Scene {
        mesh: gen_name(alloc)?,
        out: gen_name(alloc)?,
        digits: 0,
        snap: Snap::Nearest,
        frames: 1,
        budget: 20,
        tol: 1_000_000,
        trace: None,
        numbers: stated_numbers(alloc)?,
    })
}

fn gen_name(alloc: Global) -> Result<NameText, AllocError>
    ensures { IfOk result (λ name. name ≡ codes "gen") }
{
    Ok(NameText::of_text(String::from_str(alloc, "gen")?))
}

fn stated_numbers(alloc: Global) -> Result<Numbers, AllocError>
    ensures { IfOk result (λ numbers. numbers ≡ stack_scene.numbers) }
{
    let mut parts = Vec::new(alloc);
    parts.push((1, material(true)))?;
    Ok(Numbers {
        base: material(false),
        parts: PartList::of_vec(parts),
        kappa: 65_536,
        dhat: 16,
        friction: 64,
        slip: 2,
        gravity: V3 {
            x: 0,
            y: 0,
            z: -256,
        },
    })
}

fn material(fixed: bool) -> Material
    ensures { result ≡ record soft { fixed = fixed } }
{
    Material {
        density: 1,
        mu: 2000,
        lambda: 2000,
        fixed,
        velocity: ORIGIN,
    }
}
