//! Reading a scene.
ghost use Rattle.std.specs.Prelude.{◌≡◌, IfOk, map};
ghost use Rattle.scene_toml.specs.Parts.{with_base};
ghost use Rattle.toml.specs.View.{table_view};
ghost use Rattle.scene_toml.specs.Gives.{Gives};
ghost use Rattle.scene_toml.specs.Calls.{material_at, material_in};
ghost use Rattle.scene_toml.specs.Scenes.{IsScene, scene_in, scene_of_members, scene_of_text};

use crate::groups::{files_in, forces_in, frames_in};
use crate::keys::{DENSITY, FIXED, LAMBDA, MATERIAL, MU, Section, TRACE, VELOCITY};
use crate::parts::{PartKeys, parts_at};
use crate::refusal::{ReadSceneErr, SceneErr};
use crate::tables::{first_unknown, value_at};
use crate::texts::NameText;
use crate::values::{
    ORIGIN, bool_at, integer_at, missing, optional_text_at, vector_at, wrong_type,
};
use dec_text::Snap;
use std::alloc::{AllocError, Global};
use surface_mesh::{Material, Numbers, PartList};
use toml::Table;

/// A scene: which mesh moves under which numbers, for how many frames, and where they go.
#[derive(Drop)]
pub struct Scene {
    /// The name of the mesh's file, of 1 to 200 bytes.
    pub mesh: NameText,
    /// What the names of the frames' files begin with, of 1 to 200 bytes.
    pub out: NameText,
    /// A grid unit is 10^-digits of the mesh file's unit, 0 to 9.
    pub digits: u8,
    /// What is done with coordinates of the mesh file that aren't on this grid.
    pub snap: Snap,
    /// The number of frames after the first, at most 9999.
    pub frames: u32,
    /// The most steps of a frame, 1 to 1000.
    pub budget: u32,
    /// A frame has converged where no component of the gradient is above this in absolute value, 0 to 2^62.
    pub tol: i64,
    /// What the names of the traces' files begin with, of 1 to 200 bytes, where traces are wanted.
    pub trace: Option<NameText>,
    /// The numbers that the bodies and their contacts get.
    pub numbers: Numbers,
}

// The material that its table gives.
fn material_in(alloc: Global, table: &Table) -> Result<Material, ReadSceneErr>
    ensures { Gives result (material_in (table_view table.now)) }
{
    let density = integer_at(alloc, Section::Material, &DENSITY, table)?;
    let mu = integer_at(alloc, Section::Material, &MU, table)?;
    let lambda = integer_at(alloc, Section::Material, &LAMBDA, table)?;
    let fixed = bool_at(alloc, Section::Material, &FIXED, false, table)?;
    let velocity = vector_at(alloc, Section::Material, &VELOCITY, ORIGIN, table)?;
    Ok(Material {
        density,
        mu,
        lambda,
        fixed,
        velocity,
    })
}

fn material_at(alloc: Global, table: &Table) -> Result<Material, ReadSceneErr>
    ensures { Gives result (material_at (table_view table.now)) }
{
    let Some(value) = value_at(table, MATERIAL.name()) else {
        return Err(missing(alloc, Section::Top, &MATERIAL)?);
    };
    match value.as_table() {
        Some(table) => material_in(alloc, table),
        None => Err(wrong_type(alloc, Section::Top, &MATERIAL)?),
    }
}

// The parts with their materials.
fn part_list(alloc: Global, base: Material, parts: &[PartKeys]) -> Result<PartList, AllocError>
    ensures { IfOk result (λ list. list ≡ map (with_base base) parts.now) }
{
    let mut list = Vec::with_capacity(alloc, parts.len())?;
    for part in parts {
        list.push(with_base(base, part))?;
    }
    Ok(PartList::of_vec(list))
}

// The material of a part: the base material, with what the part has in its place.
fn with_base(base: Material, part: &PartKeys) -> (i32, Material)
    ensures { result ≡ with_base base part.now }
{
    let material = Material {
        density: part.density.unwrap_or(base.density),
        mu: part.mu.unwrap_or(base.mu),
        lambda: part.lambda.unwrap_or(base.lambda),
        fixed: part.fixed.unwrap_or(base.fixed),
        velocity: part.velocity.unwrap_or(base.velocity),
    };
    (part.tag, material)
}

// The scene that a table with no unknown key gives.
fn scene_in(alloc: Global, table: &Table) -> Result<Scene, ReadSceneErr>
    ensures { Gives result (scene_in (table_view table.now)) }
{
    let files = files_in(alloc, table)?;
    let frames = frames_in(alloc, table)?;
    let forces = forces_in(alloc, table)?;
    let trace = optional_text_at(alloc, Section::Top, &TRACE, table)?;
    let base = material_at(alloc, table)?;
    let given = parts_at(alloc, table)?;
    let parts = part_list(alloc, base, given.items())?;
    Ok(Scene {
        mesh: files.mesh,
        out: files.out,
        digits: files.digits,
        snap: files.snap,
        frames: frames.frames,
        budget: frames.budget,
        tol: frames.tol,
        trace,
        numbers: Numbers {
            base,
            parts,
            kappa: forces.kappa,
            dhat: forces.dhat,
            friction: forces.friction,
            slip: forces.slip,
            gravity: forces.gravity,
        },
    })
}

fn scene_of_table(alloc: Global, table: &Table) -> Result<Scene, ReadSceneErr>
    ensures { Gives result (scene_of_members (table_view table.now)) }
{
    match first_unknown(alloc, table)? {
        Some(key) => Err(ReadSceneErr::Scene(SceneErr::UnknownKey { key })),
        None => scene_in(alloc, table),
    }
}

/// The scene that a text means. README.md has its keys, in the order in which they are tried.
///
/// The text's first fault is found so: it isn't TOML; it has a key that no scene has, those of the top table
/// before those of `material`, each in byte order; then each key in turn is missing, of another type, or out of
/// range.
pub fn read_scene(alloc: Global, bytes: &[u8]) -> Result<Scene, ReadSceneErr>
    // The answer is the scene that the text means or its first fault, unless memory was wanting.
    ensures scene { Gives result (scene_of_text bytes.now) }
    ensures in_range { IfOk result IsScene }
{
    match toml::table_from_slice(alloc, bytes) {
        Ok(table) => scene_of_table(alloc, &table),
        Err(err) => Err(if err.is_memory() {
            ReadSceneErr::Memory
        } else {
            ReadSceneErr::Scene(SceneErr::NotToml)
        }),
    }
}
