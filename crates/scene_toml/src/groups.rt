//! Keys of a scene that are read together.
ghost use Rattle.toml.specs.View.{table_view};
ghost use Rattle.scene_toml.specs.Calls.{files_in, forces_in, frames_in};
ghost use Rattle.scene_toml.specs.Gives.{Gives};

use crate::keys::{
    BUDGET, DHAT, DIGITS, FRAMES, FRICTION, GRAVITY, KAPPA, MESH, OUT, SLIP, SNAP, Section, TOL,
};
use crate::refusal::ReadSceneErr;
use crate::texts::NameText;
use crate::values::{ORIGIN, integer_at, integer_or_at, snap_at, text_at, vector_at};
use dec_text::Snap;
use space3::V3;
use std::alloc::Global;
use toml::Table;

/// Which mesh is read on which grid, and where the frames go.
#[derive(Drop)]
pub(crate) struct FileKeys {
    pub mesh: NameText,
    pub out: NameText,
    pub digits: u8,
    pub snap: Snap,
}

/// How many frames there are, and when each has converged.
#[derive(Clone, Copy)]
pub(crate) struct FrameKeys {
    pub frames: u32,
    pub budget: u32,
    pub tol: i64,
}

/// Gravity, and the numbers of contact and friction.
#[derive(Clone, Copy)]
pub(crate) struct ForceKeys {
    pub gravity: V3,
    pub dhat: i64,
    pub kappa: i64,
    pub friction: i64,
    pub slip: i64,
}

/// The names of a scene's files, and the grid.
pub(crate) fn files_in(alloc: Global, table: &Table) -> Result<FileKeys, ReadSceneErr>
    ensures { Gives result (files_in (table_view table.now)) }
{
    let mesh = text_at(alloc, Section::Top, &MESH, table)?;
    let out = text_at(alloc, Section::Top, &OUT, table)?;
    let digits = integer_at(alloc, Section::Top, &DIGITS, table)?;
    let snap = snap_at(alloc, Section::Top, &SNAP, Snap::Nearest, table)?;
    Ok(FileKeys {
        mesh,
        out,
        digits: digits as u8,
        snap,
    })
}

/// What a scene says of its frames.
pub(crate) fn frames_in(alloc: Global, table: &Table) -> Result<FrameKeys, ReadSceneErr>
    ensures { Gives result (frames_in (table_view table.now)) }
{
    let frames = integer_at(alloc, Section::Top, &FRAMES, table)?;
    let budget = integer_at(alloc, Section::Top, &BUDGET, table)?;
    let tol = integer_at(alloc, Section::Top, &TOL, table)?;
    Ok(FrameKeys {
        frames: frames as u32,
        budget: budget as u32,
        tol,
    })
}

/// What a scene says of the forces on its bodies.
pub(crate) fn forces_in(alloc: Global, table: &Table) -> Result<ForceKeys, ReadSceneErr>
    ensures { Gives result (forces_in (table_view table.now)) }
{
    let gravity = vector_at(alloc, Section::Top, &GRAVITY, ORIGIN, table)?;
    let dhat = integer_at(alloc, Section::Top, &DHAT, table)?;
    let kappa = integer_at(alloc, Section::Top, &KAPPA, table)?;
    let friction = integer_or_at(alloc, Section::Top, &FRICTION, 0, table)?;
    let slip = integer_or_at(alloc, Section::Top, &SLIP, 1, table)?;
    Ok(ForceKeys {
        gravity,
        dhat,
        kappa,
        friction,
        slip,
    })
}
