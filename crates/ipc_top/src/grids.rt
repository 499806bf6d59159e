//! The grid on which meshes are read and frames are written.
ghost use Rattle.std.specs.Prelude.{◌≤◌};
ghost use Rattle.dec_text.specs.declared.TheConstants.{FINEST_GRID};

/// How many digits after the point the coordinates of a mesh file and of frames have, 0 to 9.
#[derive(Clone, Copy)]
pub struct Digits {
    pub count: u8,
    pub ghost fine: { count ≤ FINEST_GRID },
}
