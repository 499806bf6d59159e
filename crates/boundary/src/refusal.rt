//! Why a mesh has no surface.
ghost use Rattle.std.specs.Prelude.{◌≡◌};
ghost use Rattle.boundary.specs.declared.refusal.SurfErr.TheVariants.{Memory};

use std::alloc::{AllocError, AllocFailed};

/// Why no surface was built: memory was wanting, or the mesh is refused. Tetrahedra are named by their positions in
/// the mesh.
#[derive(Clone, Copy, Debug, PartialEq, Eq)]
pub enum SurfErr {
    Memory,
    /// The first three tetrahedra of the least face that three or more have.
    FaceThrice { tets: [u32; 3] },
    /// The two tetrahedra of the least face that two have in the same turn, so that they lie on one side of it.
    FaceSame { tets: [u32; 2] },
    /// How many triangles there are, where they are above the limit.
    TooManyTriangles { count: u64 },
}

impl From<AllocError> for SurfErr {
    ghost from_gives = { λ _ e. e ≡ Memory };

    fn from(_: AllocError) -> Self {
        SurfErr::Memory
    }
}

impl<T: Drop> From<AllocFailed<T>> for SurfErr {
    ghost from_gives = { λ _ e. e ≡ Memory };

    fn from(_: AllocFailed<T>) -> Self {
        SurfErr::Memory
    }
}
