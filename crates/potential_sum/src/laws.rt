//! What the definitions say. A law is a function that does nothing, whose contract is the law.
ghost use Rattle.std.specs.Prelude.{◌≡◌, ℕ, List};
ghost use Rattle.space3.specs.declared.vectors.V3.{V3};
ghost use Rattle.vec_q.specs.Matrices.{transposed};
ghost use Rattle.surface_mesh.specs.declared.setup.Setup.{Setup};
ghost use Rattle.potential_sum.specs.Matrix.{matrix};
ghost use Rattle.potential_sum.specs.Terms.{FrameTerms};

/// The matrix is symmetric, roundings and all: the block of two nodes is the transposed block of the same two in the
/// other order.
pub fn the_matrix_is_symmetric()
    ensures { (setup : Setup) (frame : FrameTerms) (places : List V3) (i j : ℕ) →
        matrix setup frame places j i ≡ transposed (matrix setup frame places i j) }
{}
