//! What the adjugate is. A law is a function that does nothing, whose contract is the law.
ghost use Rattle.std.specs.Prelude.{◌≡◌};
ghost use Rattle.vec_q.specs.Matrices.{M3, product_of, adjugate, determinant_of, unit_times};

/// The adjugate times the matrix is the determinant times the unit matrix, on either side.
pub fn adjugate_gives_the_determinant()
    ensures left { (m : M3) → product_of (adjugate m) m ≡ unit_times (determinant_of m) }
    ensures right { (m : M3) → product_of m (adjugate m) ≡ unit_times (determinant_of m) }
{}
