//! A worked case. A law is a function that does nothing, whose contract is the law.
ghost use Rattle.std.specs.Prelude.{◌≡◌, pos, neg_ℤ};
ghost use Rattle.space3.specs.Vectors.{origin, vector};
ghost use Rattle.vec_q.specs.Matrices.{unit_times};
ghost use Rattle.inertia_term.specs.Inertia.{inertia_block, inertia_energy, inertia_gradient, target_of};

/// A node of mass 1000000 that came to the origin by 3 grid units along x and is pulled down by 8: its target, its energy,
/// its gradient and its block.
pub fn a_node_falls()
    ensures target { target_of (vector (pos 0) (pos 0) (neg_ℤ (pos 2048))) origin
        (vector (neg_ℤ (pos 3)) (pos 0) (pos 0)) ≡ vector (pos 768) (pos 0) (neg_ℤ (pos 2048)) }
    ensures energy { inertia_energy (pos 1000000) origin
        (vector (pos 768) (pos 0) (neg_ℤ (pos 2048))) ≡ pos 73000000 }
    ensures gradient { inertia_gradient (pos 1000000) origin
        (vector (pos 768) (pos 0) (neg_ℤ (pos 2048))) ≡ vector (neg_ℤ (pos 6000000)) (pos 0) (pos 16000000) }
    ensures block { inertia_block (pos 1000000) ≡ unit_times (pos 2000000) }
{}

/// The energy and the gradient of a node that is 1/256 grid unit from its target are rounded down.
pub fn inertia_is_rounded_down()
    ensures energy { inertia_energy (pos 1000000) origin (vector (pos 0) (pos 0) (pos 1)) ≡ pos 15 }
    ensures gradient { inertia_gradient (pos 1000000) origin (vector (pos 0) (pos 0) (pos 1)) ≡
        vector (pos 0) (pos 0) (neg_ℤ (pos 7813)) }
{}
