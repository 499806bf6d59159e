//! The edges of a tetrahedron.
ghost use Rattle.std.specs.Prelude.{◌≡◌};
ghost use Rattle.volume_cert.specs.Tetrahedra.{AreShortEdges, edges_from_first};
ghost use Rattle.volume_cert.specs.Calls.Raws.{edge_vectors};

use space3::V3;
use vec_q::{VecQ, edge_between};

/// The greatest component of an edge of a tetrahedron in motion, in grid units: 17 bits hold it, so that its determinant
/// has 54 bits, and a coefficient after eight halvings 88.
pub const LONGEST_EDGE: u32 = 65_536;

/// The three edges from a tetrahedron's first corner to the others, in their order.
#[derive(Clone, Copy)]
pub struct ThreeEdges {
    pub u: VecQ<0, 17>,
    pub v: VecQ<0, 17>,
    pub w: VecQ<0, 17>,
}

// The edges from the first corner to the others.
pub fn edges_from_first(corners: &[V3; 4]) -> ThreeEdges
    requires { AreShortEdges (edges_from_first corners.now) }
    ensures { edge_vectors result ≡ edges_from_first corners.now }
{
    let first = corners[0];
    ThreeEdges {
        u: edge_between(first, corners[1]),
        v: edge_between(first, corners[2]),
        w: edge_between(first, corners[3]),
    }
}
