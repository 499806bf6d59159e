//! The nearest points.
ghost use Rattle.std.specs.Prelude.{◌≡◌, List, [], ◌∷◌, pos, ◌≤ℤ◌, ◌<ℤ◌};
ghost use Rattle.space3.specs.Mesh.{place_of};
ghost use Rattle.nearest.specs.Close.{AreClose};
ghost use Rattle.nearest.specs.Hulls.{NoneIsNearer};
ghost use Rattle.nearest.specs.PointAndTriangle.{vt_candidates};
ghost use Rattle.nearest.specs.RoundedWeights.{AreOfTwoParts};
ghost use Rattle.nearest.specs.TwoEdges.{ee_candidates};
ghost use Rattle.near_pair.specs.Answers.{IsFirstLeastOf, IsBounded, near_between};
ghost use Rattle.near_pair.specs.Calls.Ways.{AreEdgeWaysOf, AreWaysOf};

use crate::edges::nearest_of_edges;
use crate::found::{EdgeWays, TriangleWays};
use crate::triangles::nearest_of_triangle;
use num_q::Q;
use space3::V3;
use vec_q::edge_between;

/// The nearest points of two parts of four points in all: their squared distance `num / den`, in squared grid units,
/// and their weights on the points, the first part's first. A weight of 1 is 65536.
#[derive(Clone, Copy, PartialEq, Eq, Debug)]
pub struct Near {
    pub num: u128,
    pub den: u128,
    pub weights: [i64; 4],
}

/// The nearest points of a point and a triangle, in grid units, whose edges are short and whose boxes have a small
/// gap. They are the first of seven candidates that is least: the foot on the plane, on the edges from the first
/// corner to the second and the third and from the second to the third, and the corners. Triangles without an area
/// are allowed. The first part is the point.
pub fn near_vt(p: V3, t: &[V3; 3]) -> Near
    requires close { AreClose (p ∷ []) t.now }
    ensures value { result ≡ near_between (p ∷ []) t.now }
    ensures answer { IsFirstLeastOf (vt_candidates p t.now) result }
    ensures least { NoneIsNearer (pos result.num) (pos result.den) (p ∷ []) t.now }
    ensures bounded { IsBounded result }
    ensures weights { AreOfTwoParts 1 result.weights }
{
    nearest_of_triangle(&triangle_ways(p, t))
}

fn triangle_ways(p: V3, t: &[V3; 3]) -> TriangleWays
    requires { AreClose (p ∷ []) t.now }
    ensures { AreWaysOf result p (place_of t.now 0) (place_of t.now 1) (place_of t.now 2) }
{
    TriangleWays {
        from_a: edge_between(t[0], p),
        from_b: edge_between(t[1], p),
        from_c: edge_between(t[2], p),
        ab: edge_between(t[0], t[1]),
        ac: edge_between(t[0], t[2]),
        bc: edge_between(t[1], t[2]),
    }
}

/// The nearest points of two edges, in grid units, that are short and whose boxes have a small gap. They are the first
/// of nine candidates that is least: the insides of both, an end of the first with the second, an end of the second
/// with the first, and two ends. Edges without a length and parallel ones are allowed. The first part is the first
/// edge.
pub fn near_ee(a: &[V3; 2], b: &[V3; 2]) -> Near
    requires close { AreClose a.now b.now }
    ensures value { result ≡ near_between a.now b.now }
    ensures answer { IsFirstLeastOf (ee_candidates a.now b.now) result }
    ensures least { NoneIsNearer (pos result.num) (pos result.den) a.now b.now }
    ensures bounded { IsBounded result }
    ensures weights { AreOfTwoParts 2 result.weights }
{
    nearest_of_edges(&edge_ways(a, b))
}

fn edge_ways(a: &[V3; 2], b: &[V3; 2]) -> EdgeWays
    requires { AreClose a.now b.now }
    ensures { AreEdgeWaysOf result (place_of a.now 0) (place_of a.now 1) (place_of b.now 0)
        (place_of b.now 1) }
{
    EdgeWays {
        a: edge_between(a[0], a[1]),
        b: edge_between(b[0], b[1]),
        b0_to_a0: edge_between(b[0], a[0]),
        b0_to_a1: edge_between(b[0], a[1]),
        b1_to_a0: edge_between(b[1], a[0]),
        b1_to_a1: edge_between(b[1], a[1]),
        a0_to_b0: edge_between(a[0], b[0]),
        a0_to_b1: edge_between(a[0], b[1]),
    }
}

/// The nearest points with these numbers.
pub fn near_of(num: Q<0, 114>, den: Q<0, 76>, weights: [i64; 4]) -> Near
    requires not_negative { pos 0 ≤ℤ num.raw }
    requires positive { pos 0 <ℤ den.raw }
    ensures num { pos result.num ≡ num.raw }
    ensures den { pos result.den ≡ den.raw }
    ensures weights { result.weights ≡ weights }
    ensures bounded { IsBounded result }
{
    Near {
        num: num.raw() as u128,
        den: den.raw() as u128,
        weights,
    }
}
