//! Two edges.
ghost use Rattle.std.specs.Prelude.{◌≡◌, ◌↔◌, IsTrue, List, [], ◌∷◌, pos, ◌+ℤ◌, ◌-ℤ◌, ◌≤ℤ◌};
ghost use Rattle.space3.specs.declared.vectors.V3.{V3};
ghost use Rattle.vec_q.specs.Raws.{raws};
ghost use Rattle.nearest.specs.Candidates.{IsValid};
ghost use Rattle.nearest.specs.TwoEdges.{corner_candidates, edges_candidates, end_candidates, inner_by};
ghost use Rattle.near_pair.specs.Answers.{IsFirstLeastOf, IsBounded, Tells};
ghost use Rattle.near_pair.specs.Calls.Choices.{IsFound, inner_of};
ghost use Rattle.near_pair.specs.Calls.Ways.{AreEdgeWaysOf};

use crate::choices::{alone, earlier, foot_from, inner_share, is_positive, near_found, with_edge};
use crate::found::{EdgeWays, Found, Inner, Side};
use crate::near::{Near, near_of};
use num_q::Q;
use vec_q::VecQ;

/// The nearest points of two edges, by the ways between their ends.
pub fn nearest_of_edges(ways: &EdgeWays) -> Near
    ensures answer { (a0 a1 b0 b1 : V3) → AreEdgeWaysOf ways.now a0 a1 b0 b1 →
        IsFirstLeastOf (edges_candidates a0 a1 b0 b1) result }
    ensures bounded { IsBounded result }
{
    let inner = inner_from(ways);
    if is_inside(inner) {
        return near_inside(inner);
    }
    near_found(nearest_with_end(ways))
}

// The feet of the common perpendicular.
fn inner_from(ways: &EdgeWays) -> Inner
    ensures { inner_of result ≡ inner_by (raws ways.now.a0_to_b0) (raws ways.now.a) (raws ways.now.b) }
{
    let r = ways.a0_to_b0;
    let normal: VecQ<0, 37> = ways.a.cross_into(ways.b);
    let towards_a1: VecQ<0, 37> = r.cross_into(ways.b);
    let towards_b1: VecQ<0, 37> = r.cross_into(ways.a);
    let den: Q<0, 76> = normal.dot_into(normal);
    let of_a1: Q<0, 76> = towards_a1.dot_into(normal);
    let of_b1: Q<0, 76> = towards_b1.dot_into(normal);
    Inner {
        of_a0: den.sub_into(of_a1),
        of_a1,
        of_b0: den.sub_into(of_b1),
        of_b1,
        height: r.dot_into(normal),
        den,
    }
}

fn is_inside(inner: Inner) -> bool
    ensures { IsTrue result ↔ IsValid (inner_of inner) }
{
    if !is_positive(inner.of_a0) {
        return false;
    }
    if !is_positive(inner.of_a1) {
        return false;
    }
    if !is_positive(inner.of_b0) {
        return false;
    }
    is_positive(inner.of_b1)
}

// The nearest points where both feet are inside.
fn near_inside(inner: Inner) -> Near
    requires { IsValid (inner_of inner) }
    ensures told { Tells result (inner_of inner) }
    ensures bounded { IsBounded result }
{
    let of_a1 = inner_share(inner.of_a1, inner.den);
    let of_b1 = inner_share(inner.of_b1, inner.den);
    let weights = [rest_of(of_a1), of_a1, rest_of(of_b1), of_b1];
    near_of(inner.height.mul_into(inner.height), inner.den, weights)
}

// What is left of 65536.
fn rest_of(of_end: i64) -> i64
    requires low { pos 0 ≤ℤ of_end }
    requires high { of_end ≤ℤ pos 65536 }
    ensures { result ≡ pos 65536 -ℤ (of_end +ℤ pos 0) }
{
    65536 - of_end
}

// The nearest pair with an end.
fn nearest_with_end(ways: &EdgeWays) -> Found
    ensures { (a0 a1 b0 b1 : V3) → AreEdgeWaysOf ways.now a0 a1 b0 b1 →
        IsFound result (end_candidates a0 a1 b0 b1) }
{
    let at_ends = nearest_of_ends(ways);
    let from_b1 = with_edge(Side::FromB1, foot_from(ways.a0_to_b1, ways.a), at_ends);
    let from_b0 = with_edge(Side::FromB0, foot_from(ways.a0_to_b0, ways.a), from_b1);
    let from_a1 = with_edge(Side::FromA1, foot_from(ways.b0_to_a1, ways.b), from_b0);
    with_edge(Side::FromA0, foot_from(ways.b0_to_a0, ways.b), from_a1)
}

// The nearer of two ends.
fn nearest_of_ends(ways: &EdgeWays) -> Found
    ensures { (a0 a1 b0 b1 : V3) → AreEdgeWaysOf ways.now a0 a1 b0 b1 →
        IsFound result (corner_candidates a0 a1 b0 b1) }
{
    let at_11 = alone(ways.b1_to_a1, [0, 65536, 0, 65536]);
    let at_10 = earlier(alone(ways.b0_to_a1, [0, 65536, 65536, 0]), at_11);
    let at_01 = earlier(alone(ways.b1_to_a0, [65536, 0, 0, 65536]), at_10);
    earlier(alone(ways.b0_to_a0, [65536, 0, 65536, 0]), at_01)
}
