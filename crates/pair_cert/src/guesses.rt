//! Vectors that may separate two parts, from cheap sums and products. No clause says that one does, since each is tried
//! before it is taken; products wrap where they are too great. Places are those halfway, times 2.
ghost use Rattle.std.specs.Prelude.{◌≡◌, ◌^◌, ◌<◌};
ghost use Rattle.space3.specs.declared.vectors.TheConstants.{VECTOR_LIMIT};
ghost use Rattle.space3.specs.Vectors.{AtMost, Within};

use crate::moves::RelativeMoves;
use space3::{V3, VECTOR_LIMIT};

// The leading zeros of a number that is below the limit of a vector.
const SPARE_BITS: u32 = 34;

// The difference of the centres of both parts.
pub fn centre_difference(moves: &RelativeMoves) -> V3
    ensures { Within VECTOR_LIMIT result }
{
    let mut sum = V3 { x: 0, y: 0, z: 0 };
    for i in 0..moves.count {
        sum = plus(sum, halfway(moves, i));
    }
    shrunk(sum)
}

// How many products of edges there are to try.
pub fn normal_count(moves: &RelativeMoves) -> usize {
    match moves.count {
        0..=2 => 0,
        3..=5 => 1,
        _ => 4,
    }
}

// The cross product of two edges, on the side of the difference of centres: the normal of a triangle, or a vector
// across an edge of each part.
pub fn normal(moves: &RelativeMoves, centres: V3, k: usize) -> V3
    ensures { Within VECTOR_LIMIT result }
{
    let across = match k {
        0 => cross(edge(moves, 0), edge(moves, 1)),
        1 => cross(edge(moves, 0), edge(moves, 3)),
        2 => cross(edge(moves, 1), edge(moves, 3)),
        _ => cross(edge(moves, 2), edge(moves, 3)),
    };
    shrunk(towards(across, centres))
}

// How many edges there are to try.
pub fn edge_count(moves: &RelativeMoves) -> usize {
    match moves.count {
        0..=2 => 1,
        3 => 3,
        4..=5 => 2,
        _ => 4,
    }
}

// What is left of the difference of centres across an edge: a vector at a right angle to the edge.
pub fn perpendicular(moves: &RelativeMoves, centres: V3, k: usize) -> V3
    ensures { Within VECTOR_LIMIT result }
{
    let edge = shrunk(edge(moves, k));
    shrunk(cross(edge, shrunk(cross(centres, edge))))
}

// The edge of a part, from the points of the other as they see it.
fn edge(moves: &RelativeMoves, k: usize) -> V3 {
    match k {
        0 => minus(halfway(moves, 1), halfway(moves, 0)),
        1 => minus(halfway(moves, 2), halfway(moves, 0)),
        2 => minus(halfway(moves, 2), halfway(moves, 1)),
        _ => minus(halfway(moves, 3), halfway(moves, 0)),
    }
}

fn halfway(moves: &RelativeMoves, i: usize) -> V3
    requires { i < 8 }
{
    let m = moves.at[i];
    plus(m.start, m.end)
}

// The vector or its opposite, on the side of the difference of centres.
fn towards(n: V3, centres: V3) -> V3 {
    if product(n, centres) < 0 {
        minus(V3 { x: 0, y: 0, z: 0 }, n)
    } else {
        n
    }
}

// The vector, halved until it is small enough.
fn shrunk(n: V3) -> V3
    ensures { Within VECTOR_LIMIT result }
{
    let size = n.x.unsigned_abs() | n.y.unsigned_abs() | n.z.unsigned_abs();
    let half = SPARE_BITS.saturating_sub(size.leading_zeros());
    V3 {
        x: cut(n.x, half),
        y: cut(n.y, half),
        z: cut(n.z, half),
    }
}

fn cut(a: i64, half: u32) -> i64
    requires { half < 64 }
    ensures { AtMost VECTOR_LIMIT result }
{
    let most = i64::from(VECTOR_LIMIT);
    (a >> half).clamp(-most, most)
}

fn plus(a: V3, b: V3) -> V3 {
    V3 {
        x: a.x.wrapping_add(b.x),
        y: a.y.wrapping_add(b.y),
        z: a.z.wrapping_add(b.z),
    }
}

fn minus(a: V3, b: V3) -> V3 {
    V3 {
        x: a.x.wrapping_sub(b.x),
        y: a.y.wrapping_sub(b.y),
        z: a.z.wrapping_sub(b.z),
    }
}

fn product(a: V3, b: V3) -> i64 {
    a.x.wrapping_mul(b.x)
        .wrapping_add(a.y.wrapping_mul(b.y))
        .wrapping_add(a.z.wrapping_mul(b.z))
}

fn cross(a: V3, b: V3) -> V3 {
    V3 {
        x: minor(a.y, a.z, b.y, b.z),
        y: minor(a.z, a.x, b.z, b.x),
        z: minor(a.x, a.y, b.x, b.y),
    }
}

fn minor(a: i64, b: i64, c: i64, d: i64) -> i64 {
    a.wrapping_mul(d).wrapping_sub(b.wrapping_mul(c))
}
