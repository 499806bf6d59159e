//! A point and a triangle.
ghost use Rattle.std.specs.Prelude.{◌≡◌, ◌↔◌, IsTrue, List, [], ◌∷◌, pos, ◌+ℤ◌, ◌-ℤ◌, ◌≤ℤ◌};
ghost use Rattle.space3.specs.declared.vectors.V3.{V3};
ghost use Rattle.vec_q.specs.Raws.{raws};
ghost use Rattle.nearest.specs.Candidates.{IsValid};
ghost use Rattle.nearest.specs.PointAndTriangle.{border_candidates, face_by, triangle_candidates};
ghost use Rattle.near_pair.specs.Answers.{IsFirstLeastOf, IsBounded, Tells};
ghost use Rattle.near_pair.specs.Calls.Choices.{IsFound, face_of};
ghost use Rattle.near_pair.specs.Calls.Ways.{AreWaysOf};

use crate::choices::{alone, earlier, foot_from, inner_share, is_positive, near_found, with_edge};
use crate::found::{Face, Found, Side, TriangleWays};
use crate::near::{Near, near_of};
use num_q::Q;
use vec_q::VecQ;

/// The nearest points of a point and a triangle, by the ways between them.
pub fn nearest_of_triangle(ways: &TriangleWays) -> Near
    ensures answer { (p a b c : V3) → AreWaysOf ways.now p a b c →
        IsFirstLeastOf (triangle_candidates p a b c) result }
    ensures bounded { IsBounded result }
{
    let face = face_from(ways);
    if is_inside(face) {
        return near_inside(face);
    }
    near_found(nearest_on_border(ways))
}

// The foot of the point on the triangle's plane.
fn face_from(ways: &TriangleWays) -> Face
    ensures { face_of result ≡ face_by (raws ways.now.from_a) (raws ways.now.ab) (raws ways.now.ac) }
{
    let r = ways.from_a;
    let normal: VecQ<0, 37> = ways.ab.cross_into(ways.ac);
    let towards_b: VecQ<0, 37> = r.cross_into(ways.ac);
    let towards_c: VecQ<0, 37> = ways.ab.cross_into(r);
    let den: Q<0, 76> = normal.dot_into(normal);
    let of_b: Q<0, 76> = towards_b.dot_into(normal);
    let of_c: Q<0, 76> = towards_c.dot_into(normal);
    let less_b: Q<0, 77> = den.sub_into(of_b);
    Face {
        of_a: less_b.sub_into(of_c),
        of_b,
        of_c,
        height: r.dot_into(normal),
        den,
    }
}

fn is_inside(face: Face) -> bool
    ensures { IsTrue result ↔ IsValid (face_of face) }
{
    if !is_positive(face.of_a) {
        return false;
    }
    if !is_positive(face.of_b) {
        return false;
    }
    is_positive(face.of_c)
}

// The nearest points where the foot is inside.
fn near_inside(face: Face) -> Near
    requires { IsValid (face_of face) }
    ensures told { Tells result (face_of face) }
    ensures bounded { IsBounded result }
{
    let of_b = inner_share(face.of_b, face.den);
    let of_c = inner_share(face.of_c, face.den);
    let weights = [65536, rest_of(of_b, of_c), of_b, of_c];
    near_of(face.height.mul_into(face.height), face.den, weights)
}

// What is left of 65536.
fn rest_of(of_b: i64, of_c: i64) -> i64
    requires b_low { pos 0 ≤ℤ of_b }
    requires b_high { of_b ≤ℤ pos 65536 }
    requires c_low { pos 0 ≤ℤ of_c }
    requires c_high { of_c ≤ℤ pos 65536 }
    ensures { result ≡ pos 65536 -ℤ (of_b +ℤ (of_c +ℤ pos 0)) }
{
    65536 - (of_b + of_c)
}

// The nearest point of the triangle's border.
fn nearest_on_border(ways: &TriangleWays) -> Found
    ensures { (p a b c : V3) → AreWaysOf ways.now p a b c →
        IsFound result (border_candidates p a b c) }
{
    let at_c = alone(ways.from_c, [65536, 0, 0, 65536]);
    let at_b = earlier(alone(ways.from_b, [65536, 0, 65536, 0]), at_c);
    let at_a = earlier(alone(ways.from_a, [65536, 65536, 0, 0]), at_b);
    let on_bc = with_edge(Side::Bc, foot_from(ways.from_b, ways.bc), at_a);
    let on_ac = with_edge(Side::Ac, foot_from(ways.from_a, ways.ac), on_bc);
    with_edge(Side::Ab, foot_from(ways.from_a, ways.ab), on_ac)
}
