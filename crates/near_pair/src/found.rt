//! Ways between the points of a pair, and candidates, as the code holds them. Differences of points of close parts are
//! below 2^18 along each axis.
ghost use Rattle.std.specs.Prelude.{◌≡◌, pos, ◌+ℤ◌, ◌<ℤ◌, ◌≤ℤ◌};

use num_q::Q;
use vec_q::VecQ;

/// The way from one point to another, in grid units.
pub type Way = VecQ<0, 18>;

/// The ways from the corners of a triangle to a point, and those of its edges.
#[derive(Clone, Copy)]
pub struct TriangleWays {
    pub from_a: Way,
    pub from_b: Way,
    pub from_c: Way,
    pub ab: Way,
    pub ac: Way,
    pub bc: Way,
}

/// Two edges, and the ways between their ends.
#[derive(Clone, Copy)]
pub struct EdgeWays {
    pub a: Way,
    pub b: Way,
    pub b0_to_a0: Way,
    pub b0_to_a1: Way,
    pub b1_to_a0: Way,
    pub b1_to_a1: Way,
    pub a0_to_b0: Way,
    pub a0_to_b1: Way,
}

/// The foot of a point on the line through two others: the weights of these over `den`, and the squared distance.
#[derive(Clone, Copy)]
pub struct FootQ {
    pub start: Q<0, 39>,
    pub end: Q<0, 38>,
    pub num: Q<0, 76>,
    pub den: Q<0, 38>,
    pub ghost total: { start.raw +ℤ end.raw ≡ den.raw },
    pub ghost not_negative: { pos 0 ≤ℤ num.raw },
}

/// The foot of a point on the plane of a triangle: the weights of its corners over `den`.
#[derive(Clone, Copy)]
pub struct Face {
    pub of_a: Q<0, 78>,
    pub of_b: Q<0, 76>,
    pub of_c: Q<0, 76>,
    pub height: Q<0, 57>,
    pub den: Q<0, 76>,
    pub ghost total: { of_a.raw +ℤ of_b.raw +ℤ of_c.raw ≡ den.raw },
}

/// The feet of the common perpendicular of two edges: the weights of their ends over `den`.
#[derive(Clone, Copy)]
pub struct Inner {
    pub of_a0: Q<0, 77>,
    pub of_a1: Q<0, 76>,
    pub of_b0: Q<0, 77>,
    pub of_b1: Q<0, 76>,
    pub height: Q<0, 57>,
    pub den: Q<0, 76>,
    pub ghost total_a: { of_a0.raw +ℤ of_a1.raw ≡ den.raw },
    pub ghost total_b: { of_b0.raw +ℤ of_b1.raw ≡ den.raw },
}

/// A valid candidate with its rounded weights.
#[derive(Clone, Copy)]
pub struct Found {
    pub num: Q<0, 76>,
    pub den: Q<0, 38>,
    pub weights: [i64; 4],
    pub ghost not_negative: { pos 0 ≤ℤ num.raw },
    pub ghost divisor: { pos 0 <ℤ den.raw },
}

/// An edge on which a foot may be: one of a triangle, or the edge against an end of another.
#[derive(Clone, Copy)]
pub enum Side {
    Ab,
    Ac,
    Bc,
    FromA0,
    FromA1,
    FromB0,
    FromB1,
}
