//! Straight ways between places, and directions that are halved.
ghost use Rattle.std.specs.Prelude.{◌≡◌, ℕ, ◌*◌, ◌^◌, ◌≤◌, pos, ◌+ℤ◌, ◌*ℤ◌, int_div};
ghost use Rattle.space3.specs.Vectors.{AtMost, Within, between, multiple, sum_of};
ghost use Rattle.space3.specs.Moved.{halved};

use crate::places::BOX_LIMIT;
use crate::vectors::V3;

/// The finest scale of a straight way, 2^8 parts: certificates divide a step into no more.
pub const SCALE_LIMIT: u8 = 8;

/// The greatest absolute value of a component of a place in the box at the finest scale, 2^20 times 2^8.
pub const FINE_LIMIT: u32 = 268_435_456;

/// The greatest absolute value of a component of a direction, in grid units: less than the box is wide, 2^21.
pub const DIRECTION_LIMIT: u32 = 2_097_151;

/// How often a direction is halved at most: after 20 halvings a component is 1, 0 or -1, and the next would leave
/// nothing.
pub const HALVING_LIMIT: u8 = 20;

/// The place at the fraction `j / 2^k` of the straight way from `x0` to `x1`, times `2^k`: in grid units where k is 0,
/// in 1/256 grid unit where k is 8. Both ends are in the box; k is at most
/// [`SCALE_LIMIT`] and j at most `2^k`.
pub fn at_scale(x0: V3, x1: V3, j: u32, k: u8) -> V3
    requires depth { k ≤ SCALE_LIMIT }
    requires within { j ≤ 2 ^ k }
    requires start { Within BOX_LIMIT x0 }
    requires end { Within BOX_LIMIT x1 }
    ensures value { result ≡ between j (2 ^ k) x0 x1 }
    ensures bound { Within FINE_LIMIT result }
{
    sum_of(multiple(power(k) - j, x0), multiple(j, x1))
}

// k times the vector.
fn multiple(k: u32, a: V3) -> V3
    requires few { k ≤ 2 ^ SCALE_LIMIT }
    requires near { Within BOX_LIMIT a }
    ensures value { result ≡ multiple (pos k) a }
    ensures bound { Within (k * BOX_LIMIT) result }
{
    V3 {
        x: product(k, a.x),
        y: product(k, a.y),
        z: product(k, a.z),
    }
}

// k times a.
fn product(k: u32, a: i64) -> i64
    requires few { k ≤ 2 ^ SCALE_LIMIT }
    requires near { AtMost BOX_LIMIT a }
    ensures value { result ≡ pos k *ℤ a }
    ensures bound { AtMost (k * BOX_LIMIT) result }
{
    k as i64 * a
}

// 2^k.
fn power(k: u8) -> u32
    requires { k ≤ SCALE_LIMIT }
    ensures value { result ≡ 2 ^ k }
    ensures few { result ≤ 2 ^ SCALE_LIMIT }
{
    1 << k
}

// The sum of two vectors.
pub(crate) fn sum_of(a: V3, b: V3) -> V3
    requires left { Within FINE_LIMIT a }
    requires right { Within FINE_LIMIT b }
    ensures { result ≡ sum_of a b }
{
    V3 {
        x: plus(a.x, b.x),
        y: plus(a.y, b.y),
        z: plus(a.z, b.z),
    }
}

fn plus(a: i64, b: i64) -> i64
    requires left { AtMost FINE_LIMIT a }
    requires right { AtMost FINE_LIMIT b }
    ensures { result ≡ a +ℤ b }
{
    a + b
}

/// The direction, divided by 2 so many times, at most [`HALVING_LIMIT`]; each component is cut towards zero.
pub fn halved(d: V3, half: u8) -> V3
    requires { half ≤ HALVING_LIMIT }
    ensures { result ≡ halved half d }
{
    V3 {
        x: cut(d.x, half),
        y: cut(d.y, half),
        z: cut(d.z, half),
    }
}

fn cut(a: i64, half: u8) -> i64
    requires { half ≤ HALVING_LIMIT }
    ensures { result ≡ int_div a (pos (2 ^ half)) }
{
    a / (1 << half)
}
