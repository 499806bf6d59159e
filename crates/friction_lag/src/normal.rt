//! Lengths and unit vectors.
ghost use Rattle.std.specs.Prelude.{◌≡◌, ◌≤◌, ◌<◌, ◌^◌, All, pos, unsigned_abs};
ghost use Rattle.space3.specs.Vectors.{AtMost, squared_length};
ghost use Rattle.vec_q.specs.Raws.{raws};
ghost use Rattle.vec_q.specs.Rows.{components};
ghost use Rattle.nearest.specs.declared.limits.TheConstants.{ONE};
ghost use Rattle.friction_lag.specs.Contacts.{length_of, normal_of, unit_along};

use fixed_log::isqrt;
use num_q::Q;
use vec_q::VecQ;

/// The unit vector along a way, with 16 fraction bits, and 0 where the way has no length.
pub fn normal_of(way: VecQ<16, 34>) -> [i64; 3]
    ensures value { result ≡ components (normal_of (raws way)) }
    ensures unit { All (AtMost ONE) result }
{
    let length = length_of(way.widened_into());
    [
        unit_along(length, way.x),
        unit_along(length, way.y),
        unit_along(length, way.z),
    ]
}

/// The length of a vector, rounded down. No component is greater.
pub fn length_of(a: VecQ<16, 41>) -> u64
    ensures value { result ≡ length_of (raws a) }
    ensures small { result < 2 ^ 42 }
    ensures x { unsigned_abs a.x.raw ≤ result }
    ensures y { unsigned_abs a.y.raw ≤ result }
    ensures z { unsigned_abs a.z.raw ≤ result }
{
    isqrt(squared_length(a))
}

fn squared_length(a: VecQ<16, 41>) -> u128
    ensures value { pos result ≡ squared_length (raws a) }
    ensures small { result < 2 ^ 84 }
{
    let square: Q<32, 84> = a.dot_into(a);
    square.raw() as u128
}

fn unit_along(length: u64, c: Q<16, 34>) -> i64
    requires { unsigned_abs c.raw ≤ length }
    ensures value { result ≡ unit_along length c.raw }
    ensures unit { AtMost ONE result }
{
    if length == 0 {
        return 0;
    }
    let length: Q<16, 65> = Q::of_raw(length as i128);
    let quotient: Q<16, 50> = c.div_floor_into::<16, 16, 65, 16, 50>(length);
    quotient.raw() as i64
}
