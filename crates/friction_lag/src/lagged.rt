//! How a contact is made.
ghost use Rattle.std.specs.Prelude.{◌≡◌, ◌<◌, ◌*◌, ◌^◌, All, pos, neg_ℤ, ◌*ℤ◌, ◌≤ℤ◌, unsigned_abs};
ghost use Rattle.num_q.specs.Rounding.{cut_of, floor_of};
ghost use Rattle.fixed_log.specs.Root.{root_of};
ghost use Rattle.space3.specs.Box.{IsInTheBox};
ghost use Rattle.near_pair.specs.Answers.{IsBounded, IsOn, squared_distance};
ghost use Rattle.friction_lag.specs.Contacts.{contact_of, force_of};
ghost use Rattle.friction_lag.specs.Lagged.{lagged_in};

use crate::contacts::Contact;
use crate::normal::normal_of;
use fixed_log::isqrt;
use near_pair::Near;
use num_q::Q;
use space3::V3;

/// The contact of a pair that is nearer than dhat: `near` are the nearest points of the places `from`, of which the
/// first part has `split`, and `slope` is that of the barrier, above −2^73 and at most 0.
pub fn contact(near: &Near, slope: i128, split: u8, nodes: [u32; 4], from: [V3; 4]) -> Contact
    requires bounded { IsBounded near.now }
    requires active { squared_distance near.now < 2 ^ 28 }
    requires on { IsOn split from near.now }
    requires placed { All IsInTheBox from }
    requires pulling { slope ≤ℤ pos 0 }
    requires slope { unsigned_abs slope < 2 ^ 73 }
    ensures { lagged_in result ≡ contact_of near.now slope split nodes from }
{
    let signed = near.signed_weights(split);
    let normal = normal_of(near.way(split, &from));
    let force = force_of(Q::of_raw(slope), near).raw();
    Contact {
        nodes,
        signed,
        from,
        force,
        normal,
    }
}

// The force across the contact: minus the slope, times the distance.
fn force_of(slope: Q<8, 73>, near: &Near) -> Q<1, 60>
    requires bounded { IsBounded near.now }
    requires active { squared_distance near.now < 2 ^ 28 }
    requires pulling { slope.raw ≤ℤ pos 0 }
    ensures value { result.raw ≡ force_of slope.raw near.now }
    ensures not_negative { pos 0 ≤ℤ result.raw }
{
    let exact: Q<16, 91> = slope.neg().mul_into(distance_of(near));
    let whole: Q<1, 91> = exact.rescale_into();
    whole.cut_into()
}

// The distance of the nearest points, in grid units.
fn distance_of(near: &Near) -> Q<8, 18>
    requires bounded { IsBounded near.now }
    requires active { squared_distance near.now < 2 ^ 28 }
    ensures value { result.raw ≡ pos (root_of (256 * squared_distance near.now)) }
    ensures not_negative { pos 0 ≤ℤ result.raw }
{
    Q::of_raw(root_of_distance(near) as i128)
}

fn root_of_distance(near: &Near) -> u64
    requires bounded { IsBounded near.now }
    requires active { squared_distance near.now < 2 ^ 28 }
    ensures value { result ≡ root_of (256 * squared_distance near.now) }
    ensures small { result < 2 ^ 18 }
{
    isqrt(256 * near.squared_distance())
}
