//! How far the parts of a contact slid.
ghost use Rattle.std.specs.Prelude.{◌≡◌, ◌<◌, ◌^◌, ◌-ℤ◌, ◌*ℤ◌, pos, All, slice_index_or};
ghost use Rattle.num_q.specs.Rounding.{floor_of};
ghost use Rattle.space3.specs.Box.{IsInTheBox};
ghost use Rattle.space3.specs.Mesh.{place_of};
ghost use Rattle.space3.specs.Vectors.{AtMost, Within, difference, multiple};
ghost use Rattle.vec_q.specs.Raws.{raws};
ghost use Rattle.vec_q.specs.Rows.{vector_of};
ghost use Rattle.nearest.specs.declared.limits.TheConstants.{ONE};
ghost use Rattle.friction_lag.specs.Friction.{across, motion_of, slide_of};
ghost use Rattle.friction_lag.specs.Lagged.{lagged_in};

use crate::contacts::Contact;
use near_pair::weight_at;
use num_q::Q;
use space3::V3;
use vec_q::{VecQ, edge_between};

/// The slide in the contact's plane since the frame began.
pub fn slide_of(c: &Contact, x: &[V3; 4]) -> VecQ<16, 41>
    requires { All IsInTheBox x.now }
    ensures { raws result ≡ slide_of (lagged_in c.now) x.now }
{
    across(normal_number(&c.normal), motion_of(c, x))
}

fn normal_number(normal: &[i64; 3]) -> VecQ<16, 17>
    requires { All (AtMost ONE) normal.now }
    ensures value { raws result ≡ vector_of normal.now }
    ensures unit { Within ONE (vector_of normal.now) }
{
    VecQ {
        x: Q::of_raw(normal[0] as i128),
        y: Q::of_raw(normal[1] as i128),
        z: Q::of_raw(normal[2] as i128),
    }
}

// How far the first part moved past the second.
fn motion_of(c: &Contact, x: &[V3; 4]) -> VecQ<16, 39>
    requires { All IsInTheBox x.now }
    ensures value { raws result ≡ motion_of (lagged_in c.now) x.now }
    ensures bound { Within (2 ^ 38) (raws result) }
{
    let two: VecQ<16, 40> = weighted_motion(c, x, 2).add_into(weighted_motion(c, x, 3));
    let three: VecQ<16, 41> = weighted_motion(c, x, 1).add_into(two);
    let all: VecQ<16, 42> = weighted_motion(c, x, 0).add_into(three);
    all.narrowed_into()
}

fn weighted_motion(c: &Contact, x: &[V3; 4], k: usize) -> VecQ<16, 39>
    requires placed { All IsInTheBox x.now }
    requires index { k < 4 }
    ensures { raws result ≡ multiple (slice_index_or c.now.signed k (pos 0))
        (difference (place_of x.now k) (place_of c.now.from k)) }
{
    let way: VecQ<0, 22> = edge_between(c.from[k], x[k]);
    way.scale_into(weight_at(&c.signed, k))
}

// A motion without its part along the normal.
fn across(normal: VecQ<16, 17>, motion: VecQ<16, 39>) -> VecQ<16, 41>
    requires unit { Within ONE (raws normal) }
    requires bound { Within (2 ^ 38) (raws motion) }
    ensures { raws result ≡ across (raws normal) (raws motion) }
{
    let along: Q<32, 58> = motion.dot_into(normal);
    let slide: VecQ<16, 76> = VecQ {
        x: rest(motion.x, normal.x, along),
        y: rest(motion.y, normal.y, along),
        z: rest(motion.z, normal.z, along),
    };
    slide.narrowed_into()
}

fn rest(motion: Q<16, 39>, normal: Q<16, 17>, along: Q<32, 58>) -> Q<16, 76>
    ensures { result.raw ≡ motion.raw -ℤ floor_of (along.raw *ℤ normal.raw) (pos (2 ^ 32)) }
{
    let exact: Q<48, 75> = along.mul_into(normal);
    let part: Q<16, 75> = exact.rescale_into();
    motion.sub_into(part)
}
