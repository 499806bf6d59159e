//! Energy, gradient and block.
ghost use Rattle.std.specs.Prelude.{◌≡◌, ◌↔◌, IsTrue, ◌<◌, ◌^◌, ◌*ℤ◌, ◌≤ℤ◌, pos, map, All, slice_index_or, unsigned_abs};
ghost use Rattle.whole_laws.specs.Ranges.{IsFrom};
ghost use Rattle.num_q.specs.Rounding.{cut_of, floor_of};
ghost use Rattle.space3.specs.Box.{IsInTheBox};
ghost use Rattle.space3.specs.Vectors.{AtMost};
ghost use Rattle.vec_q.specs.Matrices.{unit_times};
ghost use Rattle.vec_q.specs.Raws.{raws};
ghost use Rattle.vec_q.specs.Rows.{components, rows_of};
ghost use Rattle.nearest.specs.declared.limits.TheConstants.{ONE};
ghost use Rattle.nearest.specs.Cancelling.{AlmostCancel};
ghost use Rattle.nearest.specs.SignedWeights.{AreBalanced};
ghost use Rattle.surface_mesh.specs.declared.ranges.TheConstants.{MOST_FRICTION, MOST_SLIP};
ghost use Rattle.friction_lag.specs.Contacts.{length_of};
ghost use Rattle.friction_lag.specs.Friction.{drag_of, pull, pull_at, slide_of, slip_of, smooth_length};
ghost use Rattle.friction_lag.specs.Friction.{friction_block, friction_energy, friction_gradient};
ghost use Rattle.friction_lag.specs.Lagged.{lagged_in};

use crate::contacts::Contact;
use crate::normal::length_of;
use crate::slide::slide_of;
use crate::smooth::{slip_of, smooth_length, smooth_rate};
use near_pair::weight_at;
use num_q::Q;
use space3::V3;
use vec_q::VecQ;

/// The energy of friction at these places. `friction` is the coefficient in 256ths, from 0 to 1024; `slip`, from 1 to
/// 1024 grid units per frame, is the slide below which friction is smooth.
pub fn friction_energy(c: &Contact, friction: i64, slip: i64, x: &[V3; 4]) -> i128
    requires friction { IsFrom (pos 0) MOST_FRICTION friction }
    requires slip { IsFrom (pos 1) MOST_SLIP slip }
    requires placed { All IsInTheBox x.now }
    ensures value { result ≡ friction_energy (lagged_in c.now) friction slip x.now }
    ensures least { friction_energy (lagged_in c.now) friction slip c.now.from ≤ℤ result }
    ensures small { unsigned_abs result < 2 ^ 90 }
{
    energy_number(c, friction, slip, x).raw()
}

fn energy_number(c: &Contact, friction: i64, slip: i64, x: &[V3; 4]) -> Q<1, 90>
    requires friction { IsFrom (pos 0) MOST_FRICTION friction }
    requires slip { IsFrom (pos 1) MOST_SLIP slip }
    requires placed { All IsInTheBox x.now }
    ensures value { result.raw ≡ friction_energy (lagged_in c.now) friction slip x.now }
    ensures least { friction_energy (lagged_in c.now) friction slip c.now.from ≤ℤ result.raw }
{
    if is_unloaded(c, friction) {
        return Q::of_raw(0);
    }
    let y = length_of(slide_of(c, x));
    energy_along(load_of(c, friction), smooth_length(y, slip_of(slip)))
}

// Load times the smooth length.
fn energy_along(load: Q<9, 70>, length: Q<16, 42>) -> Q<1, 90>
    ensures { result.raw ≡ cut_of 90 (floor_of (load.raw *ℤ length.raw) (pos (2 ^ 24))) }
{
    let exact: Q<25, 112> = load.mul_into(length);
    let whole: Q<1, 112> = exact.rescale_into();
    whole.cut_into()
}

// The coefficient times the force.
fn load_of(c: &Contact, friction: i64) -> Q<9, 70>
    requires { IsFrom (pos 0) MOST_FRICTION friction }
    ensures value { result.raw ≡ friction *ℤ c.now.force }
    ensures not_negative { pos 0 ≤ℤ result.raw }
{
    let friction: Q<8, 11> = Q::of_raw(friction as i128);
    let force: Q<1, 60> = Q::of_raw(c.force);
    let exact: Q<9, 71> = friction.mul_into(force);
    exact.narrowed_into()
}

// Whether the coefficient or the force is 0, so that there is no friction.
pub(crate) fn is_unloaded(c: &Contact, friction: i64) -> bool
    requires { IsFrom (pos 0) MOST_FRICTION friction }
    ensures { IsTrue result ↔ friction *ℤ c.now.force ≡ pos 0 }
{
    load_of(c, friction).raw() == 0
}

/// The gradient of friction at each of the four points. Along each axis the four numbers add up to 0 but for
/// roundings. Ranges are those of the energy.
pub fn friction_gradient(c: &Contact, friction: i64, slip: i64, x: &[V3; 4]) -> [[i128; 3]; 4]
    requires friction { IsFrom (pos 0) MOST_FRICTION friction }
    requires slip { IsFrom (pos 1) MOST_SLIP slip }
    requires placed { All IsInTheBox x.now }
    ensures value { result ≡ map components (friction_gradient (lagged_in c.now) friction slip x.now) }
    ensures cancelling { AlmostCancel
        (friction_gradient (lagged_in c.now) friction slip x.now) }
{
    if is_unloaded(c, friction) {
        return [[0; 3]; 4];
    }
    let slide = slide_of(c, x);
    let drag = drag_of(c, friction, slip, slide);
    pulls(drag, slide, &c.signed)
}

// The force of friction over the slide.
pub(crate) fn drag_of(c: &Contact, friction: i64, slip: i64, slide: VecQ<16, 41>) -> Q<17, 80>
    requires friction { IsFrom (pos 0) MOST_FRICTION friction }
    requires slip { IsFrom (pos 1) MOST_SLIP slip }
    ensures { result.raw ≡ drag_of (lagged_in c.now) friction slip (raws slide) }
{
    let rate = smooth_rate(length_of(slide), slip_of(slip));
    drag_along(load_of(c, friction), rate)
}

fn drag_along(load: Q<9, 70>, rate: Q<24, 26>) -> Q<17, 80>
    requires not_negative { pos 0 ≤ℤ rate.raw }
    requires bound { rate.raw ≤ℤ pos (2 ^ 25) }
    ensures { result.raw ≡ floor_of (load.raw *ℤ rate.raw) (pos (2 ^ 16)) }
{
    let exact: Q<33, 96> = load.mul_into(rate);
    let small: Q<33, 95> = exact.narrowed_into();
    small.shifted_into::<16, 17, 80>()
}

// The gradient at the points with these signed weights.
fn pulls(drag: Q<17, 80>, slide: VecQ<16, 41>, signed: &[i64; 4]) -> [[i128; 3]; 4]
    requires each { All (AtMost ONE) signed.now }
    requires balanced { AreBalanced signed.now }
    ensures value { result ≡ map components (map (pull_at drag.raw (raws slide)) signed.now) }
    ensures cancelling { AlmostCancel (map (pull_at drag.raw (raws slide)) signed.now) }
{
    [
        pull_at(drag, slide, signed, 0),
        pull_at(drag, slide, signed, 1),
        pull_at(drag, slide, signed, 2),
        pull_at(drag, slide, signed, 3),
    ]
}

fn pull_at(drag: Q<17, 80>, slide: VecQ<16, 41>, signed: &[i64; 4], k: usize) -> [i128; 3]
    requires each { All (AtMost ONE) signed.now }
    requires index { k < 4 }
    ensures { result ≡ components (pull_at drag.raw (raws slide) (slice_index_or signed.now k (pos 0))) }
{
    let weight = weight_at(signed, k);
    [
        pull(drag, slide.x, weight),
        pull(drag, slide.y, weight),
        pull(drag, slide.z, weight),
    ]
}

fn pull(drag: Q<17, 80>, slide: Q<16, 41>, weight: Q<16, 17>) -> i128
    ensures { result ≡ pull drag.raw slide.raw weight.raw }
{
    let exact: Q<33, 121> = drag.mul_into(slide);
    let force: Q<1, 90> = exact.shifted_into::<32, 1, 90>();
    let weighted: Q<17, 107> = force.mul_into(weight);
    let whole: Q<1, 107> = weighted.rescale_into();
    whole.cut_into::<90>().raw()
}

/// The block of the points `i` and `j`: on its diagonal, for the whole identity and not the contact's plane alone.
/// Ranges are those of the energy.
pub fn friction_block(
    c: &Contact,
    friction: i64,
    slip: i64,
    x: &[V3; 4],
    i: u8,
    j: u8,
) -> [[i128; 3]; 3]
    requires friction { IsFrom (pos 0) MOST_FRICTION friction }
    requires slip { IsFrom (pos 1) MOST_SLIP slip }
    requires placed { All IsInTheBox x.now }
    requires first { i < 4 }
    requires second { j < 4 }
    ensures { result ≡ rows_of
        (friction_block (lagged_in c.now) friction slip x.now i j) }
{
    let drag = drag_of(c, friction, slip, slide_of(c, x));
    let first = weight_at(&c.signed, i as usize);
    let second = weight_at(&c.signed, j as usize);
    unit_times(entry(drag, first, second))
}

pub(crate) fn entry(drag: Q<17, 80>, first: Q<16, 17>, second: Q<16, 17>) -> Q<1, 86>
    ensures { result.raw ≡ cut_of 86 (floor_of (drag.raw *ℤ first.raw *ℤ second.raw) (pos (2 ^ 48))) }
{
    let part: Q<33, 97> = drag.mul_into(first);
    let exact: Q<49, 114> = part.mul_into(second);
    let whole: Q<1, 114> = exact.rescale_into();
    whole.cut_into()
}

// The unit matrix times a number.
pub(crate) fn unit_times(k: Q<1, 86>) -> [[i128; 3]; 3]
    ensures { result ≡ rows_of (unit_times k.raw) }
{
    [[k.raw(), 0, 0], [0, k.raw(), 0], [0, 0, k.raw()]]
}
