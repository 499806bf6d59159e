//! The gradient.
ghost use Rattle.std.specs.Prelude.{◌≡◌, ◌<◌, ◌^◌, pos, ◌*ℤ◌, map, All, slice_index_or};
ghost use Rattle.whole_laws.specs.Ranges.{IsFrom};
ghost use Rattle.num_q.specs.Rounding.{cut_of, floor_of};
ghost use Rattle.space3.specs.Vectors.{AtMost};
ghost use Rattle.vec_q.specs.Raws.{raws};
ghost use Rattle.vec_q.specs.Rows.{components};
ghost use Rattle.nearest.specs.declared.limits.TheConstants.{GAP_LIMIT, ONE};
ghost use Rattle.nearest.specs.Cancelling.{AlmostCancel};
ghost use Rattle.nearest.specs.SignedWeights.{AreBalanced};
ghost use Rattle.near_pair.specs.Answers.{IsBounded, IsOn};
ghost use Rattle.barrier_term.specs.declared.active.TheConstants.{MOST_STIFFNESS};
ghost use Rattle.barrier_term.specs.Gradients.{barrier_gradient, pull_at};

use crate::active::MOST_STIFFNESS;
use crate::energy::slope_number;
use near_pair::{Near, weight_at};
use num_q::Q;
use space3::V3;
use vec_q::VecQ;

/// The gradient of the energy at each of the four points of a pair, in the order of the weights. The first part has
/// `split` points. The weights are kept as they are, so this is the gradient at fixed weights, which at the nearest
/// points is that of the distance. Along each axis the four numbers add up to 0 but for roundings.
pub fn barrier_gradient(
    kappa: i64,
    dhat: i64,
    near: &Near,
    split: u8,
    x: &[V3; 4],
) -> [[i128; 3]; 4]
    requires kappa { IsFrom (pos 0) MOST_STIFFNESS kappa }
    requires dhat { IsFrom (pos 0) (pos GAP_LIMIT) dhat }
    requires bounded { IsBounded near.now }
    requires on { IsOn split x.now near.now }
    ensures value { result ≡ map components (barrier_gradient kappa dhat near.now split x.now) }
    ensures cancelling { AlmostCancel (barrier_gradient kappa dhat near.now split x.now) }
{
    let slope = slope_number(kappa, dhat, near);
    let way = near.way(split, x);
    pulls(slope, way, &near.signed_weights(split))
}

// The gradient at the points with these signed weights.
fn pulls(slope: Q<8, 73>, way: VecQ<16, 34>, signed: &[i64; 4]) -> [[i128; 3]; 4]
    requires each { All (AtMost ONE) signed.now }
    requires balanced { AreBalanced signed.now }
    ensures value { result ≡ map components (map (pull_at slope.raw (raws way)) signed.now) }
    ensures cancelling { AlmostCancel (map (pull_at slope.raw (raws way)) signed.now) }
{
    [
        pull_at(slope, way, signed, 0),
        pull_at(slope, way, signed, 1),
        pull_at(slope, way, signed, 2),
        pull_at(slope, way, signed, 3),
    ]
}

fn pull_at(slope: Q<8, 73>, way: VecQ<16, 34>, signed: &[i64; 4], k: usize) -> [i128; 3]
    requires each { All (AtMost ONE) signed.now }
    requires index { k < 4 }
    ensures { result ≡ components (pull_at slope.raw (raws way) (slice_index_or signed.now k (pos 0))) }
{
    let weight = weight_at(signed, k);
    let scaled: Q<24, 90> = slope.mul_into(weight);
    [
        pull(scaled, way.x),
        pull(scaled, way.y),
        pull(scaled, way.z),
    ]
}

fn pull(scaled: Q<24, 90>, way: Q<16, 34>) -> i128
    ensures { result ≡ cut_of 90 (floor_of (scaled.raw *ℤ way.raw) (pos (2 ^ 39))) }
{
    let exact: Q<40, 124> = scaled.mul_into(way);
    let whole: Q<1, 124> = exact.rescale_into();
    whole.cut_into::<90>().raw()
}
