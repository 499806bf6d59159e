//! The part of the matrix.
ghost use Rattle.std.specs.Prelude.{◌≡◌, ◌<◌, ◌^◌, pos, ◌*ℤ◌, All, slice_index_or};
ghost use Rattle.whole_laws.specs.Ranges.{IsFrom};
ghost use Rattle.num_q.specs.Rounding.{cut_of, floor_of};
ghost use Rattle.space3.specs.Vectors.{AtMost};
ghost use Rattle.vec_q.specs.Raws.{raws, raw_columns};
ghost use Rattle.vec_q.specs.Rows.{rows_of};
ghost use Rattle.nearest.specs.declared.limits.TheConstants.{GAP_LIMIT, ONE};
ghost use Rattle.near_pair.specs.Answers.{IsBounded, IsOn};
ghost use Rattle.barrier_term.specs.declared.active.TheConstants.{MOST_STIFFNESS};
ghost use Rattle.barrier_term.specs.Barrier.{if_active};
ghost use Rattle.barrier_term.specs.Blocks.{barrier_block, curvature, entries, entry, lever, stiffness_at};

use crate::active::{Active, MOST_STIFFNESS, active_pair};
use near_pair::{Near, weight_at};
use num_q::Q;
use space3::V3;
use vec_q::{MatQ, VecQ};

/// The block of the points `i` and `j` of a pair: the second derivative of the energy but for that of the distance,
/// so that it stays a product of a vector with itself. The first part has `split` points.
pub fn barrier_block(
    kappa: i64,
    dhat: i64,
    near: &Near,
    split: u8,
    x: &[V3; 4],
    i: u8,
    j: u8,
) -> [[i128; 3]; 3]
    requires kappa { IsFrom (pos 0) MOST_STIFFNESS kappa }
    requires dhat { IsFrom (pos 0) (pos GAP_LIMIT) dhat }
    requires bounded { IsBounded near.now }
    requires on { IsOn split x.now near.now }
    requires first { i < 4 }
    requires second { j < 4 }
    ensures { result ≡ rows_of (barrier_block kappa dhat near.now split x.now i j) }
{
    let stiffness = stiffness_of(kappa, dhat, near);
    let way = near.way(split, x);
    let signed = near.signed_weights(split);
    let first = lever(way, &signed, i as usize);
    let second = lever(way, &signed, j as usize);
    entries(stiffness, first, second).rows()
}

fn stiffness_of(kappa: i64, dhat: i64, near: &Near) -> Q<24, 64>
    requires kappa { IsFrom (pos 0) MOST_STIFFNESS kappa }
    requires dhat { IsFrom (pos 0) (pos GAP_LIMIT) dhat }
    requires bounded { IsBounded near.now }
    ensures { result.raw ≡ if_active dhat near.now (stiffness_at kappa) }
{
    match active_pair(dhat, near) {
        Some(pair) => stiffness_at(kappa, pair),
        None => Q::of_raw(0),
    }
}

pub(crate) fn stiffness_at(kappa: i64, pair: Active) -> Q<24, 64>
    requires { IsFrom (pos 0) MOST_STIFFNESS kappa }
    ensures { result.raw ≡ stiffness_at kappa pair.distance pair.reach }
{
    let kappa: Q<24, 41> = Q::of_raw(kappa as i128);
    let exact: Q<48, 125> = kappa.mul_into(curvature(pair));
    let whole: Q<24, 125> = exact.rescale_into();
    whole.cut_into()
}

fn curvature(pair: Active) -> Q<24, 84>
    ensures { result.raw ≡ curvature pair.distance pair.reach }
{
    let distance = pair.distance_number();
    let two: Q<0, 2> = Q::of_raw(2);
    let twice: Q<8, 30> = two.mul_into(distance);
    let sum: Q<8, 31> = twice.add_into(pair.reach_number());
    let product: Q<16, 59> = pair.depth().mul_into(sum);
    let squared: Q<16, 56> = distance.mul_into(distance);
    let quotient: Q<24, 83> = product.div_floor_into::<24, 16, 56, 24, 83>(squared);
    pair.steepness().add_into(quotient)
}

// The way between the nearest points, times a signed weight, with 12 fraction bits.
pub(crate) fn lever(way: VecQ<16, 34>, signed: &[i64; 4], k: usize) -> VecQ<12, 31>
    requires each { All (AtMost ONE) signed.now }
    requires index { k < 4 }
    ensures { raws result ≡ lever (raws way) (slice_index_or signed.now k (pos 0)) }
{
    let weight = weight_at(signed, k);
    VecQ {
        x: lever_along(way.x, weight),
        y: lever_along(way.y, weight),
        z: lever_along(way.z, weight),
    }
}

fn lever_along(way: Q<16, 34>, weight: Q<16, 17>) -> Q<12, 31>
    requires { AtMost ONE weight.raw }
    ensures { result.raw ≡ floor_of (weight.raw *ℤ way.raw) (pos (2 ^ 20)) }
{
    let exact: Q<32, 51> = weight.mul_into(way);
    let small: Q<32, 50> = exact.narrowed_into();
    small.shifted_into::<20, 12, 31>()
}

pub(crate) fn entries(stiffness: Q<24, 64>, a: VecQ<12, 31>, b: VecQ<12, 31>) -> MatQ<26, 86>
    ensures { raw_columns result ≡ entries stiffness.raw (raws a) (raws b) }
{
    MatQ {
        first: column(stiffness, a, b.x),
        second: column(stiffness, a, b.y),
        third: column(stiffness, a, b.z),
    }
}

fn column(stiffness: Q<24, 64>, a: VecQ<12, 31>, b: Q<12, 31>) -> VecQ<26, 86>
    ensures x { result.x.raw ≡ entry stiffness.raw a.x.raw b.raw }
    ensures y { result.y.raw ≡ entry stiffness.raw a.y.raw b.raw }
    ensures z { result.z.raw ≡ entry stiffness.raw a.z.raw b.raw }
{
    VecQ {
        x: entry(stiffness, a.x, b),
        y: entry(stiffness, a.y, b),
        z: entry(stiffness, a.z, b),
    }
}

fn entry(stiffness: Q<24, 64>, a: Q<12, 31>, b: Q<12, 31>) -> Q<26, 86>
    ensures { result.raw ≡ entry stiffness.raw a.raw b.raw }
{
    let part: Q<36, 95> = stiffness.mul_into(a);
    let exact: Q<48, 126> = part.mul_into(b);
    let whole: Q<26, 126> = exact.rescale_into();
    whole.cut_into()
}
