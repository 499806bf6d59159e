//! The squared distance as a number, and the way between the nearest points.
ghost use Rattle.std.specs.Prelude.{◌≡◌, ◌≤◌, ◌<◌, ◌^◌, pos, ◌≤ℤ◌, All, neg_ℤ, slice_index_or};
ghost use Rattle.space3.specs.Vectors.{AtMost};
ghost use Rattle.vec_q.specs.Raws.{raws};
ghost use Rattle.nearest.specs.declared.limits.TheConstants.{ONE};
ghost use Rattle.nearest.specs.RoundedWeights.{AreOfTwoParts};
ghost use Rattle.nearest.specs.SignedWeights.{signed_weights, signed_sum, AreBalanced};
ghost use Rattle.near_pair.specs.Answers.{IsBounded, IsOn, IsSplit, squared_distance};
ghost use Rattle.near_pair.specs.Calls.SumsOfWays.{AreNarrow, weighted_way};

use crate::near::Near;
use num_q::Q;
use space3::V3;
use vec_q::{VecQ, edge_between};

impl Near {
    /// The squared distance in squared grid units with 8 fraction bits, rounded down but at least 1.
    pub fn squared_distance(&self) -> u128
        requires { IsBounded self.now }
        ensures value { result ≡ squared_distance self.now }
        ensures some { 1 ≤ result }
        ensures small { result < 2 ^ 122 }
    {
        (256 * self.num / self.den).max(1)
    }

    /// The weights, those of the second part with their sign turned. The first part has `split` points.
    pub fn signed_weights(&self, split: u8) -> [i64; 4]
        requires split { IsSplit split }
        requires weights { AreOfTwoParts split self.now.weights }
        ensures value { result ≡ signed_weights split self.now.weights }
        ensures balanced { AreBalanced result }
        ensures each { All (AtMost ONE) result }
    {
        let weights = self.weights;
        if split == 1 {
            turned_from_second(weights)
        } else {
            turned_from_third(weights)
        }
    }

    /// The way from the nearest point of the second part to that of the first, in grid units with 16 fraction bits.
    /// The weights are on these four points, of which the first part has `split`.
    pub fn way(&self, split: u8, points: &[V3; 4]) -> VecQ<16, 34>
        requires { IsOn split points.now self.now }
        ensures { raws result ≡ signed_sum (signed_weights split self.now.weights) points.now }
    {
        way_of(self.signed_weights(split), points)
    }
}

fn turned_from_second(weights: [i64; 4]) -> [i64; 4]
    requires { AreOfTwoParts 1 weights }
    ensures { result ≡ signed_weights 1 weights }
{
    [
        weights[0],
        turned(weights[1]),
        turned(weights[2]),
        turned(weights[3]),
    ]
}

fn turned_from_third(weights: [i64; 4]) -> [i64; 4]
    requires { AreOfTwoParts 2 weights }
    ensures { result ≡ signed_weights 2 weights }
{
    [
        weights[0],
        weights[1],
        turned(weights[2]),
        turned(weights[3]),
    ]
}

fn turned(weight: i64) -> i64
    requires { pos 0 ≤ℤ weight }
    ensures { result ≡ neg_ℤ weight }
{
    -weight
}

// The sum of the points times their signed weights. It is made of ways from the first point.
fn way_of(signed: [i64; 4], points: &[V3; 4]) -> VecQ<16, 34>
    requires { AreNarrow signed points.now }
    ensures { raws result ≡ signed_sum signed points.now }
{
    let second = weighted_way(&signed, points, 1);
    let third = weighted_way(&signed, points, 2);
    let fourth = weighted_way(&signed, points, 3);
    let two: VecQ<16, 36> = second.add_into(third);
    let all: VecQ<16, 37> = two.add_into(fourth);
    all.narrowed_into()
}

fn weighted_way(signed: &[i64; 4], points: &[V3; 4], k: usize) -> VecQ<16, 35>
    requires narrow { AreNarrow signed.now points.now }
    requires low { 0 < k }
    requires high { k < 4 }
    ensures { raws result ≡ weighted_way signed.now points.now k }
{
    let way: VecQ<0, 18> = edge_between(points[0], points[k]);
    way.scale_into(weight_at(signed, k))
}

/// A weight by its place.
pub fn weight_at(signed: &[i64; 4], k: usize) -> Q<16, 17>
    requires each { All (AtMost ONE) signed.now }
    requires index { k < 4 }
    ensures value { result.raw ≡ slice_index_or signed.now k (pos 0) }
    ensures small { AtMost ONE result.raw }
{
    Q::of_raw(signed[k] as i128)
}
