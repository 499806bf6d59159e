//! The blocks of each two points, what they share computed once.
ghost use Rattle.std.specs.Prelude.{◌≡◌, ℕ, ◌<◌, [], ◌∷◌, pos, map, All, slice_index_or, IfNone, IfSome};
ghost use Rattle.whole_laws.specs.Ranges.{IsFrom};
ghost use Rattle.space3.specs.Vectors.{AtMost};
ghost use Rattle.vec_q.specs.Matrices.{unit_times};
ghost use Rattle.vec_q.specs.Raws.{raws};
ghost use Rattle.vec_q.specs.Rows.{rows_of};
ghost use Rattle.nearest.specs.declared.limits.TheConstants.{GAP_LIMIT, ONE};
ghost use Rattle.near_pair.specs.Answers.{IsBounded, IsOn};
ghost use Rattle.nearest.specs.SignedWeights.{signed_sum, signed_weights};
ghost use Rattle.barrier_term.specs.declared.active.TheConstants.{MOST_STIFFNESS};
ghost use Rattle.barrier_term.specs.Blocks.{barrier_block, barrier_blocks, blocks_of, entries, lever};

use crate::active::{MOST_STIFFNESS, active_pair};
use crate::block::{entries, lever, stiffness_at};
use near_pair::Near;
use num_q::Q;
use space3::V3;
use vec_q::VecQ;

/// The blocks of each two points of a pair, as [`barrier_block`](crate::barrier_block) gives them. None where the pair
/// isn't nearer than dhat: then each is 0.
pub fn barrier_blocks(
    kappa: i64,
    dhat: i64,
    near: &Near,
    split: u8,
    x: &[V3; 4],
) -> Option<[[[[i128; 3]; 3]; 4]; 4]>
    requires kappa { IsFrom (pos 0) MOST_STIFFNESS kappa }
    requires dhat { IsFrom (pos 0) (pos GAP_LIMIT) dhat }
    requires bounded { IsBounded near.now }
    requires on { IsOn split x.now near.now }
    ensures some { IfSome result (λ blocks.
        blocks ≡ barrier_blocks kappa dhat near.now split x.now) }
    ensures none { IfNone result ((i j : ℕ) →
        barrier_block kappa dhat near.now split x.now i j ≡ unit_times (pos 0)) }
{
    match active_pair(dhat, near) {
        Some(pair) => Some(active_blocks(stiffness_at(kappa, pair), near, split, x)),
        None => None,
    }
}

// The blocks of each two points, from the stiffness.
fn active_blocks(
    stiffness: Q<24, 64>,
    near: &Near,
    split: u8,
    x: &[V3; 4],
) -> [[[[i128; 3]; 3]; 4]; 4]
    requires on { IsOn split x.now near.now }
    ensures { result ≡ map (blocks_of stiffness.raw
        (signed_sum (signed_weights split near.now.weights) x.now)
        (signed_weights split near.now.weights)) (0 ∷ 1 ∷ 2 ∷ 3 ∷ []) }
{
    let way = near.way(split, x);
    let signed = near.signed_weights(split);
    [
        blocks_of(stiffness, way, &signed, 0),
        blocks_of(stiffness, way, &signed, 1),
        blocks_of(stiffness, way, &signed, 2),
        blocks_of(stiffness, way, &signed, 3),
    ]
}

// The blocks of a point with each.
fn blocks_of(
    stiffness: Q<24, 64>,
    way: VecQ<16, 34>,
    signed: &[i64; 4],
    i: usize,
) -> [[[i128; 3]; 3]; 4]
    requires each { All (AtMost ONE) signed.now }
    requires index { i < 4 }
    ensures { result ≡ blocks_of stiffness.raw (raws way) signed.now i }
{
    let first = lever(way, signed, i);
    [
        block_with(stiffness, first, way, signed, 0),
        block_with(stiffness, first, way, signed, 1),
        block_with(stiffness, first, way, signed, 2),
        block_with(stiffness, first, way, signed, 3),
    ]
}

// The block of the point with this lever and another point.
fn block_with(
    stiffness: Q<24, 64>,
    first: VecQ<12, 31>,
    way: VecQ<16, 34>,
    signed: &[i64; 4],
    j: usize,
) -> [[i128; 3]; 3]
    requires each { All (AtMost ONE) signed.now }
    requires index { j < 4 }
    ensures { result ≡ rows_of (entries stiffness.raw (raws first)
        (lever (raws way) (slice_index_or signed.now j (pos 0)))) }
{
    entries(stiffness, first, lever(way, signed, j)).rows()
}
