//! The blocks of each two points, what they share computed once.
ghost use Rattle.std.specs.Prelude.{◌≡◌, ◌<◌, [], ◌∷◌, pos, map, All, slice_index_or};
ghost use Rattle.whole_laws.specs.Ranges.{IsFrom};
ghost use Rattle.space3.specs.Box.{IsInTheBox};
ghost use Rattle.space3.specs.Vectors.{AtMost};
ghost use Rattle.vec_q.specs.Rows.{rows_of};
ghost use Rattle.nearest.specs.declared.limits.TheConstants.{ONE};
ghost use Rattle.surface_mesh.specs.declared.ranges.TheConstants.{MOST_FRICTION, MOST_SLIP};
ghost use Rattle.friction_lag.specs.Friction.{block_of, blocks_of, friction_blocks};
ghost use Rattle.friction_lag.specs.Lagged.{lagged_in};

use crate::contacts::Contact;
use crate::friction::{drag_of, entry, is_unloaded, unit_times};
use crate::slide::slide_of;
use near_pair::weight_at;
use num_q::Q;
use space3::V3;

/// The blocks of each two points, as [`friction_block`](crate::friction_block) gives them.
pub fn friction_blocks(
    c: &Contact,
    friction: i64,
    slip: i64,
    x: &[V3; 4],
) -> [[[[i128; 3]; 3]; 4]; 4]
    requires friction { IsFrom (pos 0) MOST_FRICTION friction }
    requires slip { IsFrom (pos 1) MOST_SLIP slip }
    requires placed { All IsInTheBox x.now }
    ensures { result ≡ friction_blocks (lagged_in c.now) friction slip x.now }
{
    if is_unloaded(c, friction) {
        return [[[[0; 3]; 3]; 4]; 4];
    }
    let drag = drag_of(c, friction, slip, slide_of(c, x));
    all_blocks(drag, &c.signed)
}

// The blocks of each two points, from the drag.
fn all_blocks(drag: Q<17, 80>, signed: &[i64; 4]) -> [[[[i128; 3]; 3]; 4]; 4]
    requires { All (AtMost ONE) signed.now }
    ensures { result ≡ map (blocks_of drag.raw signed.now) (0 ∷ 1 ∷ 2 ∷ 3 ∷ []) }
{
    [
        blocks_of(drag, signed, 0),
        blocks_of(drag, signed, 1),
        blocks_of(drag, signed, 2),
        blocks_of(drag, signed, 3),
    ]
}

// The blocks of a point with each.
fn blocks_of(drag: Q<17, 80>, signed: &[i64; 4], i: usize) -> [[[i128; 3]; 3]; 4]
    requires each { All (AtMost ONE) signed.now }
    requires index { i < 4 }
    ensures { result ≡ blocks_of drag.raw signed.now i }
{
    [
        block_of(drag, signed, i, 0),
        block_of(drag, signed, i, 1),
        block_of(drag, signed, i, 2),
        block_of(drag, signed, i, 3),
    ]
}

// The block of two points.
fn block_of(drag: Q<17, 80>, signed: &[i64; 4], i: usize, j: usize) -> [[i128; 3]; 3]
    requires each { All (AtMost ONE) signed.now }
    requires first { i < 4 }
    requires second { j < 4 }
    ensures { result ≡ rows_of (block_of drag.raw signed.now i j) }
{
    unit_times(entry(drag, weight_at(signed, i), weight_at(signed, j)))
}
