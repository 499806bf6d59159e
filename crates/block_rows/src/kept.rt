//! What is kept of sums of blocks, and the product of a block with a vector.
ghost use Rattle.std.specs.Prelude.{◌≡◌, ◌^◌, ◌<◌, pos, unsigned_abs};
ghost use Rattle.num_q.specs.Rounding.{cut_of};
ghost use Rattle.space3.specs.Vectors.{Within};
ghost use Rattle.space3.specs.Wide.{unbounded};
ghost use Rattle.vec_q.specs.Matrices.{times_vector, unit_times};
ghost use Rattle.vec_q.specs.Raws.{raws, raw_columns};
ghost use Rattle.vec_q.specs.Widths.{IsBelow};
ghost use Rattle.block_rows.specs.Tables.{cut_block, cut_vector, diagonal_of};
ghost use Rattle.block_rows.specs.Calls.Cells.{short_matrix, wide_matrix};

use crate::block::Block;
use crate::wide::WideBlock;
use num_q::Q;
use space3::{V3, W3};
use vec_q::{MatQ, VecQ};

impl Block {
    // A sum, each entry cut.
    pub fn cut(sum: WideBlock) -> Self
        ensures { short_matrix result ≡ cut_block (wide_matrix sum) }
    {
        Block {
            first: cut_vector(sum.first),
            second: cut_vector(sum.second),
            third: cut_vector(sum.third),
        }
    }

    // The unit matrix.
    pub fn unit() -> Self
        ensures { short_matrix result ≡ unit_times (pos 1) }
    {
        Block {
            first: V3 { x: 1, y: 0, z: 0 },
            second: V3 { x: 0, y: 1, z: 0 },
            third: V3 { x: 0, y: 0, z: 1 },
        }
    }

    // The product with a vector.
    pub fn times(self, vector: VecQ<0, 44>) -> W3
        ensures value { unbounded result ≡ times_vector (short_matrix self) (raws vector) }
        ensures bound { Within (2 ^ 108) (unbounded result) }
    {
        wide(self.exact().mul_vector_into(vector))
    }

    // The diagonal.
    pub fn diagonal(self) -> V3
        ensures value { result ≡ diagonal_of (short_matrix self) }
        ensures small { IsBelow 62 result }
    {
        V3 {
            x: self.first.x,
            y: self.second.y,
            z: self.third.z,
        }
    }

    fn exact(self) -> MatQ<0, 62>
        ensures { raw_columns result ≡ short_matrix self }
    {
        MatQ {
            first: exact_vector(self.first),
            second: exact_vector(self.second),
            third: exact_vector(self.third),
        }
    }
}

fn wide(v: VecQ<0, 108>) -> W3
    ensures value { unbounded result ≡ raws v }
    ensures bound { Within (2 ^ 108) (unbounded result) }
{
    W3 {
        x: v.x.raw(),
        y: v.y.raw(),
        z: v.z.raw(),
    }
}

fn exact_vector(v: V3) -> VecQ<0, 62>
    requires { IsBelow 62 v }
    ensures { raws result ≡ v }
{
    VecQ {
        x: Q::of_raw(v.x as i128),
        y: Q::of_raw(v.y as i128),
        z: Q::of_raw(v.z as i128),
    }
}

fn cut_vector(v: W3) -> V3
    ensures value { result ≡ cut_vector (unbounded v) }
    ensures small { IsBelow 62 result }
{
    V3 {
        x: cut(v.x),
        y: cut(v.y),
        z: cut(v.z),
    }
}

fn cut(entry: i128) -> i64
    ensures value { result ≡ cut_of 62 entry }
    ensures small { unsigned_abs result < 2 ^ 62 }
{
    let most = (1i128 << 62) - 1;
    entry.clamp(-most, most) as i64
}
