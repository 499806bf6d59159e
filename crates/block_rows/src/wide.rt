//! Sums of blocks of three by three numbers.
ghost use Rattle.std.specs.Prelude.{◌≡◌, ◌^◌, ◌+ℤ◌};
ghost use Rattle.space3.specs.Vectors.{AtMost, Within, sum_of};
ghost use Rattle.space3.specs.Wide.{unbounded};
ghost use Rattle.vec_q.specs.Rows.{matrix_of};
ghost use Rattle.vec_q.specs.Widths.{AreWithin};
ghost use Rattle.block_rows.specs.Tables.{sum_of_blocks};
ghost use Rattle.block_rows.specs.Calls.Cells.{wide_matrix};

use space3::W3;

/// A sum of blocks, by its columns.
#[derive(Clone, Copy)]
pub(crate) struct WideBlock {
    pub first: W3,
    pub second: W3,
    pub third: W3,
}

// The block with these rows.
pub(crate) fn wide_block(rows: &[[i128; 3]; 3]) -> WideBlock
    ensures { wide_matrix result ≡ matrix_of rows.now }
{
    WideBlock {
        first: wide_vector(rows[0][0], rows[1][0], rows[2][0]),
        second: wide_vector(rows[0][1], rows[1][1], rows[2][1]),
        third: wide_vector(rows[0][2], rows[1][2], rows[2][2]),
    }
}

fn wide_vector(x: i128, y: i128, z: i128) -> W3
    ensures { result ≡ record { x = x; y = y; z = z } }
{
    W3 { x, y, z }
}

// The sum of two blocks.
pub(crate) fn sum_of_blocks(a: WideBlock, b: WideBlock) -> WideBlock
    requires left { AreWithin (2 ^ 125) (wide_matrix a) }
    requires right { AreWithin (2 ^ 125) (wide_matrix b) }
    ensures { wide_matrix result ≡ sum_of_blocks (wide_matrix a) (wide_matrix b) }
{
    WideBlock {
        first: sum_of(a.first, b.first),
        second: sum_of(a.second, b.second),
        third: sum_of(a.third, b.third),
    }
}

pub(crate) fn sum_of(a: W3, b: W3) -> W3
    requires left { Within (2 ^ 125) (unbounded a) }
    requires right { Within (2 ^ 125) (unbounded b) }
    ensures { unbounded result ≡ sum_of (unbounded a) (unbounded b) }
{
    W3 {
        x: sum(a.x, b.x),
        y: sum(a.y, b.y),
        z: sum(a.z, b.z),
    }
}

fn sum(a: i128, b: i128) -> i128
    requires left { AtMost (2 ^ 125) a }
    requires right { AtMost (2 ^ 125) b }
    ensures { result ≡ a +ℤ b }
{
    a + b
}
