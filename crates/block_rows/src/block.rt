//! Blocks that are kept.
ghost use Rattle.vec_q.specs.Matrices.{columns};
ghost use Rattle.vec_q.specs.Widths.{AreBelow};

use space3::V3;

/// A block whose entries are below 2^62 in absolute value, by its columns.
#[derive(Clone, Copy)]
pub(crate) struct Block {
    pub first: V3,
    pub second: V3,
    pub third: V3,
    pub ghost small: { AreBelow 62 (columns first second third) },
}
