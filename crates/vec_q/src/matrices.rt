//! 3x3 matrices of fixed point and their products.
ghost use Rattle.std.specs.Prelude.{◌≡◌, ◌+◌, ◌≤◌};
ghost use Rattle.vec_q.specs.Raws.{raws, raw_columns};
ghost use Rattle.vec_q.specs.Rows.{rows_of};
ghost use Rattle.vec_q.specs.Widths.{AreBelow};
ghost use Rattle.vec_q.specs.Matrices.{transposed, times_vector, product_of, cofactors, adjugate};

use crate::vectors::VecQ;

/// A matrix of numbers with F fraction bits, whose raw numbers are below 2^B in absolute value, by its columns.
#[derive(Clone, Copy, PartialEq, Eq, Debug)]
pub struct MatQ<const F: u32, const B: u32> {
    pub first: VecQ<F, B>,
    pub second: VecQ<F, B>,
    pub third: VecQ<F, B>,
}

impl<const F: u32, const B: u32> MatQ<F, B> {
    /// The matrix with rows and columns exchanged.
    pub fn transposed(self) -> Self
        ensures { raw_columns result ≡ transposed (raw_columns self.entry) }
    {
        MatQ {
            first: VecQ {
                x: self.first.x,
                y: self.second.x,
                z: self.third.x,
            },
            second: VecQ {
                x: self.first.y,
                y: self.second.y,
                z: self.third.y,
            },
            third: VecQ {
                x: self.first.z,
                y: self.second.z,
                z: self.third.z,
            },
        }
    }

    /// The product with a vector. Fraction bits add up, and widths with 2 more bits.
    pub fn mul_vector_into<const F2: u32, const B2: u32, const F3: u32, const B3: u32>(
        self,
        vector: VecQ<F2, B2>,
    ) -> VecQ<F3, B3>
        requires fraction { F3 ≡ F + F2 }
        requires sum { B + B2 + 2 ≤ B3 }
        requires width { B3 ≤ 126 }
        ensures { raws result ≡ times_vector (raw_columns self.entry) (raws vector.entry) }
    {
        let rows = self.transposed();
        VecQ {
            x: rows.first.dot_into(vector),
            y: rows.second.dot_into(vector),
            z: rows.third.dot_into(vector),
        }
    }

    /// The product with a matrix. Fraction bits add up, and widths with 2 more bits.
    pub fn mul_into<const F2: u32, const B2: u32, const F3: u32, const B3: u32>(
        self,
        other: MatQ<F2, B2>,
    ) -> MatQ<F3, B3>
        requires fraction { F3 ≡ F + F2 }
        requires sum { B + B2 + 2 ≤ B3 }
        requires width { B3 ≤ 126 }
        ensures { raw_columns result ≡
            product_of (raw_columns self.entry) (raw_columns other.entry) }
    {
        MatQ {
            first: self.mul_vector_into(other.first),
            second: self.mul_vector_into(other.second),
            third: self.mul_vector_into(other.third),
        }
    }

    /// The cofactors. Fraction bits and widths double, and widths have 1 more bit.
    pub fn cofactors_into<const F2: u32, const B2: u32>(self) -> MatQ<F2, B2>
        requires fraction { F2 ≡ F + F }
        requires sum { B + B + 1 ≤ B2 }
        requires width { B2 ≤ 126 }
        ensures { raw_columns result ≡ cofactors (raw_columns self.entry) }
    {
        MatQ {
            first: self.second.cross_into(self.third),
            second: self.third.cross_into(self.first),
            third: self.first.cross_into(self.second),
        }
    }

    /// The adjugate: the transposed cofactors.
    pub fn adjugate_into<const F2: u32, const B2: u32>(self) -> MatQ<F2, B2>
        requires fraction { F2 ≡ F + F }
        requires sum { B + B + 1 ≤ B2 }
        requires width { B2 ≤ 126 }
        ensures { raw_columns result ≡ adjugate (raw_columns self.entry) }
    {
        let cofactors: MatQ<F2, B2> = self.cofactors_into();
        cofactors.transposed()
    }

    /// The same matrix in a type that is no narrower.
    pub fn widened_into<const B2: u32>(self) -> MatQ<F, B2>
        requires room { B ≤ B2 }
        requires width { B2 ≤ 126 }
        ensures { raw_columns result ≡ raw_columns self.entry }
    {
        MatQ {
            first: self.first.widened_into(),
            second: self.second.widened_into(),
            third: self.third.widened_into(),
        }
    }

    /// The same matrix in a type that it is known to fit.
    pub fn narrowed_into<const B2: u32>(self) -> MatQ<F, B2>
        requires small { AreBelow B2 (raw_columns self) }
        requires width { B2 ≤ 126 }
        ensures { raw_columns result ≡ raw_columns self.entry }
    {
        MatQ {
            first: self.first.narrowed_into(),
            second: self.second.narrowed_into(),
            third: self.third.narrowed_into(),
        }
    }

    /// The rows of the raw numbers.
    pub fn rows(self) -> [[i128; 3]; 3]
        ensures { result ≡ rows_of (raw_columns self.entry) }
    {
        let columns = self.transposed();
        [
            columns.first.components(),
            columns.second.components(),
            columns.third.components(),
        ]
    }
}
