//! Vectors of fixed point and their products.
ghost use Rattle.std.specs.Prelude.{◌≡◌, ◌^◌, ◌≤◌, ◌<◌, ◌+◌, ◌-ℤ◌, ◌*ℤ◌, unsigned_abs};
ghost use Rattle.space3.specs.Vectors.{sum_of, difference, multiple, dot_product, cross_product};
ghost use Rattle.vec_q.specs.Raws.{raws};
ghost use Rattle.vec_q.specs.Rows.{components};
ghost use Rattle.vec_q.specs.Widths.{IsBelow};

use num_q::Q;
use space3::V3;

/// A vector of three numbers with F fraction bits, whose raw numbers are below 2^B in absolute value.
#[derive(Clone, Copy, PartialEq, Eq, Debug)]
pub struct VecQ<const F: u32, const B: u32> {
    pub x: Q<F, B>,
    pub y: Q<F, B>,
    pub z: Q<F, B>,
}

/// The whole vector from one place to another.
pub fn edge_between<const B: u32>(from: V3, to: V3) -> VecQ<0, B>
    requires small { IsBelow B (difference to from) }
    requires width { B ≤ 126 }
    ensures { raws result ≡ difference to from }
{
    VecQ {
        x: difference_of(to.x, from.x),
        y: difference_of(to.y, from.y),
        z: difference_of(to.z, from.z),
    }
}

fn difference_of<const B: u32>(a: i64, b: i64) -> Q<0, B>
    requires small { unsigned_abs (a -ℤ b) < 2 ^ B }
    requires width { B ≤ 126 }
    ensures { result.raw ≡ a -ℤ b }
{
    Q::of_raw(a as i128 - b as i128)
}

impl<const F: u32, const B: u32> VecQ<F, B> {
    /// The sum. Its width is greater than that of both.
    pub fn add_into<const B2: u32, const B3: u32>(self, other: VecQ<F, B2>) -> VecQ<F, B3>
        requires left { B < B3 }
        requires right { B2 < B3 }
        requires width { B3 ≤ 126 }
        ensures { raws result ≡ sum_of (raws self.entry) (raws other.entry) }
    {
        VecQ {
            x: self.x.add_into(other.x),
            y: self.y.add_into(other.y),
            z: self.z.add_into(other.z),
        }
    }

    /// The difference `self − other`. Its width is greater than that of both.
    pub fn sub_into<const B2: u32, const B3: u32>(self, other: VecQ<F, B2>) -> VecQ<F, B3>
        requires left { B < B3 }
        requires right { B2 < B3 }
        requires width { B3 ≤ 126 }
        ensures { raws result ≡ difference (raws self.entry) (raws other.entry) }
    {
        VecQ {
            x: self.x.sub_into(other.x),
            y: self.y.sub_into(other.y),
            z: self.z.sub_into(other.z),
        }
    }

    /// The vector times a number. Fraction bits add up, and so do widths.
    pub fn scale_into<const F2: u32, const B2: u32, const F3: u32, const B3: u32>(
        self,
        by: Q<F2, B2>,
    ) -> VecQ<F3, B3>
        requires fraction { F3 ≡ F2 + F }
        requires sum { B2 + B ≤ B3 }
        requires width { B3 ≤ 126 }
        ensures { raws result ≡ multiple by.entry.raw (raws self.entry) }
    {
        VecQ {
            x: by.mul_into(self.x),
            y: by.mul_into(self.y),
            z: by.mul_into(self.z),
        }
    }

    /// The dot product. Fraction bits add up, and widths with 2 more bits.
    pub fn dot_into<const F2: u32, const B2: u32, const F3: u32, const B3: u32>(
        self,
        other: VecQ<F2, B2>,
    ) -> Q<F3, B3>
        requires fraction { F3 ≡ F + F2 }
        requires sum { B + B2 + 2 ≤ B3 }
        requires width { B3 ≤ 126 }
        ensures { result.raw ≡ dot_product (raws self.entry) (raws other.entry) }
    {
        let x: Q<F3, B3> = self.x.mul_into(other.x);
        let y: Q<F3, B3> = self.y.mul_into(other.y);
        let z: Q<F3, B3> = self.z.mul_into(other.z);
        x.sum_within(y).sum_within(z)
    }

    /// The cross product. Fraction bits add up, and widths with 1 more bit.
    pub fn cross_into<const F2: u32, const B2: u32, const F3: u32, const B3: u32>(
        self,
        other: VecQ<F2, B2>,
    ) -> VecQ<F3, B3>
        requires fraction { F3 ≡ F + F2 }
        requires sum { B + B2 + 1 ≤ B3 }
        requires width { B3 ≤ 126 }
        ensures { raws result ≡ cross_product (raws self.entry) (raws other.entry) }
    {
        VecQ {
            x: minor(self.y, self.z, other.y, other.z),
            y: minor(self.z, self.x, other.z, other.x),
            z: minor(self.x, self.y, other.x, other.y),
        }
    }

    /// The same vector in a type that is no narrower.
    pub fn widened_into<const B2: u32>(self) -> VecQ<F, B2>
        requires room { B ≤ B2 }
        requires width { B2 ≤ 126 }
        ensures { raws result ≡ raws self.entry }
    {
        VecQ {
            x: self.x.widened_into(),
            y: self.y.widened_into(),
            z: self.z.widened_into(),
        }
    }

    /// The same vector in a type that it is known to fit.
    pub fn narrowed_into<const B2: u32>(self) -> VecQ<F, B2>
        requires small { IsBelow B2 (raws self) }
        requires width { B2 ≤ 126 }
        ensures { raws result ≡ raws self.entry }
    {
        VecQ {
            x: self.x.narrowed_into(),
            y: self.y.narrowed_into(),
            z: self.z.narrowed_into(),
        }
    }

    /// The raw numbers.
    pub fn components(self) -> [i128; 3]
        ensures { result ≡ components (raws self.entry) }
    {
        [self.x.raw(), self.y.raw(), self.z.raw()]
    }
}

// The minor `a·d − b·c`.
fn minor<const F: u32, const B: u32, const F2: u32, const B2: u32, const F3: u32, const B3: u32>(
    a: Q<F, B>,
    b: Q<F, B>,
    c: Q<F2, B2>,
    d: Q<F2, B2>,
) -> Q<F3, B3>
    requires fraction { F3 ≡ F + F2 }
    requires sum { B + B2 + 1 ≤ B3 }
    requires width { B3 ≤ 126 }
    ensures { result.raw ≡ a.entry.raw *ℤ d.entry.raw -ℤ b.entry.raw *ℤ c.entry.raw }
{
    let ad: Q<F3, B3> = a.mul_into(d);
    let bc: Q<F3, B3> = b.mul_into(c);
    ad.difference_within(bc)
}
