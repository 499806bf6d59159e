//! The numbers of a turn, one by one.
ghost use Rattle.std.specs.Prelude.{◌≡◌, ◌↔◌, IsTrue, ◌+◌, ◌^◌, ◌≤◌, ◌<◌, pos, ◌*ℤ◌, ◌<ℤ◌, slice_index_or, length, All, unsigned_abs};
ghost use Rattle.std.specs.Int.{int_max};
ghost use Rattle.num_q.specs.Rounding.{cut_of, floor_of};
ghost use Rattle.space3.specs.Vectors.{AtMost};
ghost use Rattle.vec_q.specs.Raws.{raws};
ghost use Rattle.vec_q.specs.Widths.{IsBelow};
ghost use Rattle.sparse_cg.specs.Turns.{moved, ratio};
ghost use Rattle.sparse_cg.specs.Calls.Lists.{AreShort, left_over, numbers_of, shortened};

use num_q::{Divisor, Q};
use space3::V3;
use vec_q::VecQ;

// A number, and so much of another.
pub(crate) fn moved(share: Q<20, 60>, number: Q<0, 44>, way: Q<0, 44>) -> Q<0, 44>
    ensures { result.raw ≡ moved share.raw number.raw way.raw }
{
    let exact: Q<20, 104> = share.mul_into(way);
    let whole: Q<0, 104> = exact.rescale_into();
    let sum: Q<0, 105> = number.add_into(whole);
    sum.cut_into()
}

// A number with 16 fraction bits over a divisor; the power is that of these bits and the shift.
pub(crate) fn quotient(power: Q<0, 77>, number: Q<0, 44>, divisor: Divisor) -> Q<0, 44>
    ensures { result.raw ≡ cut_of 44 (floor_of (number.raw *ℤ power.raw) (pos divisor.number)) }
{
    let exact: Q<0, 121> = number.mul_into(power);
    exact.floor_by(divisor).cut_into()
}

// The power of two for a shift.
pub(crate) fn power(shift: u32) -> Q<0, 77>
    requires { shift ≤ 60 }
    ensures { result.raw ≡ pos (2 ^ (16 + shift)) }
{
    Q::of_raw(1i128 << (16 + shift))
}

// A number of a product, with so many bits less.
pub(crate) fn shortened(shift: u32, number: Q<0, 123>) -> Q<0, 44>
    requires { shift ≤ 60 }
    ensures { result.raw ≡ shortened shift number.raw }
{
    scaled(shift, number).cut_into()
}

// What is left of a number of the right side.
pub(crate) fn left_over(shift: u32, target: Q<0, 44>, number: Q<0, 123>) -> Q<0, 44>
    requires { shift ≤ 60 }
    ensures { result.raw ≡ left_over shift target.raw number.raw }
{
    let rest: Q<0, 125> = target.sub_into(scaled(shift, number));
    rest.cut_into()
}

fn scaled(shift: u32, number: Q<0, 123>) -> Q<0, 124>
    requires { shift ≤ 60 }
    ensures { result.raw ≡ floor_of number.raw (pos (2 ^ (16 + shift))) }
{
    Q::of_raw(number.raw() >> (16 + shift))
}

// The quotient with 20 fraction bits.
pub(crate) fn ratio(a: Q<0, 104>, b: Q<0, 104>) -> Q<20, 60>
    requires { pos 0 <ℤ b.raw }
    ensures { result.raw ≡ ratio a.raw b.raw }
{
    let exact: Q<20, 124> = a.div_floor_into::<20, 0, 104, 20, 124>(b);
    exact.cut_into()
}

pub(crate) fn is_positive(number: Q<0, 104>) -> bool
    ensures { IsTrue result ↔ pos 0 <ℤ number.raw }
{
    number.raw() > 0
}

// The number at a place of a list.
pub(crate) fn number_at(list: &[i64], i: usize) -> Q<0, 44>
    requires there { i < length list.now }
    requires short { AreShort list.now }
    ensures { result.raw ≡ slice_index_or list.now i (pos 0) }
{
    Q::of_raw(list[i] as i128)
}

// The divisor at a place of a list.
pub(crate) fn divisor_at(list: &[Divisor], i: usize) -> Divisor
    requires { i < length list.now }
    ensures { pos result.number ≡ slice_index_or (numbers_of list.now) i (pos 0) }
{
    list[i]
}

// The number at a place of a product.
pub(crate) fn product_at(list: &[i128], i: usize) -> Q<0, 123>
    requires there { i < length list.now }
    requires small { All (AtMost (2 ^ 122)) list.now }
    ensures { result.raw ≡ slice_index_or list.now i (pos 0) }
{
    Q::of_raw(list[i])
}

// A number as it is kept in a list.
pub(crate) fn kept(number: Q<0, 44>) -> i64
    ensures value { result ≡ number.raw }
    ensures short { unsigned_abs result < 2 ^ 44 }
{
    number.raw() as i64
}

// The diagonal entries of a node.
pub(crate) fn entries(v: V3) -> VecQ<0, 62>
    requires { IsBelow 62 v }
    ensures { raws result ≡ v }
{
    VecQ {
        x: Q::of_raw(v.x as i128),
        y: Q::of_raw(v.y as i128),
        z: Q::of_raw(v.z as i128),
    }
}

// An entry, or 1 where it is less.
pub(crate) fn at_least_one(entry: Q<0, 62>) -> Q<0, 62>
    ensures value { result.raw ≡ int_max (pos 1) entry.raw }
    ensures positive { pos 0 <ℤ result.raw }
{
    Q::of_raw(entry.raw().max(1))
}
