//! Lists of numbers that are written element by element, and their sums.
ghost use Rattle.std.specs.Prelude.{◌≡◌, ◌+◌, ◌^◌, ◌≤◌, ◌<◌, pos, length, map, sum, All, unsigned_abs, replicate};
ghost use Rattle.space3.specs.Vectors.{AtMost};
ghost use Rattle.sparse_cg.specs.Systems.{combined, quotient_of};
ghost use Rattle.sparse_cg.specs.Turns.{dot, moved};
ghost use Rattle.sparse_cg.specs.Calls.Lists.{AreShort, left_over, numbers_of, shortened};

use crate::numbers::{
    divisor_at, kept, left_over, moved, number_at, power, product_at, quotient, shortened,
};
use num_q::{Divisor, Q};

// Adds to each number so much of another.
pub(crate) fn move_along(numbers: &mut [i64], ways: &[i64], share: Q<20, 60>)
    requires each { length ways.now ≡ length numbers.old }
    requires numbers { AreShort numbers.old }
    requires ways { AreShort ways.now }
    ensures value { numbers.new ≡ combined (moved share.raw) numbers.old ways.now }
    ensures short { AreShort numbers.new }
{
    for i in 0..numbers.len() {
        let number = moved(share, number_at(numbers, i), number_at(ways, i));
        numbers[i] = kept(number);
    }
}

// Writes the numbers over their divisors.
pub(crate) fn write_quotients(out: &mut [i64], numbers: &[i64], divisors: &[Divisor], shift: u32)
    requires shift { shift ≤ 60 }
    requires each { length numbers.now ≡ length out.old }
    requires each_divisor { length divisors.now ≡ length out.old }
    requires numbers { AreShort numbers.now }
    ensures value { out.new ≡ combined (quotient_of shift) numbers.now (numbers_of divisors.now) }
    ensures short { AreShort out.new }
{
    let power = power(shift);
    for i in 0..out.len() {
        let number = quotient(power, number_at(numbers, i), divisor_at(divisors, i));
        out[i] = kept(number);
    }
}

// Writes the numbers of a product, with so many bits less.
pub(crate) fn write_shortened(out: &mut [i64], product: &[i128], shift: u32)
    requires shift { shift ≤ 60 }
    requires each { length product.now ≡ length out.old }
    requires product { All (AtMost (2 ^ 122)) product.now }
    ensures value { out.new ≡ map (shortened shift) product.now }
    ensures short { AreShort out.new }
{
    for i in 0..out.len() {
        out[i] = kept(shortened(shift, product_at(product, i)));
    }
}

// Writes what is left of the right side.
pub(crate) fn write_left_over(out: &mut [i64], target: &[i64], product: &[i128], shift: u32)
    requires shift { shift ≤ 60 }
    requires each { length target.now ≡ length out.old }
    requires each_number { length product.now ≡ length out.old }
    requires target { AreShort target.now }
    requires product { All (AtMost (2 ^ 122)) product.now }
    ensures value { out.new ≡ combined (left_over shift) target.now product.now }
    ensures short { AreShort out.new }
{
    for i in 0..out.len() {
        let rest = left_over(shift, number_at(target, i), product_at(product, i));
        out[i] = kept(rest);
    }
}

// Writes the numbers as they are.
pub(crate) fn write_copy(out: &mut [i64], numbers: &[i64])
    requires { length numbers.now ≡ length out.old }
    ensures { out.new ≡ numbers.now }
{
    out.copy_from_slice(numbers);
}

// Writes zeros.
pub(crate) fn write_zeros(out: &mut [i64])
    ensures { out.new ≡ replicate (length out.old) (pos 0) }
{
    out.fill(0);
}

// The sum of the products of two lists' elements.
pub(crate) fn dot(xs: &[i64], ys: &[i64]) -> Q<0, 104>
    requires few { length xs.now ≤ 49152 }
    requires each { length ys.now ≡ length xs.now }
    requires left { AreShort xs.now }
    requires right { AreShort ys.now }
    ensures { result.raw ≡ dot xs.now ys.now }
{
    let mut sum: Q<0, 104> = Q::of_raw(0);
    for i in 0..xs.len() {
        let product: Q<0, 104> = number_at(xs, i).mul_into(number_at(ys, i));
        sum = sum.sum_within(product);
    }
    sum
}

// The sum of the absolute values.
pub(crate) fn sum_of_sizes(xs: &[i64]) -> u64
    requires few { length xs.now ≤ 49152 }
    requires short { AreShort xs.now }
    ensures value { result ≡ sum (map unsigned_abs xs.now) }
    ensures small { result < 2 ^ 60 }
{
    let mut sum = 0;
    for x in xs {
        sum += x.unsigned_abs();
    }
    sum
}
