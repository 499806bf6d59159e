//! Directions, one vector for each node.
ghost use Rattle.std.specs.Prelude.{◌≡◌, ◌+◌, ◌*◌, ◌^◌, ◌≤◌, ◌<◌, pos, ◌<ℤ◌, ◌*ℤ◌, ◌+ℤ◌, map, length, slice_index_or, All};
ghost use Rattle.num_q.specs.Rounding.{round_of};
ghost use Rattle.space3.specs.Vectors.{AtMost, Within};
ghost use Rattle.space3.specs.declared.ways.TheConstants.{DIRECTION_LIMIT};
ghost use Rattle.block_rows.specs.Stored.{nodes_of, table_of};
ghost use Rattle.block_rows.specs.Tables.{three_at};
ghost use Rattle.sparse_cg.specs.Directions.{direction_of, rounded};
ghost use Rattle.sparse_cg.specs.Jacobi.{jacobi, jacobi_at, jacobi_component};
ghost use Rattle.sparse_cg.specs.Calls.Lists.{AreShort};

use crate::numbers::{at_least_one, entries, number_at};
use block_rows::Rows;
use num_q::Q;
use space3::V3;

// Writes a solution as a direction.
pub(crate) fn write_direction(out: &mut [V3], x: &[i64])
    requires each { length x.now ≡ 3 * length out.old }
    requires short { AreShort x.now }
    ensures value { out.new ≡ direction_of (length out.old) x.now }
    ensures short { All (Within DIRECTION_LIMIT) out.new }
{
    for node in 0..out.len() {
        out[node] = direction_at(x, node);
    }
}

fn direction_at(x: &[i64], node: usize) -> V3
    requires there { 3 * node + 2 < length x.now }
    requires short { AreShort x.now }
    ensures value { result ≡ three_at (map rounded x.now) node }
    ensures short { Within DIRECTION_LIMIT result }
{
    let first = 3 * node;
    V3 {
        x: rounded_at(x, first),
        y: rounded_at(x, first + 1),
        z: rounded_at(x, first + 2),
    }
}

fn rounded_at(x: &[i64], i: usize) -> i64
    requires there { i < length x.now }
    requires short { AreShort x.now }
    ensures value { result ≡ slice_index_or (map rounded x.now) i (pos 0) }
    ensures short { AtMost DIRECTION_LIMIT result }
{
    rounded(number_at(x, i))
}

fn rounded(number: Q<0, 44>) -> i64
    ensures value { result ≡ rounded number.raw }
    ensures short { AtMost DIRECTION_LIMIT result }
{
    let one: Q<0, 17> = Q::of_raw(65536);
    let exact: Q<0, 44> = number.round_into(one);
    let cut: Q<0, 21> = exact.cut_into();
    cut.raw() as i64
}

// Writes Jacobi's direction.
pub(crate) fn write_jacobi(out: &mut [V3], rows: &Rows, slopes: &[i128])
    requires nodes { length out.old ≡ nodes_of rows.now }
    requires each { length slopes.now ≡ 3 * nodes_of rows.now }
    requires small { All (AtMost (2 ^ 124)) slopes.now }
    ensures value { out.new ≡ jacobi (nodes_of rows.now) (table_of rows.now) slopes.now }
    ensures short { All (Within DIRECTION_LIMIT) out.new }
{
    for node in 0..rows.nodes() {
        out[node as usize] = jacobi_at(rows, slopes, node);
    }
}

fn jacobi_at(rows: &Rows, slopes: &[i128], node: u32) -> V3
    requires there { node < nodes_of rows.now }
    requires each { length slopes.now ≡ 3 * nodes_of rows.now }
    requires small { All (AtMost (2 ^ 124)) slopes.now }
    ensures value { result ≡ jacobi_at (table_of rows.now) slopes.now node }
    ensures short { Within DIRECTION_LIMIT result }
{
    let diagonal = entries(rows.diagonal(node));
    let first = 3 * node as usize;
    V3 {
        x: component(diagonal.x, long_slope_at(slopes, first)),
        y: component(diagonal.y, long_slope_at(slopes, first + 1)),
        z: component(diagonal.z, long_slope_at(slopes, first + 2)),
    }
}

// The whole slope at a place of a list.
fn long_slope_at(slopes: &[i128], i: usize) -> Q<0, 125>
    requires there { i < length slopes.now }
    requires small { All (AtMost (2 ^ 124)) slopes.now }
    ensures value { result.raw ≡ slice_index_or slopes.now i (pos 0) }
    ensures small { AtMost (2 ^ 124) result.raw }
{
    Q::of_raw(slopes[i])
}

fn component(diagonal: Q<0, 62>, slope: Q<0, 125>) -> i64
    requires { AtMost (2 ^ 124) slope.raw }
    ensures value { result ≡ jacobi_component diagonal.raw slope.raw }
    ensures short { AtMost DIRECTION_LIMIT result }
{
    let exact = rounded_quotient(slope.neg(), at_least_one(diagonal));
    let cut: Q<0, 21> = exact.cut_into();
    cut.raw() as i64
}

// The nearest whole number to a quotient.
fn rounded_quotient(number: Q<0, 125>, divisor: Q<0, 62>) -> Q<0, 126>
    requires number { AtMost (2 ^ 124) number.raw }
    requires divisor { pos 0 <ℤ divisor.raw }
    ensures { result.raw ≡ round_of number.raw divisor.raw }
{
    let double: Q<0, 126> = number.add_into(number);
    let sum: Q<0, 126> = double.sum_within(divisor.widened_into());
    let over: Q<0, 63> = divisor.add_into(divisor);
    sum.div_floor_into::<0, 0, 63, 0, 126>(over)
}
