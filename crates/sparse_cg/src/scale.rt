//! The system of a matrix and a gradient: by how many bits it is shortened, its right side and the
//! divisors.
ghost use Rattle.std.specs.Prelude.{◌≡◌, ℕ, ◌+◌, ◌*◌, ◌^◌, ◌≤◌, ◌<◌, [], ◌∷◌, pos, neg_ℤ, map, length, slice_index_or, slice_set, unsigned_abs};
ghost use Rattle.std.specs.Int.{int_max};
ghost use Rattle.num_q.specs.Rounding.{cut_of, floor_of};
ghost use Rattle.vec_q.specs.Rows.{components};
ghost use Rattle.block_rows.specs.Stored.{nodes_of, table_of};
ghost use Rattle.block_rows.specs.Tables.{diagonal_of};
ghost use Rattle.sparse_cg.specs.Systems.{FitAt, IsShift, divisors_of, system_of, target_of};
ghost use Rattle.sparse_cg.specs.Calls.Lists.{AreShort, IsGreatest, numbers_of};
ghost use Rattle.sparse_cg.specs.Calls.States.{IsTask, system_in};

use crate::numbers::{at_least_one, entries, kept};
use crate::state::Task;
use block_rows::Rows;
use num_q::{Divisor, Q};

// Makes the system of a matrix and a gradient.
pub(crate) fn prepare(task: &mut Task, rows: &Rows, slopes: &[i128])
    requires few { nodes_of rows.now ≤ 16384 }
    requires target { length task.old.target.items ≡ 3 * nodes_of rows.now }
    requires divisors { length task.old.divisors.items ≡ 3 * nodes_of rows.now }
    requires slopes { length slopes.now ≡ 3 * nodes_of rows.now }
    ensures task { IsTask (nodes_of rows.now) task.new }
    ensures shift { IsShift slopes.now task.new.shift }
    ensures system { system_in rows.now task.new ≡
        system_of (nodes_of rows.now) (table_of rows.now) slopes.now task.new.shift }
{
    let shift = find_shift(slopes);
    task.shift = shift;
    write_target(&mut task.target, slopes, shift);
    write_divisors(&mut task.divisors, rows);
}

// By how many bits slopes must be shortened.
fn find_shift(slopes: &[i128]) -> u32
    ensures shift { IsShift slopes.now result }
    ensures small { result ≤ 60 }
{
    shift_of(greatest_size(slopes))
}

// The greatest size of slopes.
fn greatest_size(slopes: &[i128]) -> u128
    ensures value { IsGreatest slopes.now result }
    ensures small { result < 2 ^ 100 }
{
    let mut most = 0;
    for i in 0..slopes.len() {
        most = size_of(slope_at(slopes, i)).max(most);
    }
    most
}

fn size_of(slope: Q<0, 100>) -> u128
    ensures value { result ≡ unsigned_abs slope.raw }
    ensures small { result < 2 ^ 100 }
{
    slope.raw().unsigned_abs()
}

// The slope at a place of a list, cut.
fn slope_at(slopes: &[i128], i: usize) -> Q<0, 100>
    requires { i < length slopes.now }
    ensures { result.raw ≡ cut_of 100 (slice_index_or slopes.now i (pos 0)) }
{
    let most = (1i128 << 100) - 1;
    Q::of_raw(slopes[i].clamp(-most, most))
}

// The least shift for a greatest size.
fn shift_of(most: u128) -> u32
    requires { most < 2 ^ 100 }
    ensures fits { most < 2 ^ (40 + result) }
    ensures least { (lesser : ℕ) → lesser < result → 2 ^ (40 + lesser) ≤ most }
    ensures small { result ≤ 60 }
{
    for shift in 0..60u32 {
        if most < 1u128 << (40 + shift) {
            return shift;
        }
    }
    60
}

fn write_target(out: &mut [i64], slopes: &[i128], shift: u32)
    requires shift { shift ≤ 60 }
    requires each { length slopes.now ≡ length out.old }
    requires fit { FitAt slopes.now shift }
    ensures value { out.new ≡ target_of slopes.now shift }
    ensures short { AreShort out.new }
{
    for i in 0..out.len() {
        out[i] = kept(target_number(slope_at(slopes, i), shift));
    }
}

fn target_number(slope: Q<0, 100>, shift: u32) -> Q<0, 44>
    requires shift { shift ≤ 60 }
    requires fit { unsigned_abs slope.raw < 2 ^ (40 + shift) }
    ensures { result.raw ≡ floor_of (neg_ℤ slope.raw) (pos (2 ^ shift)) }
{
    shifted(slope.neg(), shift).narrowed_into()
}

fn shifted(number: Q<0, 100>, shift: u32) -> Q<0, 101>
    requires { shift ≤ 60 }
    ensures { result.raw ≡ floor_of number.raw (pos (2 ^ shift)) }
{
    Q::of_raw(number.raw() >> shift)
}

fn write_divisors(out: &mut [Divisor], rows: &Rows)
    requires { length out.old ≡ 3 * nodes_of rows.now }
    ensures { numbers_of out.new ≡ divisors_of (nodes_of rows.now) (table_of rows.now) }
{
    for node in 0..rows.nodes() {
        let divisors = divisors_at(rows, node);
        write_three(out, 3 * node as usize, divisors);
    }
}

// Writes the divisors of a node from a place on.
fn write_three(out: &mut [Divisor], first: usize, node: NodeDivisors)
    requires room { first + 2 < length out.old }
    ensures { out.new ≡ slice_set (slice_set (slice_set out.old first node.x) (first + 1) node.y)
        (first + 2) node.z }
{
    out[first] = node.x;
    out[first + 1] = node.y;
    out[first + 2] = node.z;
}

// The divisors of a node's three numbers.
#[derive(Clone, Copy)]
struct NodeDivisors {
    x: Divisor,
    y: Divisor,
    z: Divisor,
}

// The diagonal entries of a node, where they are at least 1.
fn divisors_at(rows: &Rows, node: u32) -> NodeDivisors
    requires { node < nodes_of rows.now }
    ensures { (pos result.x.number ∷ pos result.y.number ∷ pos result.z.number ∷ [])
        ≡ map (int_max (pos 1)) (components (diagonal_of (table_of rows.now node node))) }
{
    let diagonal = entries(rows.diagonal(node));
    NodeDivisors {
        x: divisor_of(diagonal.x),
        y: divisor_of(diagonal.y),
        z: divisor_of(diagonal.z),
    }
}

fn divisor_of(entry: Q<0, 62>) -> Divisor
    ensures { pos result.number ≡ int_max (pos 1) entry.raw }
{
    Divisor::of(at_least_one(entry).raw() as u64)
}
