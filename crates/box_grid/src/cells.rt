//! The cells of a uniform grid, and their keys.
ghost use Rattle.std.specs.Prelude.{◌≡◌, ◌+◌, ◌-◌, ◌<◌, ◌≤◌, ◌++◌, ℕ, ℤ, pos, ◌+ℤ◌, ◌-ℤ◌, IfOk, max, min};
ghost use Rattle.space3.specs.declared.places.TheConstants.{BOX_LIMIT};
ghost use Rattle.space3.specs.Vectors.{AtMost, Within};
ghost use Rattle.space3.specs.Box.{IsInTheBox};
ghost use Rattle.box_grid.specs.Near.{LiesInTheBox};
ghost use Rattle.box_grid.specs.Calls.Cells.{AreCells, IsCell, LiesByTheBox, cell_at, cell_of, cells_between, cells_over, key_of, keys_over, lowered, raised, row_keys, slab_keys, widened};

use crate::limits::{
    AXIS_LIMIT, FIRST_FACTOR, LEAST_SIDE, REACH_LIMIT, SECOND_FACTOR, THIRD_FACTOR,
};
use space3::{BoundingBox, V3};
use std::alloc::AllocError;

/// A cell of the grid, by its position along each axis.
#[derive(Clone, Copy)]
pub(crate) struct Cell {
    pub x: u64,
    pub y: u64,
    pub z: u64,
}

/// Cells of the grid: the first along each axis, and how many.
#[derive(Clone, Copy)]
pub(crate) struct Cells {
    pub x: u64,
    pub y: u64,
    pub z: u64,
    pub width: u64,
    pub depth: u64,
    pub height: u64,
}

/// The box with its corners moved apart by the reach.
pub(crate) fn widened(around: &BoundingBox, reach: u32) -> BoundingBox
    requires in_box { LiesInTheBox around.now }
    requires reach { reach ≤ REACH_LIMIT }
    ensures value { result ≡ widened reach around.now }
    ensures by_box { LiesByTheBox result }
{
    BoundingBox {
        least: lowered(around.least, reach),
        greatest: raised(around.greatest, reach),
    }
}

/// The cells between those of the two corners of a box.
pub(crate) fn cells_over(side: u64, around: &BoundingBox) -> Cells
    requires side { LEAST_SIDE ≤ side }
    requires by_box { LiesByTheBox around.now }
    ensures value { result ≡ cells_over side around.now }
    ensures within { AreCells result }
{
    cells_between(cell_at(side, around.least), cell_at(side, around.greatest))
}

/// How many cells there are, or the greatest number of its type where that is less.
pub(crate) fn cell_count(cells: &Cells) -> u64 {
    cells
        .width
        .saturating_mul(cells.depth)
        .saturating_mul(cells.height)
}

/// Writes the keys of the cells into `keys`, which may hold anything before.
pub(crate) fn keys_over(cells: &Cells, keys: &mut Vec<u32>) -> Result<(), AllocError>
    requires { AreCells cells.now }
    ensures { IfOk result (λ _. keys.new.items ≡ keys_over cells.now) }
{
    keys.clear();
    for k in 0..cells.width {
        append_slab(keys, cells, cells.x + k)?;
    }
    Ok(())
}

// Appends the keys of the cells at this position along the first axis.
fn append_slab(keys: &mut Vec<u32>, cells: &Cells, x: u64) -> Result<(), AllocError>
    requires cells { AreCells cells.now }
    requires x { x < AXIS_LIMIT }
    ensures { IfOk result (λ _. keys.new.items ≡ keys.old.items ++ slab_keys cells.now x) }
{
    for k in 0..cells.depth {
        append_row(keys, cells, x, cells.y + k)?;
    }
    Ok(())
}

// Appends the keys of the cells at these positions along the first two axes.
fn append_row(keys: &mut Vec<u32>, cells: &Cells, x: u64, y: u64) -> Result<(), AllocError>
    requires cells { AreCells cells.now }
    requires x { x < AXIS_LIMIT }
    requires y { y < AXIS_LIMIT }
    ensures { IfOk result (λ _. keys.new.items ≡ keys.old.items ++ row_keys cells.now x y) }
{
    for k in 0..cells.height {
        keys.push(key_of(x, y, cells.z + k))?;
    }
    Ok(())
}

// The cells from one of two cells to the other, along each axis from the lesser to the greater position.
fn cells_between(a: Cell, b: Cell) -> Cells
    requires first { IsCell a }
    requires last { IsCell b }
    ensures value { result ≡ cells_between a b }
    ensures within { AreCells result }
{
    Cells {
        x: a.x.min(b.x),
        y: a.y.min(b.y),
        z: a.z.min(b.z),
        width: count_between(a.x, b.x),
        depth: count_between(a.y, b.y),
        height: count_between(a.z, b.z),
    }
}

// How many positions there are from one of two to the other, both counted.
fn count_between(a: u64, b: u64) -> u64
    requires first { a < AXIS_LIMIT }
    requires last { b < AXIS_LIMIT }
    ensures { result ≡ max a b - min a b + 1 }
{
    a.max(b) - a.min(b) + 1
}

fn cell_at(side: u64, corner: V3) -> Cell
    requires side { LEAST_SIDE ≤ side }
    requires corner { Within (BOX_LIMIT + REACH_LIMIT) corner }
    ensures value { result ≡ cell_at side corner }
    ensures within { IsCell result }
{
    Cell {
        x: cell_of(side, corner.x),
        y: cell_of(side, corner.y),
        z: cell_of(side, corner.z),
    }
}

// The position of a component's cell along its axis.
#[tactic(auto, unfolding(crate::specs::Calls::Cells::cell_of))]
fn cell_of(side: u64, v: i64) -> u64
    requires side { LEAST_SIDE ≤ side }
    requires v { AtMost (BOX_LIMIT + REACH_LIMIT) v }
    ensures value { result ≡ cell_of side v }
    ensures bound { result < AXIS_LIMIT }
{
    (v + AXIS_LIMIT as i64) as u64 / side
}

// The key of a cell. Cells far apart may have the same.
#[tactic(auto, unfolding(crate::specs::Calls::Cells::key_of))]
fn key_of(x: u64, y: u64, z: u64) -> u32
    requires x { x < AXIS_LIMIT }
    requires y { y < AXIS_LIMIT }
    requires z { z < AXIS_LIMIT }
    ensures { result ≡ key_of x y z }
{
    let sum = x * u64::from(FIRST_FACTOR)
        + y * u64::from(SECOND_FACTOR)
        + z * u64::from(THIRD_FACTOR);
    (sum % 4_294_967_296) as u32
}

fn lowered(corner: V3, reach: u32) -> V3
    requires corner { IsInTheBox corner }
    requires reach { reach ≤ REACH_LIMIT }
    ensures value { result ≡ lowered reach corner }
    ensures bound { Within (BOX_LIMIT + REACH_LIMIT) result }
{
    V3 {
        x: less(corner.x, reach),
        y: less(corner.y, reach),
        z: less(corner.z, reach),
    }
}

fn raised(corner: V3, reach: u32) -> V3
    requires corner { IsInTheBox corner }
    requires reach { reach ≤ REACH_LIMIT }
    ensures value { result ≡ raised reach corner }
    ensures bound { Within (BOX_LIMIT + REACH_LIMIT) result }
{
    V3 {
        x: more(corner.x, reach),
        y: more(corner.y, reach),
        z: more(corner.z, reach),
    }
}

fn less(a: i64, by: u32) -> i64
    requires a { AtMost BOX_LIMIT a }
    requires by { by ≤ REACH_LIMIT }
    ensures value { result ≡ a -ℤ pos by }
    ensures bound { AtMost (BOX_LIMIT + REACH_LIMIT) result }
{
    a - i64::from(by)
}

fn more(a: i64, by: u32) -> i64
    requires a { AtMost BOX_LIMIT a }
    requires by { by ≤ REACH_LIMIT }
    ensures value { result ≡ a +ℤ pos by }
    ensures bound { AtMost (BOX_LIMIT + REACH_LIMIT) result }
{
    a + i64::from(by)
}
