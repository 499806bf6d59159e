//! Boxes near another one, found by a uniform grid: for each box the positions of exactly those others whose gap to it is
//! small.
//!
//! `grid`: the grid and its one question. `sizes`: how wide cells are, on two levels. `cells`: the cells over a box, and
//! their keys. `entries`: which box covers which cell, sorted. `buckets`: where the entries with a key stand. `search`: the
//! near boxes among the entries of some cells. `limits`: of reaches, cells and buckets.
#![tactic(auto)]

mod buckets;
mod cells;
mod entries;
mod grid;
mod limits;
mod search;
mod sizes;

pub use grid::{BoxGrid, Room};
pub use limits::REACH_LIMIT;
