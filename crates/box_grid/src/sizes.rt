//! The sides of cells, and the two levels of boxes.
ghost use Rattle.std.specs.Prelude.{◌≡◌, ◌*◌, ◌<◌, ◌≤◌, All};
ghost use Rattle.box_grid.specs.Calls.Cells.{has, is_great, longest_side};

use crate::limits::{LEAST_SIDE, MOST_SPLIT};
use space3::BoundingBox;

/// Which boxes a level has, and how long its cells are.
#[derive(Clone, Copy)]
pub(crate) struct Level {
    /// The level has the great boxes, or else all others.
    pub great: bool,
    /// The side of cells beside which a box is great or not.
    pub common: u64,
    /// The side of the cells of this level.
    pub side: u64,
}

/// Whether a box is of the level.
pub(crate) fn has(level: Level, around: &BoundingBox) -> bool
    ensures { result ≡ has level around.now }
{
    let great = is_great(level.common, around);
    if level.great { great } else { !great }
}

/// The side of the cells for the boxes that aren't great: one and a half times the mean longest side of all boxes, or the
/// reach where that is more. What is found doesn't depend on it. Smaller cells make more entries, more rows to look up
/// and more great boxes, greater ones more boxes to test.
pub(crate) fn common_side(boxes: &[BoundingBox], reach: u32) -> u64
    ensures { LEAST_SIDE ≤ result }
{
    let mean = mean_side(boxes, 0);
    mean.saturating_add(mean / 2)
        .max(u64::from(reach))
        .max(LEAST_SIDE)
}

/// The side of the cells for the boxes that are great beside cells of the common side: about their mean longest side,
/// which is more than [`MOST_SPLIT`] common sides, and never so small that a box covers many cells.
pub(crate) fn great_side(boxes: &[BoundingBox], common: u64) -> u64
    ensures coarse { common ≤ result }
    ensures few_cells { All (λ b. longest_side b < MOST_SPLIT * result) boxes.now }
{
    let longest = longest_of_all(boxes);
    mean_side(boxes, common)
        .max(longest / MOST_SPLIT + 1)
        .max(common.saturating_mul(MOST_SPLIT))
}

// The mean longest side of the boxes that are great beside cells of this side; of all boxes beside cells of side 0.
fn mean_side(boxes: &[BoundingBox], side: u64) -> u64 {
    let mut sum = 0u64;
    let mut count = 0u64;
    for around in boxes {
        if is_great(side, around) {
            sum = sum.saturating_add(longest_side(around));
            count = count.saturating_add(1);
        }
    }
    sum / count.max(1)
}

fn longest_of_all(boxes: &[BoundingBox]) -> u64
    ensures { All (λ b. longest_side b ≤ result) boxes.now }
{
    let mut longest = 0u64;
    for around in boxes {
        longest = longest.max(longest_side(around));
    }
    longest
}

// Whether a box may cover more than 9 cells of this side along an axis.
fn is_great(side: u64, around: &BoundingBox) -> bool
    ensures { result ≡ is_great side around.now }
{
    side <= longest_side(around) / MOST_SPLIT
}

// The longest side of a box.
fn longest_side(around: &BoundingBox) -> u64
    ensures { result ≡ longest_side around.now }
{
    let x = around.greatest.x.abs_diff(around.least.x);
    let y = around.greatest.y.abs_diff(around.least.y);
    let z = around.greatest.z.abs_diff(around.least.z);
    x.max(y).max(z)
}
