//! Limits of the reach and of cells.

/// The greatest gap that is asked for, in grid units: 2^12. So a corner of the box of places that is moved by it keeps
/// far from the borders of the cells.
pub const REACH_LIMIT: u32 = 4096;

/// Along each axis cells have positions below this, 2^21. It is added to the components of corners, which are smaller
/// even where they are moved by the reach, so that none is negative; the sum is below 2^22, and a side is 2 at least.
pub(crate) const AXIS_LIMIT: u32 = 2_097_152;

/// The least side of a cell. With it the positions of cells stay below [`AXIS_LIMIT`].
pub(crate) const LEAST_SIDE: u64 = 2;

/// What a cell's position along the first axis is multiplied by for its key. The three numbers are large and odd, so that
/// cells near each other have keys far apart. What is found doesn't depend on them.
pub(crate) const FIRST_FACTOR: u32 = 2_654_435_761;

/// The same for the second axis.
pub(crate) const SECOND_FACTOR: u32 = 2_246_822_519;

/// The same for the third axis.
pub(crate) const THIRD_FACTOR: u32 = 3_266_489_917;

/// There are no more buckets than this, 2^24.
pub(crate) const MOST_BUCKETS: u64 = 16_777_216;

/// The longest side of a box is less than this many sides of its level's cells. So it covers at most 9 cells along an
/// axis, and great boxes make no flood of entries.
pub(crate) const MOST_SPLIT: u64 = 8;

/// A cell is looked up in about the time in which so many boxes are compared. Where there are more cells over a box than
/// are worth it, all boxes are tested in order.
pub(crate) const BOXES_A_CELL: u64 = 8;
