//! Up to four points, as the corners of a part.
ghost use Rattle.std.specs.Prelude.{◌≡◌, ◌≤◌};
ghost use Rattle.space3.specs.declared.spots.TheConstants.{SPOT_LIMIT};

use crate::vectors::V3;

/// The most points of a spot: the corners of a tetrahedron.
pub const SPOT_LIMIT: u8 = 4;

/// A list of `count` points, 1 to 4: the first `count` of `at`, in grid units.
#[derive(Clone, Copy, PartialEq, Eq, Debug)]
pub struct Spot {
    pub count: u8,
    pub at: [V3; 4],
    pub ghost some: { 1 ≤ count },
    pub ghost few: { count ≤ SPOT_LIMIT },
}

/// A part that moves: its corners at the start and at the end, in the same order.
#[derive(Clone, Copy, PartialEq, Eq, Debug)]
pub struct Part {
    pub start: Spot,
    pub end: Spot,
    pub ghost as_many: { start.count ≡ end.count },
}
