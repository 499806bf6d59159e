//! Points and tetrahedra in motion.
use space3::V3;

/// A point that moves straight through one step: its places at the start and at the end, in grid units.
#[derive(Clone, Copy, PartialEq, Eq, Debug)]
pub struct Move {
    pub start: V3,
    pub end: V3,
}

/// A tetrahedron in motion, by its four corners.
#[derive(Clone, Copy, PartialEq, Eq, Debug)]
pub struct Corners {
    pub first: Move,
    pub second: Move,
    pub third: Move,
    pub fourth: Move,
}

/// The three edges from a tetrahedron's first corner to the others, in their order.
#[derive(Clone, Copy, PartialEq, Eq, Debug)]
pub struct Edges {
    pub u: V3,
    pub v: V3,
    pub w: V3,
}
