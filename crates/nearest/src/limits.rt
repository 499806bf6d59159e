//! How far apart points may be, and the unit of weights.

/// The weight 1: weights have 16 fraction bits.
pub const ONE: u32 = 65_536;

/// The greatest absolute value of a component of an edge, in grid units: 2^16, as of a tetrahedron in motion.
pub const EDGE_LIMIT: u32 = 65_536;

/// The greatest gap between the boxes of two parts along an axis, in grid units: barriers act within no more.
pub const GAP_LIMIT: u32 = 1_024;

/// How far apart points of two close parts are along an axis at most: two edges and a gap. It is below 2^18.
pub const APART_LIMIT: u32 = 132_096;
