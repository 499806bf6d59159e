//! What bodies must be at the start.

/// The least rest determinant of a tetrahedron, in cubed grid units. What is divided by it stays within its width.
pub const LEAST_REST: i128 = 262_144;

/// The greatest component of an edge at rest, in grid units. A quarter of what an edge may have in motion.
pub const LONGEST_REST: u32 = 16_384;

/// The greatest mass of a node, so that mass times a squared offset is below 2^123.
pub const MOST_MASS: i128 = 1 << 58;
