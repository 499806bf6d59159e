//! The limit of a surface.

/// The greatest number of triangles of a surface. With it there are at most 98304 edges, and all pairs of vertices,
/// edges and triangles are fewer than 2^34.
pub const TRIANGLE_LIMIT: u32 = 32768;
