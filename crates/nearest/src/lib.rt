//! What the nearest points of a point and a triangle are, and those of two edges: the first least of a few
//! candidates. No two points of the two convex hulls are nearer. Nothing here runs.
#![tactic(auto)]

mod laws;
mod limits;

pub use laws::{
    boxes_within_a_gap_are_close, candidates_of_edges_are_points,
    candidates_of_triangle_are_points, example_of_parallel_edges, example_over_a_triangle,
    first_least_is_found, inside_of_triangle_is_taken, insides_of_edges_are_taken, one_is_taken,
    points_of_close_parts_are_near, signed_weights_are_balanced, some_is_taken_of_edges,
    some_is_taken_of_triangle, taken_is_nearest_of_edges, taken_is_nearest_of_triangle,
    weights_of_edges_are_coefficients, weights_of_triangle_are_coefficients,
};
pub use limits::{APART_LIMIT, EDGE_LIMIT, GAP_LIMIT, ONE};
