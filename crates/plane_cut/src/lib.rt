//! Whether one plane through the origin leaves a list of vectors strictly on one side, and whether two
//! convex hulls meet. Both are decided by eliminating one variable after the other.
//!
//! `planes`: the elimination of the first variable, `rows` and `cones`: of the second and third. `meeting`: whether
//! two hulls meet. `laws`: a plane, or weights, and never both.
#![tactic(auto)]

mod cones;
mod laws;
mod meeting;
mod planes;
mod rows;

pub use laws::{plane_excludes_weights, plane_or_weights, separated_or_meeting};
pub use meeting::{FIRST_LIMIT, meets};
pub use planes::{COMPONENT_LIMIT, ROW_LIMIT, Tally, has_plane};
