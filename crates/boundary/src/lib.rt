//! The boundary of a mesh: the triangles, edges and vertices that belong to one tetrahedron alone, or the least face
//! that stands in the way of a boundary; and the order of the pairs of parts that must not meet.
//!
//! `surface`: the surface of a mesh, from `faces` of all tetrahedra, `groups` of equal ones, and `sides` of
//! triangles; `refusal`: why there is none. `pairs`: the pairs of parts in order, `parts`: their corners. `limits`:
//! how many triangles. `laws`: a mesh has one surface or one refusal.
#![tactic(auto)]

mod faces;
mod groups;
mod laws;
mod limits;
mod pairs;
mod parts;
mod refusal;
mod sides;
mod surface;

pub use laws::{each_mesh_has_a_surface_outcome, one_surface_outcome};
pub use limits::TRIANGLE_LIMIT;
pub use pairs::{KINDS, Pair, PairKind, pairs_stand_in_order, share_node};
pub use parts::PairParts;
pub use refusal::SurfErr;
pub use surface::{Surface, mesh_has_one_surface};
