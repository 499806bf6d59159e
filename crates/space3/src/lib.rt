//! Vectors of whole numbers with exact products, and tetrahedral meshes.
//! Each product is the one of unbounded whole numbers, under a bound on the components.
//! A mesh is seen as three lists: node numbers, places, tetrahedra.
//!
//! `vectors`: differences, products, determinants. `boxes`: boxes and gaps. `places`, `ways`: places in the box,
//! straight ways and halved directions. `spots`: up to four points. `mesh`, `lists`: meshes and their lists.
#![tactic(auto)]

mod boxes;
mod lists;
mod mesh;
mod places;
mod spots;
mod vectors;
mod ways;

pub use boxes::{
    BoundingBox, are_within, box_around, box_around_is_of_joined_list, box_corners_keep_bounds,
    box_of, boxes_touch_at_reach_zero,
};
pub use lists::{NodeNumbers, Tags, Tet, TetList};
pub use mesh::{Mesh, NODE_LIMIT, NUMBER_LIMIT, TAG_LIMIT, TET_LIMIT, edge, rest_det};
pub use places::{BOX_LIMIT, Places};
pub use spots::{Part, SPOT_LIMIT, Spot};
pub use vectors::{CROSS_LIMIT, V3, VECTOR_LIMIT, W3, cross, det, dot, dot_wide, sub};
pub use ways::{DIRECTION_LIMIT, FINE_LIMIT, HALVING_LIMIT, SCALE_LIMIT, at_scale, halved};
