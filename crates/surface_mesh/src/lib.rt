//! The bodies of a scene: materials by physical tag, and what a mesh and its materials give each tetrahedron
//! and each node.
//!
//! `materials`, `ranges`: materials and the numbers of a scene. `setup`: the bodies, ready to move, with `shares`
//! that tetrahedra give their nodes and `lists` of these. `edges`: how long edges are. `sturdy`: what bodies must be
//! at the start.
#![tactic(auto)]

mod edges;
mod lists;
mod materials;
mod ranges;
mod setup;
mod shares;
mod sturdy;

pub use edges::has_edges_within;
pub use lists::{DirList, FixedList, MassList, RestList, VelocityList};
pub use materials::{Material, Numbers, PartList};
pub use ranges::{
    FARTHEST_BEFORE, FASTEST, LEAST_DHAT, MOST_DENSITY, MOST_DHAT, MOST_FRICTION, MOST_GRAVITY,
    MOST_KAPPA, MOST_MODULUS, MOST_PARTS, MOST_SLIP,
};
pub use setup::Setup;
pub use sturdy::{LEAST_REST, LONGEST_REST, MOST_MASS};
