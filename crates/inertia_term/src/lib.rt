//! Inertia of one node: what it adds to the potential of a frame, to its gradient and to its matrix.
//!
//! `target`: where a node would be without forces. `inertia`: energy, gradient and block. `laws`: worked cases.
#![tactic(auto)]

mod inertia;
mod laws;
mod target;

pub use inertia::{inertia_block, inertia_energy, inertia_gradient};
pub use laws::{a_node_falls, inertia_is_rounded_down};
pub use target::{FARTHEST_TARGET, target_of};
