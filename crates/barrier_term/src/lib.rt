//! The barrier between two parts of a surface that are close: its energy, slope, gradient and part of the matrix, as
//! exact whole numbers. It is that of Li and others, "Incremental Potential Contact", 2020, in the squared distance.
//!
//! `active`: pairs that are nearer than dhat, and what energy, gradient and blocks share. `energy`, `gradient`:
//! these two. `block`: one block, `blocks`: all sixteen at once. `laws`: energy falls with the distance, and where
//! all is 0.
#![tactic(auto)]

mod active;
mod block;
mod blocks;
mod energy;
mod gradient;
mod laws;

pub use active::{MOST_STIFFNESS, reach_of};
pub use block::barrier_block;
pub use blocks::barrier_blocks;
pub use energy::{barrier_energy, barrier_slope};
pub use gradient::barrier_gradient;
pub use laws::{
    barrier_is_nothing_beyond_dhat, energy_falls_with_the_distance, example_over_a_triangle,
    far_boxes_are_beyond_dhat,
};
