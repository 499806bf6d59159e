//! Friction of a contact, lagged by a frame: the force, the normal and the weights are those of the frame's beginning.
//! It is that of Li and others, "Incremental Potential Contact", 2020, as exact whole numbers.
//!
//! `contacts`, `lagged`: what a frame keeps of a contact, and how it is made. `slide`, `normal`: how far the parts
//! slid, lengths and unit vectors. `smooth`: the length that friction works along. `friction`: energy, gradient, one
//! block; `blocks`: all sixteen at once. `laws`: a worked case.
#![tactic(auto)]

mod blocks;
mod contacts;
mod friction;
mod lagged;
mod laws;
mod normal;
mod slide;
mod smooth;

pub use blocks::friction_blocks;
pub use contacts::Contact;
pub use friction::{friction_block, friction_energy, friction_gradient};
pub use lagged::contact;
pub use laws::example_of_a_sliding_point;
