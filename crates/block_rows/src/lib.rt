//! A sparse square matrix of 3x3 blocks, with one row of blocks for each node, sorted by column:
//! sums of what is added, in any order; the matrix of these, cut, with fixed nodes; its exact
//! product with a vector, and its diagonal.
//!
//! `sums`, `cells`, `wide`: sums of blocks, their rows, and the additions. `rows`, `row`, `kept`, `block`: the
//! matrix that is kept of them, its product and its diagonal. `laws`: products are linear.
#![tactic(auto)]

mod block;
mod cells;
mod kept;
mod laws;
mod row;
mod rows;
mod sums;
mod wide;

pub use laws::{products_are_linear, products_of_two_nodes};
pub use rows::Rows;
pub use sums::{MOST_ADDED, Sums};
