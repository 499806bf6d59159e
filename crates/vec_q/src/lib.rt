//! Vectors and 3x3 matrices of fixed point. Fraction bits and widths of the parts are constants of
//! the types, so that no product and no sum wraps, and callers show it by constants alone. In
//! clauses a vector is seen as the vector of its raw numbers, and a matrix as that of its columns.
//!
//! `vectors`, `matrices`: vectors, matrices and their products. `laws`: what the adjugate is.
#![tactic(auto)]

mod laws;
mod matrices;
mod vectors;

pub use laws::adjugate_gives_the_determinant;
pub use matrices::MatQ;
pub use vectors::{VecQ, edge_between};
