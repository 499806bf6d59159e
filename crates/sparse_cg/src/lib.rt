//! Directions from a sparse matrix and a gradient, in whole numbers: Newton's, by conjugate
//! gradients of at most 200 turns, where these end; and Jacobi's, which there always is.
//!
//! `solve`: the two public calls, `work`, `state`: their arrays. `scale`: the system, in shortened numbers.
//! `search`, `turn`: turns until the residual is small. `lists`, `numbers`: lists and single numbers of a turn.
//! `directions`: solutions as directions. `laws`: there is one Newton direction at most.
#![tactic(auto)]

mod directions;
mod laws;
mod lists;
mod numbers;
mod scale;
mod search;
mod solve;
mod state;
mod turn;
mod work;

pub use laws::{a_solution_is_not_zero, directions_of_two_nodes, one_newton};
pub use solve::{jacobi, newton};
pub use work::Work;
