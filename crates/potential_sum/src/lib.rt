//! The potential that a frame lowers, and its gradient: sums of contributions of nodes, of tetrahedra, of pairs of close
//! parts of the surface, and of contacts.
//!
//! `terms`: the public calls. `inertia`, `bodies`, `barriers`, `friction`: what nodes, tetrahedra, pairs and
//! contacts give; `held`: the energy that no free node changes; `turns`: the order of tetrahedra; `contacts`: the contacts
//! of a frame. `pulls`: the sums of the gradient. `matrix`, `blocks`: the sums of the matrix. `laws`: the matrix is
//! symmetric.
#![tactic(auto)]

mod barriers;
mod blocks;
mod bodies;
mod contacts;
mod friction;
mod held;
mod inertia;
mod laws;
mod matrix;
mod pulls;
mod terms;
mod turns;

pub use laws::the_matrix_is_symmetric;
pub use terms::Terms;
