//! The nearest points of a point and a triangle, and of two edges, exactly: their squared distance as a quotient, and
//! their weights. No two points of the two parts are nearer.
//!
//! `near`: the public answers, by `triangles` and `edges`, which list the candidates of each kind; `choices`: the
//! nearest of some candidates, `found`: how code holds them. `parts`: both kinds as four points. `distance`: the
//! distance as a number, and the way between the points.
#![tactic(auto)]

mod choices;
mod distance;
mod edges;
mod found;
mod near;
mod parts;
mod triangles;

pub use distance::weight_at;
pub use near::{Near, near_ee, near_vt};
pub use parts::near_parts;
