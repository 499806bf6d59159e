//! Frames: steps down the potential from the places of one frame to those of the next.
//!
//! `sim`: a simulation between two frames. `frame`: the steps of one frame, `steps`: the step at some places,
//! Newton's or Jacobi's. `before`: the places before. `laws`: that there is one path, and what holds on it.
#![tactic(auto)]

mod before;
mod frame;
mod laws;
mod sim;
mod steps;

pub use laws::{fixed_nodes_stay, one_path, paths_are_safe, paths_go_down, there_is_a_path};
pub use line_search::{DirKind, FrameEnd, Step};
pub use sim::Sim;
