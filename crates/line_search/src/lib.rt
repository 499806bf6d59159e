//! The line search: the least halving of a direction that is accepted.
//!
//! `step`: the step of a direction and the public call, `halvings`: its halvings, one after another. `allowed`:
//! whether a step is allowed, `apart`: whether its pairs are certified. `end`: how a frame ends.
#![tactic(auto)]

mod allowed;
mod apart;
mod end;
mod halvings;
mod step;

pub use end::FrameEnd;
pub use step::{DirKind, Step, first_step};
