//! What a mesh must not have at the start: the first defect by name, or none.
//!
//! `defects`: the defects in their order, `meeting`: the first pair that meets. `laws`: a setup has one first
//! defect, or none.
#![tactic(auto)]

mod defects;
mod laws;
mod meeting;

pub use defects::{Defect, first_defect};
pub use laws::one_first_defect;
