//! Meshes as text, in the ASCII form 2.2 of Gmsh's MSH format: reading what Gmsh writes, or naming the first fault, and
//! writing frames.
//!
//! - `refusal`: why a text is refused. `read`: `read_msh`, a loop over lines. `stage`: where the reader stands.
//! - `steps`: what one row does at each stage. `frame`: the text of a frame. `laws`: what a text means, and its first fault.
#![tactic(auto)]

mod frame;
mod laws;
mod read;
mod refusal;
mod stage;
mod steps;

pub use frame::write_frame;
pub use laws::{frame_reads_back, means_or_fault, never_both, one_fault, one_mesh, same_fault};
pub use mesh_words::MshKind;
pub use read::read_msh;
pub use refusal::{MshErr, ReadMshErr};
