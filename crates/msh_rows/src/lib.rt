//! Rows of a mesh text in Gmsh's MSH 2.2: what each row means, and the first kind of what is wrong with it.
//!
//! - `sections`: rows that open and end sections, the format's row and the counts. `nodes`: a node's row.
//! - `elements`: an element's row, `tags` and `corners` its tags and its nodes.
#![tactic(auto)]

mod corners;
mod elements;
mod nodes;
mod sections;
mod tags;

pub use elements::{RowErr, read_element};
pub use nodes::{Node, read_node};
pub use sections::{Opening, read_count, read_end, read_format, read_node_count, section_opening};
