//! What mesh texts have in common: rows that begin with a section's word, numbers of nodes and elements, tags,
//! coordinates, element types, and the index that finds a node by its number.
//!
//! - `kinds`: what may be wrong with a mesh text.
//! - `words`: what a row's first field says. `fields`: what one field is, or what is wrong with it.
//! - `elements`: the types of elements that are read. `index`: where the node of a number stands.
#![tactic(auto)]

mod elements;
mod fields;
mod index;
mod kinds;
mod words;

pub use elements::ElementType;
pub use fields::{coordinate, element_type, node_position, positive_number, tag_count};
pub use index::{NEAR_LIMIT, NodeIndex};
pub use kinds::MshKind;
pub use words::{begins_with_dollar, begins_with_word, ends_section, section_name};
