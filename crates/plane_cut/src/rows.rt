//! Rows after the elimination of the third component.
use num_q::Q;

/// A row whose third component is 0. The others are minors of two components each.
#[derive(Clone, Copy)]
pub struct Flat {
    pub x: Q<0, 61>,
    pub y: Q<0, 61>,
}
