//! The pairs of a surface's parts whose boxes touch in a motion, and those whose boxes are close at one moment, found
//! by uniform grids without a look at each pair; or, where little has moved, among pairs that were kept.
//!
//! `pairs`: the public calls. `near`: the walk over first parts. `boxes`: the boxes of all parts. `held`: nodes that
//! can't move. `moving`: pairs of which some node moves, or can. `kept`: pairs that are kept. `list`: a list of pairs.
//! `laws`: what holds of the pairs that are left out.
#![tactic(auto)]

mod boxes;
mod held;
mod kept;
mod laws;
mod list;
mod moving;
mod near;
mod pairs;

pub use held::{are_held, is_loose};
pub use kept::{KEPT_LIMIT, Kept};
pub use laws::untouched_pairs_are_certified;
pub use list::PairList;
pub use moving::{is_same, moving_pairs};
pub use near::BoxTests;
pub use pairs::{close_pairs, swept_pairs, swept_pairs_counted};
