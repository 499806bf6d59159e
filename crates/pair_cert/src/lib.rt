//! Whether two parts of a mesh that move straight are certified to stay apart.
//! One vector that separates them at both ends of an interval does so inside. Where none does, the
//! interval is halved, up to eight times.
//!
//! `certificate`: the call, interval by interval. `centres`: the guess that settles most pairs, from the corners alone.
//! `planes`: whether one vector separates at both ends, `guesses`: vectors to try first. `moves`, `relative_moves`,
//! `corners`, `halves`: two parts in motion, as seen from each other. `swept_boxes`: boxes. `short_products`: dot
//! products in 64 bits.
#![tactic(auto)]

mod centres;
mod certificate;
mod corners;
mod guesses;
mod halves;
mod moves;
mod planes;
mod relative_moves;
mod short_products;
mod swept_boxes;

pub use certificate::certify_pair;
