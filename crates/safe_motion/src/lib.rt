//! Straight motion on the whole-number grid: what it means that two parts meet, that a motion is safe,
//! and the certificates from which it follows. The laws are public functions with empty bodies, whose
//! contracts are the laws.
//!
//! `motion`: points and tetrahedra in motion. `safety`: the main law, that certificates make a step safe.
//! `pair_laws`, `volume_laws`, `still_laws`: the laws behind it. `depth`: of certificates. `examples`: motions in
//! small numbers.
#![tactic(auto)]

mod depth;
mod examples;
mod motion;
mod pair_laws;
mod safety;
mod still_laws;
mod volume_laws;

pub use depth::DEPTH;
pub use examples::{
    overturning_tetrahedron_is_refused, swinging_edge_needs_depth_six,
    turning_edge_needs_one_halving,
};
pub use motion::{Corners, Edges, Move};
pub use pair_laws::{
    certified_parts_stay_apart, pair_certificates_are_by_halves, pair_certificates_deepen,
    separated_lists_do_not_meet, separation_lasts_inside, served_parts_stay_apart,
    untouched_parts_are_certified,
};
pub use safety::certified_is_safe;
pub use still_laws::{
    safe_motions_have_safe_ends, standing_is_safe_at_safe_places, still_parts_meet_as_at_the_start,
    still_volumes_are_as_at_the_start,
};
pub use volume_laws::{
    certified_volumes_stay_positive, positive_coefficients_keep_the_volume,
    volume_certificates_are_by_halves, volume_certificates_deepen,
};
