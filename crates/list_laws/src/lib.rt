//! Laws of lists and decisions: what holds of each element, positions and searches, pushes, chains of steps, sums.
//! The lemmas stand in `proofs/`, for the crates above to cite; a program runs nothing of this crate.
#![tactic(auto)]
