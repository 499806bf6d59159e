//! Laws of whole numbers: ring laws and a ring normaliser, the order under products, sizes, floors.
//! All of them are lemmas in `proofs/`, for the crates above to cite; a program runs nothing of this crate.
#![tactic(auto)]
