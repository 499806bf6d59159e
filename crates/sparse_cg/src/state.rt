//! Work arrays.
use num_q::{Divisor, Q};

/// What a search is for: the right side, the divisors, and by how many bits both are shortened.
#[derive(Drop)]
pub(crate) struct Task {
    pub target: Vec<i64>,
    pub divisors: Vec<Divisor>,
    pub shift: u32,
}

/// The numbers of a turn, and room for those that the next one needs.
#[derive(Drop)]
pub(crate) struct State {
    pub x: Vec<i64>,
    pub r: Vec<i64>,
    pub p: Vec<i64>,
    pub rho: Q<0, 104>,
    pub scratch: Vec<i64>,
    pub product: Vec<i128>,
}
