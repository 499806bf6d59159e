//! A logarithm and a root of whole numbers, exact to their last bit.
//!
//! The logarithm to base 2 is the recurrence of repeated squaring, 24 bits behind the point. It is monotone, and
//! 2^`lg(m)` and 2^(`lg(m)` + 2) are about the power `m`^(2^24).
//!
//! `logarithm`: the logarithm, and that of a quotient. `root`: the greatest root. `laws`: what both definitions
//! stand on.
#![tactic(auto)]

mod laws;
mod logarithm;
mod root;

pub use laws::{highest_bit_counts, root_is_greatest};
pub use logarithm::{ARGUMENT_BITS, LN_2, lg, ln_over, ln_ratio};
pub use root::isqrt;
