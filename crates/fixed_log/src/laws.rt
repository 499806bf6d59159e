//! What the logarithm's definition stands on. A law is a function that does nothing, whose contract is the law.
ghost use Rattle.std.specs.Prelude.{ℕ, ◌+◌, ◌^◌, ◌<◌, ◌≤◌};
ghost use Rattle.fixed_log.specs.Root.{IsRoot, root_of};
ghost use Rattle.fixed_log.specs.declared.logarithm.TheConstants.{ARGUMENT_BITS};
ghost use Rattle.fixed_log.specs.Logarithm.{whole_lg};

/// The whole part is the place of the highest bit.
pub fn highest_bit_counts()
    ensures power { (m : ℕ) → 1 ≤ m → m < 2 ^ ARGUMENT_BITS → 2 ^ whole_lg m ≤ m }
    ensures next { (m : ℕ) → 1 ≤ m → m < 2 ^ ARGUMENT_BITS → m < 2 ^ (whole_lg m + 1) }
{}

/// The root that is found bit by bit is the greatest number whose square is at most the given one.
pub fn root_is_greatest()
    ensures { (n : ℕ) → n < 2 ^ 126 → IsRoot n (root_of n) }
{}
