//! The logarithm.
ghost use Rattle.std.specs.Prelude.{◌≡◌, ℕ, ◌+◌, ◌-◌, ◌*◌, ◌/◌, ◌^◌, ◌<◌, ◌≤◌, pos, ◌≤ℤ◌, unsigned_abs};
ghost use Rattle.fixed_log.specs.declared.logarithm.TheConstants.{ARGUMENT_BITS};
ghost use Rattle.fixed_log.specs.Logarithm.{lg_bits, whole_lg, mantissa, lg_of, great_power, ln_ratio_of, IsLogarithm};

/// The bits of an argument at most. Energies take logarithms of volumes, below 2^54, and of squared distances, below
/// 2^51.
pub const ARGUMENT_BITS: u32 = 68;

/// The natural logarithm of 2 times 2^32, rounded down.
pub const LN_2: i64 = 2_977_044_471;

/// The natural logarithm of `a` / `b`, with 24 bits behind the point, for both from 1 below 2^68: the difference of
/// their logarithms to base 2 times that of 2, which is `LN_2` / 2^32, rounded down.
pub fn ln_ratio(a: u128, b: u128) -> i64
    requires a_low { 1 ≤ a }
    requires a_high { a < 2 ^ ARGUMENT_BITS }
    requires b_low { 1 ≤ b }
    requires b_high { b < 2 ^ ARGUMENT_BITS }
    ensures value { result ≡ ln_ratio_of a b }
    ensures not_above_zero { a ≤ b → result ≤ℤ pos 0 }
    ensures small { unsigned_abs result < 2 ^ 30 }
{
    ln_over(a, lg(b))
}

/// The same, for a `b` whose logarithm to base 2 is known, as [`lg`] gives it.
#[tactic(auto, unfolding(crate::specs::Logarithm::ln_ratio_of))]
pub fn ln_over(a: u128, lg_b: i64) -> i64
    requires a_low { 1 ≤ a }
    requires a_high { a < 2 ^ ARGUMENT_BITS }
    requires b { IsLogarithm lg_b }
    ensures value { (b : ℕ) → lg_b ≡ pos (lg_of b) → result ≡ ln_ratio_of a b }
    ensures small { unsigned_abs result < 2 ^ 30 }
{
    ((lg(a) - lg_b) * LN_2) >> 32
}

/// The logarithm of `m` to base 2, with 24 bits behind the point, for `m` from 1 below 2^68.
///
/// With 2^k ≤ `m` < 2^(k+1), it begins with k and `m` / 2^k. For each bit that number is squared and rounded down to
/// 61 bits behind the point; where it is 2 or more, the bit counts and the number is halved.
pub fn lg(m: u128) -> i64
    requires low { 1 ≤ m }
    requires high { m < 2 ^ ARGUMENT_BITS }
    ensures value { result ≡ pos (lg_of m) }
    ensures monotone { (b : ℕ) → m ≤ b → b < 2 ^ ARGUMENT_BITS → result ≤ℤ pos (lg_of b) }
    ensures power { 2 ^ unsigned_abs result ≤ great_power m }
    ensures next_power { great_power m < 2 ^ (unsigned_abs result + 2) }
    ensures small { lg_of m < ARGUMENT_BITS * 2 ^ 24 }
{
    let whole = whole_part(m);
    let bits = bits_behind(mantissa(m, whole));
    (whole as u64 * (1 << 24) + bits) as i64
}

fn whole_part(m: u128) -> u32
    requires low { 1 ≤ m }
    requires high { m < 2 ^ ARGUMENT_BITS }
    ensures value { result ≡ whole_lg m }
    ensures power { 2 ^ result ≤ m }
    ensures next { m < 2 ^ (result + 1) }
    ensures small { result < ARGUMENT_BITS }
{
    127 - m.leading_zeros()
}

fn mantissa(m: u128, whole: u32) -> u64
    requires power { 2 ^ whole ≤ m }
    requires next { m < 2 ^ (whole + 1) }
    requires small { whole < ARGUMENT_BITS }
    ensures value { result ≡ mantissa m whole }
    ensures below { result < 2 ^ 62 }
{
    if whole <= 61 {
        (m as u64) << (61 - whole)
    } else {
        (m >> (whole - 61)) as u64
    }
}

/// The 24 bits behind the point.
fn bits_behind(mantissa: u64) -> u64
    requires { mantissa < 2 ^ 62 }
    ensures value { result ≡ lg_bits 24 mantissa }
    ensures below { result < 2 ^ 24 }
{
    let mut y = mantissa;
    let mut bits = 0u64;
    for turn in 0..24u32 {
        let z = square(y);
        let bit = z >> 62;
        bits += bit << (23 - turn);
        y = z >> bit;
    }
    bits
}

/// The square of `y` / 2^61, rounded down.
fn square(y: u64) -> u64
    requires { y < 2 ^ 62 }
    ensures value { result ≡ y * y / 2 ^ 61 }
    ensures below { result < 2 ^ 63 }
{
    (((y * 4) as u128 * (y * 2) as u128) >> 64) as u64
}
