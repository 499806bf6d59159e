//! A divisor that serves often. A quotient by it is guessed from its inverse, and the guess is checked; where it is
//! wrong the division is made. So the inverse has no part in what is proved.
ghost use Rattle.std.specs.Prelude.{◌≡◌, ◌^◌, ◌<◌, ◌*◌, ◌/◌, pos, unsigned_abs};
ghost use Rattle.num_q.specs.Rounding.{floor_of};

/// A number above 0 and below 2^62, made ready to divide by.
#[derive(Clone, Copy)]
pub struct Divisor {
    pub number: u64,
    inverse: u64,
    shift: u32,
    pub ghost positive: { 0 < number },
    pub ghost small: { number < 2 ^ 62 },
    ghost few: { shift < 64 },
}

impl Divisor {
    /// The divisor.
    pub fn of(number: u64) -> Self
        requires positive { 0 < number }
        requires small { number < 2 ^ 62 }
        ensures { result.number ≡ number }
    {
        let shift = 63 - number.leading_zeros().min(63);
        let inverse = (((1u128 << (shift + 64)) - 1) / number as u128 % (1 << 64)) as u64;
        Divisor {
            number,
            inverse,
            shift,
        }
    }

    /// The quotient of a number below 2^126 in absolute value, rounded down.
    pub fn floor(self, a: i128) -> i128
        requires { unsigned_abs a < 2 ^ 126 }
        ensures { result ≡ floor_of a (pos self.number) }
    {
        let folded = if a < 0 { -1 - a } else { a };
        let quotient = self.quotient(folded as u128) as i128;
        if a < 0 { -1 - quotient } else { quotient }
    }

    // The quotient, rounded down: the one that was guessed, or else that by a division.
    fn quotient(self, a: u128) -> u128
        ensures { result ≡ a / self.number }
    {
        let guess = guess(a, self);
        let taken = times(guess, self.number);
        if taken <= a && a - taken < self.number as u128 {
            guess as u128
        } else {
            a / self.number as u128
        }
    }
}

fn times(a: u64, b: u64) -> u128
    ensures { result ≡ a * b }
{
    a as u128 * b as u128
}

// What is mostly the quotient, where that is below 2^64.
fn guess(a: u128, by: Divisor) -> u64 {
    let top = ((a >> by.shift) % (1 << 64)) as u64;
    let guess = (times(top, by.inverse) >> 64) as u64;
    let rest = ((a % (1 << 64)) as u64).wrapping_sub(guess.wrapping_mul(by.number));
    if by.number <= rest {
        guess.wrapping_add(1)
    } else {
        guess
    }
}
