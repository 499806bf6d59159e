//! Quotients, rounded down or to the nearest, and changes of fraction bits.
ghost use Rattle.std.specs.Prelude.{◌≡◌, ◌^◌, ◌≤◌, ◌<◌, ◌+◌, ◌-◌, pos, ◌*ℤ◌, ◌<ℤ◌};
ghost use Rattle.num_q.specs.Rounding.{floor_of, round_of};

use crate::divisors::Divisor;
use crate::fixed::Q;

impl<const F: u32, const B: u32> Q<F, B> {
    /// The quotient `self · 2^S / other`, rounded down. The divisor is above 0.
    pub fn div_floor_into<const S: u32, const F2: u32, const B2: u32, const F3: u32, const B3: u32>(
        self,
        other: Q<F2, B2>,
    ) -> Q<F3, B3>
        requires positive { pos 0 <ℤ other.raw }
        requires fraction { F3 + F2 ≡ F + S }
        requires sum { B + S ≤ B3 }
        requires width { B3 ≤ 126 }
        ensures { result.raw ≡ floor_of (self.entry.raw *ℤ pos (2 ^ S)) other.entry.raw }
    {
        if B + S <= 63 && B2 <= 63 {
            self.div_short::<S, F2, B2, F3, B3>(other)
        } else {
            self.div_wide::<S, F2, B2, F3, B3>(other)
        }
    }

    // The quotient of numbers within 64 bits.
    fn div_short<const S: u32, const F2: u32, const B2: u32, const F3: u32, const B3: u32>(
        self,
        other: Q<F2, B2>,
    ) -> Q<F3, B3>
        requires positive { pos 0 <ℤ other.raw }
        requires left { B + S ≤ 63 }
        requires right { B2 ≤ 63 }
        requires sum { B + S ≤ B3 }
        requires width { B3 ≤ 126 }
        ensures { result.raw ≡ floor_of (self.entry.raw *ℤ pos (2 ^ S)) other.entry.raw }
    {
        let scaled = self.raw * (1i128 << S);
        Q {
            raw: short_floor(scaled as i64, other.short()) as i128,
        }
    }

    fn div_wide<const S: u32, const F2: u32, const B2: u32, const F3: u32, const B3: u32>(
        self,
        other: Q<F2, B2>,
    ) -> Q<F3, B3>
        requires positive { pos 0 <ℤ other.raw }
        requires sum { B + S ≤ B3 }
        requires width { B3 ≤ 126 }
        ensures { result.raw ≡ floor_of (self.entry.raw *ℤ pos (2 ^ S)) other.entry.raw }
    {
        let scaled = self.raw * (1i128 << S);
        Q {
            raw: scaled.div_euclid(other.raw),
        }
    }

    /// The quotient by a divisor that is made ready, rounded down.
    pub fn floor_by(self, divisor: Divisor) -> Self
        ensures { result.raw ≡ floor_of self.entry.raw (pos divisor.number) }
    {
        Q {
            raw: divisor.floor(self.raw),
        }
    }

    /// The nearest whole number to the quotient `self / other`, halves upwards. The divisor is above 0.
    pub fn round_into<const B2: u32, const B3: u32>(self, other: Q<F, B2>) -> Q<0, B3>
        requires positive { pos 0 <ℤ other.raw }
        requires left { B ≤ 124 }
        requires right { B2 ≤ 124 }
        requires room { B ≤ B3 }
        requires width { B3 ≤ 126 }
        ensures { result.raw ≡ round_of self.entry.raw other.entry.raw }
    {
        let two: Q<0, 2> = Q::of_raw(2);
        let double: Q<F, 126> = two.mul_into(self);
        let sum: Q<F, 126> = double.sum_within(other.widened_into());
        let divisor: Q<F, 126> = two.mul_into(other);
        let quotient: Q<0, 126> = sum.div_floor_into::<0, F, 126, 0, 126>(divisor);
        quotient.narrowed_into()
    }

    /// The same value with F2 fraction bits: exact where these are no fewer, else rounded down.
    pub fn rescale_into<const F2: u32, const B2: u32>(self) -> Q<F2, B2>
        requires down { F2 < F → B ≤ B2 }
        requires up { F ≤ F2 → B + (F2 - F) ≤ B2 }
        requires width { B2 ≤ 126 }
        ensures down { F2 < F → result.raw ≡ floor_of self.entry.raw (pos (2 ^ (F - F2))) }
        ensures up { F ≤ F2 → result.raw ≡ self.entry.raw *ℤ pos (2 ^ (F2 - F)) }
    {
        if F2 < F {
            self.shift_down()
        } else {
            self.shift_up()
        }
    }

    fn shift_down<const F2: u32, const B2: u32>(self) -> Q<F2, B2>
        requires down { F2 < F }
        requires room { B ≤ B2 }
        requires width { B2 ≤ 126 }
        ensures { result.raw ≡ floor_of self.entry.raw (pos (2 ^ (F - F2))) }
    {
        let by = (F - F2).min(127);
        Q {
            raw: self.raw >> by,
        }
    }

    fn shift_up<const F2: u32, const B2: u32>(self) -> Q<F2, B2>
        requires up { F ≤ F2 }
        requires room { B + (F2 - F) ≤ B2 }
        requires width { B2 ≤ 126 }
        ensures { result.raw ≡ self.entry.raw *ℤ pos (2 ^ (F2 - F)) }
    {
        Q {
            raw: self.raw * (1i128 << (F2 - F)),
        }
    }

    /// The raw number over 2^K, rounded down, with as many fraction bits as the caller counts. The width falls by K,
    /// but for a bit that a rounding down below 0 may take.
    pub fn shifted_into<const K: u32, const F2: u32, const B2: u32>(self) -> Q<F2, B2>
        requires some { 0 < B2 }
        requires room { B < B2 + K }
        requires shift { K ≤ 126 }
        requires width { B2 ≤ 126 }
        ensures { result.raw ≡ floor_of self.entry.raw (pos (2 ^ K)) }
    {
        Q { raw: self.raw >> K }
    }
}

// The quotient rounded down. The signs are dealt with apart, so that nothing waits for a guess of them.
fn short_floor(a: i64, d: i64) -> i64
    requires { pos 0 <ℤ d }
    ensures { result ≡ floor_of a d }
{
    let folded = if a < 0 { -1 - a } else { a };
    let quotient = (folded as u64 / d as u64) as i64;
    if a < 0 { -1 - quotient } else { quotient }
}
