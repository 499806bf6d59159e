//! Products.
ghost use Rattle.std.specs.Prelude.{◌≡◌, ◌+◌, ◌^◌, ◌≤◌, ◌<◌, ◌*ℤ◌, unsigned_abs};

use crate::fixed::Q;

impl<const F: u32, const B: u32> Q<F, B> {
    /// The product. Fraction bits add up, and so do widths.
    pub fn mul_into<const F2: u32, const B2: u32, const F3: u32, const B3: u32>(
        self,
        other: Q<F2, B2>,
    ) -> Q<F3, B3>
        requires fraction { F3 ≡ F + F2 }
        requires sum { B + B2 ≤ B3 }
        requires width { B3 ≤ 126 }
        ensures { result.raw ≡ self.entry.raw *ℤ other.entry.raw }
    {
        if B + B2 <= 63 {
            self.mul_narrow(other)
        } else if B <= 63 && B2 <= 63 {
            self.mul_short(other)
        } else {
            self.mul_wide(other)
        }
    }

    // The product within 64 bits, which sums and further products can take as such.
    fn mul_narrow<const F2: u32, const B2: u32, const F3: u32, const B3: u32>(
        self,
        other: Q<F2, B2>,
    ) -> Q<F3, B3>
        requires narrow { B + B2 ≤ 63 }
        requires sum { B + B2 ≤ B3 }
        requires width { B3 ≤ 126 }
        ensures { result.raw ≡ self.entry.raw *ℤ other.entry.raw }
    {
        Q {
            raw: narrow_product(self.short(), other.short()) as i128,
        }
    }

    // The product of factors within 64 bits, which takes one instruction.
    fn mul_short<const F2: u32, const B2: u32, const F3: u32, const B3: u32>(
        self,
        other: Q<F2, B2>,
    ) -> Q<F3, B3>
        requires left { B ≤ 63 }
        requires right { B2 ≤ 63 }
        requires sum { B + B2 ≤ B3 }
        requires width { B3 ≤ 126 }
        ensures { result.raw ≡ self.entry.raw *ℤ other.entry.raw }
    {
        Q {
            raw: short_product(self.short(), other.short()),
        }
    }

    // The raw number, where it fits 64 bits.
    pub(crate) fn short(self) -> i64
        requires { B ≤ 63 }
        ensures { result ≡ self.entry.raw }
    {
        self.raw as i64
    }

    fn mul_wide<const F2: u32, const B2: u32, const F3: u32, const B3: u32>(
        self,
        other: Q<F2, B2>,
    ) -> Q<F3, B3>
        requires sum { B + B2 ≤ B3 }
        requires width { B3 ≤ 126 }
        ensures { result.raw ≡ self.entry.raw *ℤ other.entry.raw }
    {
        Q {
            raw: self.raw * other.raw,
        }
    }
}

fn narrow_product(a: i64, b: i64) -> i64
    requires { unsigned_abs (a *ℤ b) < 2 ^ 63 }
    ensures { result ≡ a *ℤ b }
{
    a * b
}

fn short_product(a: i64, b: i64) -> i128
    ensures { result ≡ a *ℤ b }
{
    a as i128 * b as i128
}
