//! The type, its sums, and its widths.
ghost use Rattle.std.specs.Prelude.{◌≡◌, ◌^◌, ◌≤◌, ◌<◌, ◌-ℤ◌, ◌+ℤ◌, unsigned_abs, neg_ℤ};
ghost use Rattle.num_q.specs.Rounding.{cut_of};

/// A fixed-point number: its raw number is the value times 2^F, and below 2^B in absolute value.
#[derive(Clone, Copy, PartialEq, Eq, Debug)]
pub struct Q<const F: u32, const B: u32> {
    pub raw: i128,
    pub ghost in_range: { unsigned_abs raw < 2 ^ B },
    pub ghost width: { B ≤ 126 },
}

impl<const F: u32, const B: u32> Q<F, B> {
    /// The number with this raw number, which is below 2^B in absolute value.
    pub fn of_raw(raw: i128) -> Self
        requires in_range { unsigned_abs raw < 2 ^ B }
        requires width { B ≤ 126 }
        ensures { result.raw ≡ raw }
    {
        Q { raw }
    }

    /// The raw number: the value times 2^F.
    pub fn raw(self) -> i128
        ensures { result ≡ self.entry.raw }
    {
        self.raw
    }

    /// The negative number.
    pub fn neg(self) -> Self
        ensures { result.raw ≡ neg_ℤ self.entry.raw }
    {
        Q { raw: -self.raw }
    }

    /// The sum. Its width is greater than that of both.
    pub fn add_into<const B2: u32, const B3: u32>(self, other: Q<F, B2>) -> Q<F, B3>
        requires left { B < B3 }
        requires right { B2 < B3 }
        requires width { B3 ≤ 126 }
        ensures { result.raw ≡ self.entry.raw +ℤ other.entry.raw }
    {
        let left: Q<F, B3> = self.widened_into();
        let right: Q<F, B3> = other.widened_into();
        left.sum_within(right)
    }

    /// The difference `self − other`. Its width is greater than that of both.
    pub fn sub_into<const B2: u32, const B3: u32>(self, other: Q<F, B2>) -> Q<F, B3>
        requires left { B < B3 }
        requires right { B2 < B3 }
        requires width { B3 ≤ 126 }
        ensures { result.raw ≡ self.entry.raw -ℤ other.entry.raw }
    {
        let left: Q<F, B3> = self.widened_into();
        let right: Q<F, B3> = other.widened_into();
        left.difference_within(right)
    }

    /// The sum, which is known to be no wider.
    pub fn sum_within(self, other: Self) -> Self
        requires { unsigned_abs (self.raw +ℤ other.raw) < 2 ^ B }
        ensures { result.raw ≡ self.entry.raw +ℤ other.entry.raw }
    {
        Q {
            raw: self.raw + other.raw,
        }
    }

    /// The difference `self − other`, which is known to be no wider.
    pub fn difference_within(self, other: Self) -> Self
        requires { unsigned_abs (self.raw -ℤ other.raw) < 2 ^ B }
        ensures { result.raw ≡ self.entry.raw -ℤ other.entry.raw }
    {
        Q {
            raw: self.raw - other.raw,
        }
    }

    /// The same number in a type that is no narrower.
    pub fn widened_into<const B2: u32>(self) -> Q<F, B2>
        requires room { B ≤ B2 }
        requires width { B2 ≤ 126 }
        ensures { result.raw ≡ self.entry.raw }
    {
        self.narrowed_into()
    }

    /// The same number in a type that it is known to fit.
    pub fn narrowed_into<const B2: u32>(self) -> Q<F, B2>
        requires small { unsigned_abs self.raw < 2 ^ B2 }
        requires width { B2 ≤ 126 }
        ensures { result.raw ≡ self.entry.raw }
    {
        Q { raw: self.raw }
    }

    /// The number whose raw number is limited to `−(2^B2 − 1) .. 2^B2 − 1`.
    pub fn cut_into<const B2: u32>(self) -> Q<F, B2>
        requires width { B2 ≤ 126 }
        ensures { result.raw ≡ cut_of B2 self.entry.raw }
    {
        let most = (1i128 << B2) - 1;
        Q {
            raw: self.raw.clamp(-most, most),
        }
    }
}
