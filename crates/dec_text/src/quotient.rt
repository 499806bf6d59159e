//! What a number of digits is at a power of ten: its whole part, and how it goes on behind the point.
ghost use Rattle.std.specs.Prelude.{◌≡◌, ℕ, ◌+◌, ◌-◌, ◌*◌, ◌^◌, ◌<◌, ◌≤◌, ◌++◌, length, min, nat_le, nat_lt, slice_index, ◌==◌, not};
ghost use Rattle.std.specs.List.{list_any};
ghost use Rattle.std.specs.Str.Parse.{AllDigits, digits_value};
ghost use Rattle.dec_text.specs.Calls.Quotient.{IsQuotient};

/// A quotient's whole part, or the greatest `u64`; whether what is left is a half or more, and whether anything is left.
#[derive(Clone, Copy)]
pub(crate) struct Quotient {
    pub whole: u64,
    pub is_half: bool,
    pub has_rest: bool,
}

/// All digits times 10^(`up` - `down`).
pub(crate) fn quotient_of(whole: &[u8], fraction: &[u8], up: u128, down: u128) -> Quotient
    requires whole { AllDigits 10 whole.now }
    requires fraction { AllDigits 10 fraction.now }
    ensures { IsQuotient (digits_value 10 (whole.now ++ fraction.now) * 10 ^ up)
        (10 ^ down) result }
{
    if up < down {
        lowered_quotient(whole, fraction, down - up)
    } else {
        Quotient {
            whole: with_zeros(number_of_pieces(whole, fraction), up - down),
            is_half: false,
            has_rest: false,
        }
    }
}

/// All digits times 10^-`tens`.
fn lowered_quotient(whole: &[u8], fraction: &[u8], tens: u128) -> Quotient
    requires whole { AllDigits 10 whole.now }
    requires fraction { AllDigits 10 fraction.now }
    requires tens { 0 < tens }
    ensures { IsQuotient (digits_value 10 (whole.now ++ fraction.now)) (10 ^ tens) result }
{
    let count = whole.len() + fraction.len();
    if tens <= count as u128 {
        front_quotient(whole, fraction, count - tens as usize)
    } else {
        Quotient {
            whole: 0,
            is_half: false,
            has_rest: is_above_zero(whole, fraction),
        }
    }
}

/// The first `count` digits are the whole part.
fn front_quotient(whole: &[u8], fraction: &[u8], count: usize) -> Quotient
    requires whole { AllDigits 10 whole.now }
    requires fraction { AllDigits 10 fraction.now }
    requires count { count < length whole.now + length fraction.now }
    ensures { IsQuotient (digits_value 10 (whole.now ++ fraction.now))
        (10 ^ (length whole.now + length fraction.now - count)) result }
{
    let (whole_front, whole_rest) = whole.split_at(count.min(whole.len()));
    let (fraction_front, fraction_rest) = fraction.split_at(count - whole_front.len());
    Quotient {
        whole: number_of_pieces(whole_front, fraction_front),
        is_half: is_half(whole, fraction, count),
        has_rest: is_above_zero(whole_rest, fraction_rest),
    }
}

fn is_half(whole: &[u8], fraction: &[u8], count: usize) -> bool
    requires { count < length whole.now + length fraction.now }
    ensures { result ≡ nat_le 53 (slice_index (whole.now ++ fraction.now) count) }
{
    let digit = if count < whole.len() {
        whole[count]
    } else {
        fraction[count - whole.len()]
    };
    digit >= b'5'
}

fn is_above_zero(front: &[u8], back: &[u8]) -> bool
    requires front { AllDigits 10 front.now }
    requires back { AllDigits 10 back.now }
    ensures { result ≡ nat_lt 0 (digits_value 10 (front.now ++ back.now)) }
{
    has_other_than_zero(front) || has_other_than_zero(back)
}

fn has_other_than_zero(digits: &[u8]) -> bool
    ensures { result ≡ list_any (λ digit. not (digit == 48)) digits.now }
{
    digits.iter().any(|digit| *digit != b'0')
}

/// The number with zeros behind its digits, or the greatest `u64`.
fn with_zeros(number: u64, zeros: u128) -> u64
    ensures { result ≡ min (number * 10 ^ zeros) (2 ^ 64 - 1) }
{
    let mut value = number;
    let count = zeros.min(20) as u32;
    for _turn in 0..count {
        value = value.saturating_mul(10);
    }
    value
}

/// The number that two pieces of digits write together, or the greatest `u64`.
fn number_of_pieces(front: &[u8], back: &[u8]) -> u64
    requires front { AllDigits 10 front.now }
    requires back { AllDigits 10 back.now }
    ensures { result ≡ min (digits_value 10 (front.now ++ back.now)) (2 ^ 64 - 1) }
{
    number_behind(number_behind(0, front), back)
}

/// The number that the digits write behind those of `start`, or the greatest `u64`.
pub(crate) fn number_behind(start: u64, digits: &[u8]) -> u64
    requires { AllDigits 10 digits.now }
    ensures { result
        ≡ min (start * 10 ^ length digits.now + digits_value 10 digits.now) (2 ^ 64 - 1) }
{
    let mut value = start;
    for digit in digits {
        value = value
            .saturating_mul(10)
            .saturating_add((*digit - b'0') as u64);
    }
    value
}
