//! Reading a decimal.
ghost use Rattle.std.specs.Prelude.{◌≡◌, ℕ, ◌+◌, ◌-◌, ◌^◌, ◌<◌, ◌≤◌, min, if◌then◌else◌, IfOk, unsigned_abs};
ghost use Rattle.std.specs.Str.Parse.{AllDigits};
ghost use Rattle.dec_text.specs.Calls.Quotient.{IsQuotient, IsScaled};
ghost use Rattle.dec_text.specs.Grid.{place_in_box, snapped_place, grid_value, IsAnswer};

use crate::parts::{Parts, is_minus_first, unsigned};
use crate::quotient::{Quotient, number_behind, quotient_of};
use crate::{DecErr, FINEST_GRID, GREATEST_SIZE, Snap};

/// The place of a decimal on the grid of `digits` digits after the point: its value times 10^`digits`, in grid
/// units. `digits` is at most 9.
///
/// A decimal is a sign or none, digits with at most one point among, before or after them, and an exponent or
/// none: `e` or `E`, a sign or none, digits. Its digits and its exponent may be of any length.
///
/// `Snap::Exact` wants a whole number, and gives `OffGrid` where the product isn't one. `Snap::Nearest` takes
/// the nearest, a half away from zero. `NotDecimal` comes where the text is no decimal, and `OutOfBox` where
/// neither holds and the whole number is beyond 2^20 in size. It takes no memory.
pub fn to_grid(text: &[u8], digits: u8, snap: Snap) -> Result<i64, DecErr>
    requires { digits ≤ FINEST_GRID }
    ensures value { result ≡ grid_value text.now digits snap }
    // What is read is what the decimal is worth, and each refusal has its reason in it.
    ensures answer { IsAnswer text.now digits snap result }
    ensures in_box { IfOk result (λ place. unsigned_abs place ≤ GREATEST_SIZE) }
{
    let parts = Parts::of(text);
    if !parts.is_decimal() {
        return Err(DecErr::NotDecimal);
    }
    let size = number_behind(0, unsigned(parts.exponent));
    let is_down = is_minus_first(parts.exponent);
    let quotient = scaled_quotient(parts.before, parts.behind, digits, is_down, size);
    snapped_place(parts.negative, quotient, snap)
}

/// All digits times 10 to the exponent and to `digits`. The exponent's size may be the greatest `u64` in place
/// of a greater one: no text is so long that this matters.
fn scaled_quotient(whole: &[u8], fraction: &[u8], digits: u8, negative: bool, size: u64) -> Quotient
    requires few { digits ≤ FINEST_GRID }
    requires whole { AllDigits 10 whole.now }
    requires fraction { AllDigits 10 fraction.now }
    ensures { (e : ℕ) → size ≡ min e (2 ^ 64 - 1)
        → IsScaled whole.now fraction.now digits negative e result }
{
    let (up, down) = (digits as u128, fraction.len() as u128);
    if negative {
        quotient_of(whole, fraction, up, down + size as u128)
    } else {
        quotient_of(whole, fraction, up + size as u128, down)
    }
}

fn snapped_place(negative: bool, quotient: Quotient, snap: Snap) -> Result<i64, DecErr>
    ensures { (n d : ℕ) → 0 < d → IsQuotient n d quotient
        → result ≡ snapped_place negative n d snap }
{
    match snap {
        Snap::Exact if quotient.has_rest => Err(DecErr::OffGrid),
        Snap::Exact => place_in_box(negative, quotient.whole),
        Snap::Nearest => place_in_box(negative, nearest_whole(quotient)),
    }
}

/// The whole number nearest to a quotient, a half up.
fn nearest_whole(quotient: Quotient) -> u64
    ensures { result ≡ min (quotient.whole + (if quotient.is_half then 1 else 0)) (2 ^ 64 - 1) }
{
    if quotient.is_half {
        quotient.whole.saturating_add(1)
    } else {
        quotient.whole
    }
}

fn place_in_box(negative: bool, size: u64) -> Result<i64, DecErr>
    ensures { result ≡ place_in_box negative size }
{
    if size > GREATEST_SIZE {
        return Err(DecErr::OutOfBox);
    }
    let place = size as i64;
    Ok(if negative { -place } else { place })
}
