//! Writing a place on the grid.
ghost use Rattle.std.specs.Prelude.{◌≡◌, ◌+◌, ◌*◌, ◌/◌, ◌^◌, ◌<◌, ◌≤◌, decimal, unsigned_abs};
ghost use Rattle.dec_text.specs.AddsText.{AddsText};
ghost use Rattle.dec_text.specs.Grid.{grid_value};
ghost use Rattle.dec_text.specs.GridText.{fraction_digits, fraction_text, minus_text, size_text, grid_decimal, IsDecimalFor};

use crate::numbers::number_text;
use crate::{FINEST_GRID, GREATEST_SIZE, MOST_WRITTEN_DIGITS, Snap};
use std::alloc::{AllocError, Global};

/// Adds the shortest decimal of `v` / 10^`digits`: `-` where it is negative, the whole part without zeros before
/// it, and where the fraction isn't 0 a point and the fraction without zeros at its end. `digits` is at most 18.
///
/// Where memory is wanting, the list may have grown by the front of the text. The list grows by its own
/// allocator: `alloc` is taken as by every call that takes memory, so that callers see it in the signature.
pub fn grid_text(alloc: Global, v: i64, digits: u8, out: &mut Vec<u8>) -> Result<(), AllocError>
    requires { digits ≤ MOST_WRITTEN_DIGITS }
    ensures added { AddsText (grid_decimal v digits) out.old.items result out.new.items }
    // What is written is worth exactly v / 10^digits, and has no zero at its end that could go.
    ensures exact { IsDecimalFor v digits (grid_decimal v digits) }
    ensures read_back { digits ≤ FINEST_GRID → unsigned_abs v ≤ GREATEST_SIZE
        → grid_value (grid_decimal v digits) digits Snap.Exact ≡ Ok v }
{
    let _ = alloc;
    add_sign(v, out)?;
    add_size(v.unsigned_abs(), digits as u32, out)
}

fn add_sign(v: i64, out: &mut Vec<u8>) -> Result<(), AllocError>
    ensures { AddsText (minus_text v) out.old.items result out.new.items }
{
    if v < 0 {
        out.push(b'-')?;
    }
    Ok(())
}

fn add_size(size: u64, digits: u32, out: &mut Vec<u8>) -> Result<(), AllocError>
    requires { digits ≤ MOST_WRITTEN_DIGITS }
    ensures { AddsText (size_text size digits) out.old.items result out.new.items }
{
    let unit = ten_to(digits);
    add_whole(size / unit, out)?;
    add_fraction(digits, size % unit, out)
}

fn add_whole(n: u64, out: &mut Vec<u8>) -> Result<(), AllocError>
    ensures { AddsText (decimal n) out.old.items result out.new.items }
{
    number_text(n, out)
}

fn add_fraction(digits: u32, rest: u64, out: &mut Vec<u8>) -> Result<(), AllocError>
    requires few { digits ≤ MOST_WRITTEN_DIGITS }
    requires below { rest < 10 ^ digits }
    ensures { AddsText (fraction_text digits rest) out.old.items result out.new.items }
{
    if rest == 0 {
        return Ok(());
    }
    out.push(b'.')?;
    add_digits(digits, rest, out)
}

/// Adds the digits of `rest` / 10^`digits` after the point, as far as one isn't 0.
fn add_digits(digits: u32, rest: u64, out: &mut Vec<u8>) -> Result<(), AllocError>
    requires few { digits ≤ MOST_WRITTEN_DIGITS }
    requires below { rest < 10 ^ digits }
    ensures { AddsText (fraction_digits digits rest) out.old.items result out.new.items }
{
    let mut places = digits;
    let mut left = rest;
    while left > 0 {
        places -= 1;
        let unit = ten_to(places);
        out.push(digit_of(left, unit))?;
        left %= unit;
    }
    Ok(())
}

/// The digit of a place.
fn digit_of(number: u64, unit: u64) -> u8
    requires unit { 0 < unit }
    requires below { number < 10 * unit }
    ensures { result ≡ 48 + number / unit }
{
    b'0' + (number / unit) as u8
}

fn ten_to(places: u32) -> u64
    requires { places ≤ MOST_WRITTEN_DIGITS }
    ensures value { result ≡ 10 ^ places }
    ensures positive { 0 < result }
{
    10u64.pow(places)
}
