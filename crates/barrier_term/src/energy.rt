//! The energy and its slope.
ghost use Rattle.std.specs.Prelude.{◌≡◌, ◌≤◌, ◌<◌, ◌^◌, pos, ◌*ℤ◌, ◌≤ℤ◌, unsigned_abs};
ghost use Rattle.whole_laws.specs.Ranges.{IsFrom};
ghost use Rattle.nearest.specs.declared.limits.TheConstants.{GAP_LIMIT};
ghost use Rattle.near_pair.specs.Answers.{IsBounded, squared_distance};
ghost use Rattle.barrier_term.specs.declared.active.TheConstants.{MOST_STIFFNESS};
ghost use Rattle.barrier_term.specs.Barrier.{barrier_energy, barrier_slope, depth, energy_at, reach_of, slope_at};

use crate::active::{Active, MOST_STIFFNESS, active_pair};
use near_pair::Near;
use num_q::Q;

/// The barrier's energy, −kappa·(d − dhat²)²·ln(d / dhat²) for the squared distance d below dhat², else 0. `kappa` is
/// from 0 to 2^40, `dhat` from 0 to 1024 grid units.
pub fn barrier_energy(kappa: i64, dhat: i64, near: &Near) -> i128
    requires kappa { IsFrom (pos 0) MOST_STIFFNESS kappa }
    requires dhat { IsFrom (pos 0) (pos GAP_LIMIT) dhat }
    requires bounded { IsBounded near.now }
    ensures value { result ≡ barrier_energy kappa dhat near.now }
    ensures not_negative { pos 0 ≤ℤ result }
    ensures far { reach_of dhat ≤ squared_distance near.now → result ≡ pos 0 }
    ensures small { unsigned_abs result < 2 ^ 90 }
{
    energy_number(kappa, dhat, near).raw()
}

/// The energy's derivative in the squared distance, which is never above 0. Ranges are those of the energy.
pub fn barrier_slope(kappa: i64, dhat: i64, near: &Near) -> i128
    requires kappa { IsFrom (pos 0) MOST_STIFFNESS kappa }
    requires dhat { IsFrom (pos 0) (pos GAP_LIMIT) dhat }
    requires bounded { IsBounded near.now }
    ensures value { result ≡ barrier_slope kappa dhat near.now }
    ensures not_positive { result ≤ℤ pos 0 }
    ensures far { reach_of dhat ≤ squared_distance near.now → result ≡ pos 0 }
    ensures small { unsigned_abs result < 2 ^ 73 }
{
    slope_number(kappa, dhat, near).raw()
}

fn energy_number(kappa: i64, dhat: i64, near: &Near) -> Q<0, 90>
    requires kappa { IsFrom (pos 0) MOST_STIFFNESS kappa }
    requires dhat { IsFrom (pos 0) (pos GAP_LIMIT) dhat }
    requires bounded { IsBounded near.now }
    ensures value { result.raw ≡ barrier_energy kappa dhat near.now }
    ensures not_negative { pos 0 ≤ℤ result.raw }
{
    match active_pair(dhat, near) {
        Some(pair) => energy_of(kappa, pair),
        None => Q::of_raw(0),
    }
}

/// The slope in squared distances with 8 fraction bits.
pub fn slope_number(kappa: i64, dhat: i64, near: &Near) -> Q<8, 73>
    requires kappa { IsFrom (pos 0) MOST_STIFFNESS kappa }
    requires dhat { IsFrom (pos 0) (pos GAP_LIMIT) dhat }
    requires bounded { IsBounded near.now }
    ensures value { result.raw ≡ barrier_slope kappa dhat near.now }
    ensures not_positive { result.raw ≤ℤ pos 0 }
{
    match active_pair(dhat, near) {
        Some(pair) => slope_of(kappa, pair),
        None => Q::of_raw(0),
    }
}

fn energy_of(kappa: i64, pair: Active) -> Q<0, 90>
    requires { IsFrom (pos 0) MOST_STIFFNESS kappa }
    ensures value { result.raw ≡ energy_at kappa pair.distance pair.reach }
    ensures not_negative { pos 0 ≤ℤ result.raw }
{
    let squared: Q<16, 96> = force_of(kappa, pair).mul_into(pair.depth());
    let exact: Q<40, 126> = squared.mul_into(pair.logarithm());
    let whole: Q<0, 126> = exact.rescale_into();
    whole.cut_into()
}

fn slope_of(kappa: i64, pair: Active) -> Q<8, 73>
    requires { IsFrom (pos 0) MOST_STIFFNESS kappa }
    ensures value { result.raw ≡ slope_at kappa pair.distance pair.reach }
    ensures not_positive { result.raw ≤ℤ pos 0 }
{
    let exact: Q<32, 123> = force_of(kappa, pair).mul_into(pair.steepness().neg());
    let whole: Q<8, 123> = exact.rescale_into();
    whole.cut_into()
}

// Stiffness times depth.
fn force_of(kappa: i64, pair: Active) -> Q<8, 68>
    requires { IsFrom (pos 0) MOST_STIFFNESS kappa }
    ensures value { result.raw ≡ kappa *ℤ depth pair.distance pair.reach }
    ensures not_negative { pos 0 ≤ℤ result.raw }
{
    let kappa: Q<0, 41> = Q::of_raw(kappa as i128);
    let exact: Q<8, 69> = kappa.mul_into(pair.depth());
    exact.narrowed_into()
}
