//! A tetrahedron with its material, made ready for many calls.
ghost use Rattle.std.specs.Prelude.{◌≡◌, ◌^◌, ◌≤◌, ◌<◌, pos, ◌<ℤ◌, unsigned_abs};
ghost use Rattle.fixed_log.specs.Logarithm.{IsLogarithm, lg_of, ln_ratio_of};
ghost use Rattle.num_q.specs.Rounding.{floor_of};
ghost use Rattle.space3.specs.Vectors.{AtMost, Within};
ghost use Rattle.vec_q.specs.Raws.{raws, raw_columns};
ghost use Rattle.vec_q.specs.Rows.{matrix_of, vector_of};
ghost use Rattle.vec_q.specs.Widths.{AreWithin};
ghost use Rattle.neo_hooke.specs.Rest.{IsModulus, IsRestShape, shape_of};

use crate::rest::RestTet;
use fixed_log::{lg, ln_over};
use num_q::{Divisor, Q};
use vec_q::{MatQ, VecQ};

/// A tetrahedron at rest with the moduli of its material, as numbers of fixed point.
#[derive(Clone, Copy)]
pub struct Element {
    /// The determinant of the edges at rest.
    pub r: Q<0, 45>,
    /// Their adjugate.
    pub adj: MatQ<0, 30>,
    pub mu: Q<0, 31>,
    pub lambda: Q<0, 31>,
    // The same determinant, made ready to divide by, and its logarithm to base 2.
    by: Divisor,
    lg: i64,
    pub ghost positive: { pos 0 <ℤ r.raw },
    pub ghost short: { AreWithin (2 ^ 29) (raw_columns adj) },
    ghost same: { pos by.number ≡ r.raw },
    ghost known: { lg ≡ pos (lg_of (unsigned_abs r.raw)) },
    ghost logarithm: { IsLogarithm lg },
}

impl Element {
    ghost use Rattle.neo_hooke.specs.Elements.{shape_in};

    /// The element of a tetrahedron at rest and a material.
    pub fn of(rest: &RestTet, mu: i64, lambda: i64) -> Self
        requires rest { IsRestShape (shape_of rest.now) }
        requires mu { IsModulus mu }
        requires lambda { IsModulus lambda }
        ensures rest { shape_in result ≡ shape_of rest.now }
        ensures mu { result.mu.raw ≡ mu }
        ensures lambda { result.lambda.raw ≡ lambda }
    {
        let r = determinant(rest.r);
        Element {
            r,
            adj: matrix(rest.adj),
            mu: modulus(mu),
            lambda: modulus(lambda),
            by: divisor(r),
            lg: logarithm(r),
        }
    }

    // A quotient by the determinant at rest, rounded down.
    pub(crate) fn over_rest<const F: u32, const B: u32>(&self, a: Q<F, B>) -> Q<F, B>
        ensures { result.raw ≡ floor_of a.entry.raw self.now.r.raw }
    {
        a.floor_by(self.by)
    }

    // The logarithm of a volume over that at rest.
    pub(crate) fn log_over_rest(&self, volume: u128) -> i64
        requires low { 1 ≤ volume }
        requires high { volume < 2 ^ 54 }
        ensures value { result ≡ ln_ratio_of volume (unsigned_abs self.now.r.raw) }
        ensures small { unsigned_abs result < 2 ^ 30 }
    {
        ln_over(volume, self.lg)
    }
}

fn determinant(r: i128) -> Q<0, 45>
    requires { unsigned_abs r < 2 ^ 45 }
    ensures { result.raw ≡ r }
{
    Q::of_raw(r)
}

fn divisor(r: Q<0, 45>) -> Divisor
    requires { pos 0 <ℤ r.raw }
    ensures { pos result.number ≡ r.raw }
{
    Divisor::of(r.raw() as u64)
}

fn logarithm(r: Q<0, 45>) -> i64
    requires { pos 0 <ℤ r.raw }
    ensures value { result ≡ pos (lg_of (unsigned_abs r.raw)) }
    ensures range { IsLogarithm result }
{
    lg(r.raw() as u128)
}

fn matrix(rows: [[i64; 3]; 3]) -> MatQ<0, 30>
    requires { AreWithin (2 ^ 29) (matrix_of rows) }
    ensures { raw_columns result ≡ matrix_of rows }
{
    let transposed = MatQ {
        first: vector(rows[0]),
        second: vector(rows[1]),
        third: vector(rows[2]),
    };
    transposed.transposed()
}

fn vector(a: [i64; 3]) -> VecQ<0, 30>
    requires { Within (2 ^ 29) (vector_of a) }
    ensures { raws result ≡ vector_of a }
{
    VecQ {
        x: number(a[0]),
        y: number(a[1]),
        z: number(a[2]),
    }
}

fn number(a: i64) -> Q<0, 30>
    requires { AtMost (2 ^ 29) a }
    ensures { result.raw ≡ a }
{
    Q::of_raw(a as i128)
}

fn modulus(a: i64) -> Q<0, 31>
    requires { IsModulus a }
    ensures { result.raw ≡ a }
{
    Q::of_raw(a as i128)
}
