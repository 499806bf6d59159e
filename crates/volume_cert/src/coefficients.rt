//! The Bernstein coefficients of a tetrahedron's volume between two moments.
ghost use Rattle.std.specs.Prelude.{◌≡◌, ◌↔◌, ◌+ℤ◌, IsTrue};
ghost use Rattle.safe_motion.specs.declared.depth.TheConstants.{DEPTH};
ghost use Rattle.volume_cert.specs.Calls.Bernstein.{AreAll, HasRoom, IsPositive, coefficients_of};
ghost use Rattle.volume_cert.specs.Calls.Raws.{edge_vectors, raw_coefficients};

use crate::edges::ThreeEdges;
use num_q::Q;
use vec_q::VecQ;

/// The four Bernstein coefficients of the determinant of three edges, which is a cubic while the edges go straight.
/// The middle two are taken three times.
#[derive(Clone, Copy)]
pub struct Coefficients {
    pub first: Q<0, 88>,
    pub second: Q<0, 88>,
    pub third: Q<0, 88>,
    pub fourth: Q<0, 88>,
}

// The coefficients of the edges that go straight from `s` to `t`.
pub fn coefficients_between(s: ThreeEdges, t: ThreeEdges) -> Coefficients
    ensures value { raw_coefficients result ≡ coefficients_of (edge_vectors s) (edge_vectors t) }
    ensures room { AreAll (HasRoom DEPTH) (raw_coefficients result) }
{
    let start: VecQ<0, 35> = s.v.cross_into(s.w);
    let early: VecQ<0, 35> = t.v.cross_into(s.w);
    let late: VecQ<0, 35> = s.v.cross_into(t.w);
    let end: VecQ<0, 35> = t.v.cross_into(t.w);
    Coefficients {
        first: coefficient(s.u.dot_into(start)),
        second: coefficient_sum(t.u.dot_into(start), s.u.dot_into(early), s.u.dot_into(late)),
        third: coefficient_sum(t.u.dot_into(early), t.u.dot_into(late), s.u.dot_into(end)),
        fourth: coefficient(t.u.dot_into(end)),
    }
}

// A determinant, with room for all halvings.
fn coefficient(a: Q<0, 54>) -> Q<0, 88>
    ensures value { result.raw ≡ a.raw }
    ensures room { HasRoom DEPTH result.raw }
{
    a.widened_into()
}

// The sum of three determinants, with room for all halvings.
fn coefficient_sum(a: Q<0, 54>, b: Q<0, 54>, c: Q<0, 54>) -> Q<0, 88>
    ensures value { result.raw ≡ a.raw +ℤ b.raw +ℤ c.raw }
    ensures room { HasRoom DEPTH result.raw }
{
    let ab: Q<0, 55> = a.add_into(b);
    let abc: Q<0, 56> = ab.add_into(c);
    abc.widened_into()
}

// Whether all four are positive.
pub fn are_positive(coefficients: Coefficients) -> bool
    ensures { IsTrue result ↔ AreAll IsPositive (raw_coefficients coefficients) }
{
    is_positive(coefficients.first)
        && is_positive(coefficients.second)
        && is_positive(coefficients.third)
        && is_positive(coefficients.fourth)
}

fn is_positive(a: Q<0, 88>) -> bool
    ensures { IsTrue result ↔ IsPositive a.raw }
{
    a.raw() > 0
}
