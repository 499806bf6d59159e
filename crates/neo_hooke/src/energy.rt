//! The elastic energy.
ghost use Rattle.std.specs.Prelude.{◌≡◌, ◌^◌, pos, ◌<ℤ◌, ◌+ℤ◌};
ghost use Rattle.num_q.specs.Rounding.{cut_of};
ghost use Rattle.vec_q.specs.Matrices.{determinant_of};
ghost use Rattle.vec_q.specs.Raws.{raw_columns};
ghost use Rattle.vec_q.specs.Widths.{AreWithin};
ghost use Rattle.volume_cert.specs.declared.edges.TheConstants.{LONGEST_EDGE};
ghost use Rattle.neo_hooke.specs.Elements.{shape_in};
ghost use Rattle.neo_hooke.specs.Energy.{stretch_energy, shear_energy, volume_energy, energy_of, elastic_energy};
ghost use Rattle.neo_hooke.specs.Rest.{CanStand, IsModulus, IsRestShape, shape_of};

use crate::element::Element;
use crate::rest::RestTet;
use crate::strain::{determinant, edges_of, squared_strain};
use num_q::Q;
use space3::V3;
use vec_q::MatQ;

/// The elastic energy of a tetrahedron at these places, in grid units, rounded down.
///
/// Moduli are from 0 to 2^30. At the places the volume is positive, and components of the edges from the first place
/// are at most 65536 in absolute value.
pub fn elastic_energy(rest: &RestTet, mu: i64, lambda: i64, x: &[V3; 4]) -> i128
    requires rest { IsRestShape (shape_of rest.now) }
    requires mu { IsModulus mu }
    requires lambda { IsModulus lambda }
    requires shape { CanStand x.now }
    ensures { result ≡ elastic_energy (shape_of rest.now) mu lambda x.now }
{
    Element::of(rest, mu, lambda).energy(x)
}

impl Element {
    /// The elastic energy at these places, as [`elastic_energy`] says.
    pub fn energy(&self, x: &[V3; 4]) -> i128
        requires { CanStand x.now }
        ensures { result ≡ elastic_energy (shape_in self.now) self.now.mu.raw self.now.lambda.raw x.now }
    {
        self.energy_of(edges_of(x)).raw()
    }

    // The energy, from the edges.
    fn energy_of(&self, edges: MatQ<0, 17>) -> Q<0, 90>
        requires edges { AreWithin LONGEST_EDGE (raw_columns edges) }
        requires volume { pos 0 <ℤ determinant_of (raw_columns edges) }
        ensures { result.raw ≡
            energy_of (shape_in self.now) self.now.mu.raw self.now.lambda.raw (raw_columns edges) }
    {
        let log = self.log_volume(determinant(edges));
        cut_sum(
            self.stretch_energy(squared_strain(edges, self.adj)),
            shear_energy(self.mu, self.r, log),
            volume_energy(self.lambda, self.r, log),
        )
    }

    fn stretch_energy(&self, squares: Q<0, 98>) -> Q<0, 105>
        ensures { result.raw ≡ stretch_energy self.now.mu.raw self.now.r.raw squares.raw }
    {
        let three: Q<0, 2> = Q::of_raw(3);
        let square: Q<0, 90> = self.r.mul_into(self.r);
        let unstretched: Q<0, 92> = three.mul_into(square);
        let more: Q<0, 99> = squares.sub_into(unstretched);
        let scaled: Q<24, 123> = more.rescale_into();
        let cut: Q<24, 95> = self.over_rest(scaled).cut_into();
        let exact: Q<24, 126> = self.mu.mul_into(cut);
        exact.shifted_into::<22, 0, 105>()
    }
}

fn shear_energy(mu: Q<0, 31>, r: Q<0, 45>, log: Q<24, 30>) -> Q<0, 105>
    ensures { result.raw ≡ shear_energy mu.raw r.raw log.raw }
{
    let stiffness: Q<0, 76> = mu.mul_into(r);
    let exact: Q<24, 106> = stiffness.mul_into(log);
    exact.neg().shifted_into::<21, 0, 105>()
}

fn volume_energy(lambda: Q<0, 31>, r: Q<0, 45>, log: Q<24, 30>) -> Q<0, 105>
    ensures { result.raw ≡ volume_energy lambda.raw r.raw log.raw }
{
    let exact_square: Q<48, 60> = log.mul_into(log);
    let square: Q<24, 37> = exact_square.shifted_into::<24, 24, 37>();
    let stiffness: Q<0, 76> = lambda.mul_into(r);
    let exact: Q<24, 113> = stiffness.mul_into(square);
    exact.shifted_into::<22, 0, 105>()
}

// The sum of three energies, cut to 90 bits.
fn cut_sum(a: Q<0, 105>, b: Q<0, 105>, c: Q<0, 105>) -> Q<0, 90>
    ensures { result.raw ≡ cut_of 90 (a.raw +ℤ b.raw +ℤ c.raw) }
{
    let two: Q<0, 106> = a.add_into(b);
    let three: Q<0, 107> = two.add_into(c);
    three.cut_into()
}
