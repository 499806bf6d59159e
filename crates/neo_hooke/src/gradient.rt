//! The gradient of the elastic energy.
ghost use Rattle.std.specs.Prelude.{◌≡◌, ◌^◌, pos, ◌<ℤ◌, ◌+ℤ◌, ◌*ℤ◌, neg_ℤ, map};
ghost use Rattle.num_q.specs.Rounding.{cut_of, floor_of};
ghost use Rattle.vec_q.specs.Matrices.{determinant_of};
ghost use Rattle.vec_q.specs.Raws.{raws, raw_columns};
ghost use Rattle.vec_q.specs.Rows.{components};
ghost use Rattle.neo_hooke.specs.Elements.{shape_in};
ghost use Rattle.neo_hooke.specs.Gradient.{pressure, elastic_pull, elastic_pulls, pulls_of, balance_of, with_balance, elastic_gradient};
ghost use Rattle.neo_hooke.specs.Rest.{CanStand, IsModulus, IsRestShape, shape_of};

use crate::element::Element;
use crate::rest::RestTet;
use crate::strain::{determinant, edges_of, strain_gradient};
use num_q::Q;
use space3::V3;
use vec_q::{MatQ, VecQ};

/// The gradient of the elastic energy of a tetrahedron at these places: three numbers a node, rounded down. The pull at
/// the first node balances the other three.
///
/// Moduli are from 0 to 2^30. At the places the volume is positive, and components of the edges from the first place
/// are at most 65536 in absolute value.
pub fn elastic_gradient(rest: &RestTet, mu: i64, lambda: i64, x: &[V3; 4]) -> [[i128; 3]; 4]
    requires rest { IsRestShape (shape_of rest.now) }
    requires mu { IsModulus mu }
    requires lambda { IsModulus lambda }
    requires shape { CanStand x.now }
    ensures { result ≡ map components (elastic_gradient (shape_of rest.now) mu lambda x.now) }
{
    Element::of(rest, mu, lambda).gradient(x)
}

impl Element {
    /// The gradient of the elastic energy at these places, as [`elastic_gradient`] says.
    pub fn gradient(&self, x: &[V3; 4]) -> [[i128; 3]; 4]
        requires { CanStand x.now }
        ensures { result ≡ map components
            (elastic_gradient (shape_in self.now) self.now.mu.raw self.now.lambda.raw x.now) }
    {
        with_balance(self.pulls_of(edges_of(x)))
    }

    // What pulls at the last three nodes, from the edges.
    #[tactic(auto, unfolding(crate::specs::Gradient::pulls_of))]
    fn pulls_of(&self, edges: MatQ<0, 17>) -> MatQ<0, 90>
        requires { pos 0 <ℤ determinant_of (raw_columns edges) }
        ensures { raw_columns result ≡
            pulls_of (shape_in self.now) self.now.mu.raw self.now.lambda.raw (raw_columns edges) }
    {
        let volume = determinant(edges);
        let log = self.log_volume(volume);
        let outward = pressure(self.mu, self.lambda, self.r, log, volume);
        let strain = strain_gradient(edges, self.adj);
        let across: MatQ<0, 35> = edges.cofactors_into();
        MatQ {
            first: self.elastic_pulls(outward, strain.first, across.first),
            second: self.elastic_pulls(outward, strain.second, across.second),
            third: self.elastic_pulls(outward, strain.third, across.third),
        }
    }

    fn elastic_pulls(
        &self,
        pressure: Q<24, 90>,
        strain: VecQ<0, 81>,
        cofactor: VecQ<0, 35>,
    ) -> VecQ<0, 90>
        ensures { raws result ≡ elastic_pulls self.now.mu.raw self.now.r.raw pressure.raw
            (raws strain) (raws cofactor) }
    {
        VecQ {
            x: self.elastic_pull(pressure, strain.x, cofactor.x),
            y: self.elastic_pull(pressure, strain.y, cofactor.y),
            z: self.elastic_pull(pressure, strain.z, cofactor.z),
        }
    }

    fn elastic_pull(&self, pressure: Q<24, 90>, strain: Q<0, 81>, cofactor: Q<0, 35>) -> Q<0, 90>
        ensures { result.raw ≡ elastic_pull self.now.mu.raw self.now.r.raw pressure.raw
            strain.raw cofactor.raw }
    {
        let stretch = self.stretch_pull(strain);
        let exact: Q<24, 125> = pressure.mul_into(cofactor);
        let volume: Q<0, 116> = exact.shifted_into::<21, 0, 116>();
        let sum: Q<0, 117> = stretch.add_into(volume);
        sum.cut_into()
    }

    // 8 mu times a component, over the determinant at rest, rounded down.
    pub(crate) fn stretch_pull(&self, strain: Q<0, 81>) -> Q<0, 116>
        ensures { result.raw ≡
            floor_of (pos 8 *ℤ self.now.mu.raw *ℤ strain.raw) self.now.r.raw }
    {
        let eight: Q<0, 4> = Q::of_raw(8);
        let stiffness: Q<0, 35> = eight.mul_into(self.mu);
        let exact: Q<0, 116> = stiffness.mul_into(strain);
        self.over_rest(exact)
    }
}

fn pressure(
    mu: Q<0, 31>,
    lambda: Q<0, 31>,
    r: Q<0, 45>,
    log: Q<24, 30>,
    volume: Q<0, 54>,
) -> Q<24, 90>
    requires { pos 0 <ℤ volume.raw }
    ensures { result.raw ≡ pressure mu.raw lambda.raw r.raw log.raw volume.raw }
{
    let stiff: Q<24, 61> = lambda.mul_into(log);
    let soft: Q<24, 55> = mu.rescale_into();
    let both: Q<24, 62> = stiff.sub_into(soft);
    let exact: Q<24, 107> = both.mul_into(r);
    let floor: Q<24, 107> = exact.div_floor_into::<0, 0, 54, 24, 107>(volume);
    floor.cut_into()
}

// Minus the sum of three numbers, cut.
fn balance(a: Q<0, 90>, b: Q<0, 90>, c: Q<0, 90>) -> Q<0, 90>
    ensures { result.raw ≡ cut_of 90 (neg_ℤ (a.raw +ℤ b.raw +ℤ c.raw)) }
{
    let two: Q<0, 91> = a.add_into(b);
    let three: Q<0, 92> = two.add_into(c);
    three.neg().cut_into()
}

fn balance_of(m: MatQ<0, 90>) -> VecQ<0, 90>
    ensures { raws result ≡ balance_of (raw_columns m) }
{
    VecQ {
        x: balance(m.first.x, m.second.x, m.third.x),
        y: balance(m.first.y, m.second.y, m.third.y),
        z: balance(m.first.z, m.second.z, m.third.z),
    }
}

fn with_balance(pulls: MatQ<0, 90>) -> [[i128; 3]; 4]
    ensures { result ≡ map components (with_balance (raw_columns pulls)) }
{
    [
        balance_of(pulls).components(),
        pulls.first.components(),
        pulls.second.components(),
        pulls.third.components(),
    ]
}
