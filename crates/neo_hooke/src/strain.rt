//! How a tetrahedron is strained.
ghost use Rattle.std.specs.Prelude.{◌≡◌, ◌^◌, ◌≤◌, ◌<◌, pos, ◌<ℤ◌, unsigned_abs};
ghost use Rattle.fixed_log.specs.Logarithm.{ln_ratio_of};
ghost use Rattle.vec_q.specs.Matrices.{determinant_of, product_of, sum_of_squares, transposed};
ghost use Rattle.vec_q.specs.Raws.{raw_columns};
ghost use Rattle.vec_q.specs.Widths.{AreBelow, AreWithin};
ghost use Rattle.volume_cert.specs.declared.edges.TheConstants.{LONGEST_EDGE};
ghost use Rattle.neo_hooke.specs.Rest.{edge_matrix};

use crate::element::Element;
use num_q::Q;
use space3::V3;
use vec_q::{MatQ, VecQ, edge_between};

// The matrix whose columns are the edges from the first place to the others.
pub(crate) fn edges_of<const B: u32>(x: &[V3; 4]) -> MatQ<0, B>
    requires small { AreBelow B (edge_matrix x.now) }
    requires width { B ≤ 126 }
    ensures { raw_columns result ≡ edge_matrix x.now }
{
    let first = x[0];
    MatQ {
        first: edge_between(first, x[1]),
        second: edge_between(first, x[2]),
        third: edge_between(first, x[3]),
    }
}

// The determinant.
pub(crate) fn determinant(m: MatQ<0, 17>) -> Q<0, 54>
    ensures { result.raw ≡ determinant_of (raw_columns m) }
{
    let across: VecQ<0, 35> = m.second.cross_into(m.third);
    m.first.dot_into(across)
}

// The sum of the squares of all entries of the edges times the adjugate at rest. Bounds on both make it 4 bits shorter
// than its type would be.
pub(crate) fn squared_strain(edges: MatQ<0, 17>, adj: MatQ<0, 30>) -> Q<0, 98>
    requires edges { AreWithin LONGEST_EDGE (raw_columns edges) }
    requires adj { AreWithin (2 ^ 29) (raw_columns adj) }
    ensures { result.raw ≡ sum_of_squares (product_of (raw_columns edges) (raw_columns adj)) }
{
    let strain: MatQ<0, 49> = edges.mul_into(adj);
    let first: Q<0, 100> = strain.first.dot_into(strain.first);
    let second: Q<0, 100> = strain.second.dot_into(strain.second);
    let third: Q<0, 100> = strain.third.dot_into(strain.third);
    let two: Q<0, 101> = first.add_into(second);
    let wide: Q<0, 102> = two.add_into(third);
    wide.narrowed_into()
}

// The edges times the adjugate at rest times that transposed.
pub(crate) fn strain_gradient(edges: MatQ<0, 17>, adj: MatQ<0, 30>) -> MatQ<0, 81>
    ensures { raw_columns result ≡ product_of (raw_columns edges)
        (product_of (raw_columns adj) (transposed (raw_columns adj))) }
{
    let squares: MatQ<0, 62> = adj.mul_into(adj.transposed());
    edges.mul_into(squares)
}

impl Element {
    // The logarithm of a volume over that at rest.
    pub(crate) fn log_volume(&self, volume: Q<0, 54>) -> Q<24, 30>
        requires { pos 0 <ℤ volume.raw }
        ensures { result.raw ≡
            ln_ratio_of (unsigned_abs volume.raw) (unsigned_abs self.now.r.raw) }
    {
        Q::of_raw(self.log_over_rest(positive(volume)) as i128)
    }
}

// A number above 0, as the logarithm takes it.
fn positive(a: Q<0, 54>) -> u128
    requires { pos 0 <ℤ a.raw }
    ensures value { result ≡ unsigned_abs a.raw }
    ensures low { 1 ≤ result }
    ensures high { result < 2 ^ 54 }
{
    a.raw() as u128
}
