//! What is kept of a tetrahedron at rest.
ghost use Rattle.std.specs.Prelude.{◌≡◌, ◌^◌};
ghost use Rattle.surface_mesh.specs.declared.sturdy.TheConstants.{LEAST_REST, LONGEST_REST};
ghost use Rattle.vec_q.specs.Matrices.{adjugate, determinant_of};
ghost use Rattle.vec_q.specs.Raws.{raws, raw_columns};
ghost use Rattle.vec_q.specs.Rows.{matrix_of, vector_of};
ghost use Rattle.vec_q.specs.Widths.{AreWithin};
ghost use Rattle.neo_hooke.specs.Rest.{CanRest, IsRestShape, edge_matrix, rest_shape, shape_of};

use num_q::Q;
use space3::V3;
use vec_q::{MatQ, VecQ, edge_between};

/// The determinant of a tetrahedron's edges at rest, in cubed grid units, and their adjugate by rows, in squared grid
/// units.
#[derive(Clone, Copy, PartialEq, Eq, Debug)]
pub struct RestTet {
    pub r: i128,
    pub adj: [[i64; 3]; 3],
}

/// What is kept of the tetrahedron that rests at these places, in grid units. Components of its edges from the first
/// place are at most 16384 in absolute value, and their determinant is at least 262144.
pub fn rest_tet(x: &[V3; 4]) -> RestTet
    requires { CanRest x.now }
    ensures value { shape_of result ≡ rest_shape x.now }
    ensures range { IsRestShape (shape_of result) }
{
    let edges = rest_edges(x);
    RestTet {
        r: determinant(edges).raw(),
        adj: rows_of(adjugate_of(edges)),
    }
}

// The matrix whose columns are the edges from the first place.
fn rest_edges(x: &[V3; 4]) -> MatQ<0, 15>
    requires { AreWithin LONGEST_REST (edge_matrix x.now) }
    ensures { raw_columns result ≡ edge_matrix x.now }
{
    let first = x[0];
    MatQ {
        first: edge_between(first, x[1]),
        second: edge_between(first, x[2]),
        third: edge_between(first, x[3]),
    }
}

// The determinant. A bound on its columns makes it 3 bits shorter than its type would be.
fn determinant(m: MatQ<0, 15>) -> Q<0, 45>
    requires { AreWithin LONGEST_REST (raw_columns m) }
    ensures { result.raw ≡ determinant_of (raw_columns m) }
{
    let across: VecQ<0, 31> = m.second.cross_into(m.third);
    let wide: Q<0, 48> = m.first.dot_into(across);
    wide.narrowed_into()
}

// The adjugate.
fn adjugate_of(m: MatQ<0, 15>) -> MatQ<0, 30>
    requires { AreWithin LONGEST_REST (raw_columns m) }
    ensures value { raw_columns result ≡ adjugate (raw_columns m) }
    ensures bound { AreWithin (2 ^ 29) (raw_columns result) }
{
    let wide: MatQ<0, 31> = m.adjugate_into();
    wide.narrowed_into()
}

fn rows_of(m: MatQ<0, 30>) -> [[i64; 3]; 3]
    ensures { matrix_of result ≡ raw_columns m }
{
    let rows = m.transposed();
    [
        components(rows.first),
        components(rows.second),
        components(rows.third),
    ]
}

fn components(a: VecQ<0, 30>) -> [i64; 3]
    ensures { vector_of result ≡ raws a }
{
    [short(a.x), short(a.y), short(a.z)]
}

fn short(a: Q<0, 30>) -> i64
    ensures { result ≡ a.raw }
{
    a.raw() as i64
}
