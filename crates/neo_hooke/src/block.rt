//! A block of the matrix for the elastic energy.
ghost use Rattle.std.specs.Prelude.{◌≡◌, ◌<◌, pos, ◌<ℤ◌, ◌+ℤ◌, neg_ℤ};
ghost use Rattle.num_q.specs.Rounding.{cut_of};
ghost use Rattle.vec_q.specs.Matrices.{determinant_of, unit_times};
ghost use Rattle.vec_q.specs.Raws.{raws, raw_columns};
ghost use Rattle.vec_q.specs.Rows.{rows_of};
ghost use Rattle.neo_hooke.specs.Block.{opposite_of, at_node, log_slope, log_slopes, slopes_of, stretch_entry, volume_entry, column_of, block_of, block_at, elastic_block};
ghost use Rattle.neo_hooke.specs.Elements.{shape_in};
ghost use Rattle.neo_hooke.specs.Rest.{CanStand, IsModulus, IsRestShape, shape_of};

use crate::element::Element;
use crate::rest::RestTet;
use crate::strain::{determinant, edges_of};
use num_q::Q;
use space3::V3;
use vec_q::{MatQ, VecQ};

/// The block of the nodes `i` and `j` of a tetrahedron at these places, by rows: how the pull at `i` changes with the
/// place of `j`, without the part of the volume that may be negative.
///
/// Moduli are from 0 to 2^30, nodes from 0 to 3. At the places the volume is positive, and components of the edges from
/// the first place are at most 65536 in absolute value.
pub fn elastic_block(
    rest: &RestTet,
    mu: i64,
    lambda: i64,
    x: &[V3; 4],
    i: u8,
    j: u8,
) -> [[i128; 3]; 3]
    requires rest { IsRestShape (shape_of rest.now) }
    requires mu { IsModulus mu }
    requires lambda { IsModulus lambda }
    requires shape { CanStand x.now }
    requires i { i < 4 }
    requires j { j < 4 }
    ensures { result ≡ rows_of (elastic_block (shape_of rest.now) mu lambda x.now i j) }
{
    Element::of(rest, mu, lambda).block(x, i, j)
}

impl Element {
    /// The block of the nodes `i` and `j` at these places, as [`elastic_block`] says.
    pub fn block(&self, x: &[V3; 4], i: u8, j: u8) -> [[i128; 3]; 3]
        requires shape { CanStand x.now }
        requires i { i < 4 }
        requires j { j < 4 }
        ensures { result ≡ rows_of
            (elastic_block (shape_in self.now) self.now.mu.raw self.now.lambda.raw x.now i j) }
    {
        self.block_at(edges_of(x), i, j).rows()
    }

    // The block, from the edges.
    #[tactic(auto, unfolding(crate::specs::Block::block_at))]
    fn block_at(&self, edges: MatQ<0, 17>, i: u8, j: u8) -> MatQ<0, 86>
        requires volume { pos 0 <ℤ determinant_of (raw_columns edges) }
        requires i { i < 4 }
        requires j { j < 4 }
        ensures { raw_columns result ≡ block_at (shape_in self.now) self.now.mu.raw
            self.now.lambda.raw (raw_columns edges) i j }
    {
        let moduli: Q<0, 32> = self.mu.add_into(self.lambda);
        block_of(
            self.stretch_entry(i, j),
            self.r.mul_into(moduli),
            log_slopes(edges, i),
            log_slopes(edges, j),
        )
    }

    // What the stretch adds on the diagonal.
    fn stretch_entry(&self, i: u8, j: u8) -> Q<0, 116>
        requires i { i < 4 }
        requires j { j < 4 }
        ensures { result.raw ≡ stretch_entry (shape_in self.now) self.now.mu.raw i j }
    {
        let rows: MatQ<0, 35> = self.adj.transposed().widened_into();
        let product: Q<0, 76> = at_node(rows, i).dot_into(at_node(rows, j));
        self.stretch_pull(product.widened_into())
    }
}

// Minus the sum of three numbers.
fn opposite(a: Q<0, 35>, b: Q<0, 35>, c: Q<0, 35>) -> Q<0, 37>
    ensures { result.raw ≡ neg_ℤ (a.raw +ℤ b.raw +ℤ c.raw) }
{
    let two: Q<0, 36> = a.add_into(b);
    let three: Q<0, 37> = two.add_into(c);
    three.neg()
}

fn opposite_of(m: MatQ<0, 35>) -> VecQ<0, 37>
    ensures { raws result ≡ opposite_of (raw_columns m) }
{
    VecQ {
        x: opposite(m.first.x, m.second.x, m.third.x),
        y: opposite(m.first.y, m.second.y, m.third.y),
        z: opposite(m.first.z, m.second.z, m.third.z),
    }
}

// The vector of a node.
pub(crate) fn at_node(m: MatQ<0, 35>, node: u8) -> VecQ<0, 37>
    requires { node < 4 }
    ensures { raws result ≡ at_node (raw_columns m) node }
{
    match node {
        0 => opposite_of(m),
        1 => m.first.widened_into(),
        2 => m.second.widened_into(),
        3 => m.third.widened_into(),
        _ => unreachable!(),
    }
}

fn log_slope(volume: Q<0, 54>, cofactor: Q<0, 37>) -> Q<24, 24>
    requires { pos 0 <ℤ volume.raw }
    ensures { result.raw ≡ log_slope volume.raw cofactor.raw }
{
    let slope: Q<24, 61> = cofactor.div_floor_into::<24, 0, 54, 24, 61>(volume);
    slope.cut_into()
}

fn log_slopes(edges: MatQ<0, 17>, node: u8) -> VecQ<24, 24>
    requires volume { pos 0 <ℤ determinant_of (raw_columns edges) }
    requires node { node < 4 }
    ensures { raws result ≡ log_slopes (raw_columns edges) node }
{
    slopes_of(determinant(edges), at_node(edges.cofactors_into(), node))
}

pub(crate) fn slopes_of(volume: Q<0, 54>, cofactor: VecQ<0, 37>) -> VecQ<24, 24>
    requires volume { pos 0 <ℤ volume.raw }
    ensures { raws result ≡ slopes_of volume.raw (raws cofactor) }
{
    VecQ {
        x: log_slope(volume, cofactor.x),
        y: log_slope(volume, cofactor.y),
        z: log_slope(volume, cofactor.z),
    }
}

fn volume_entry(stiffness: Q<0, 77>, h: Q<24, 24>, l: Q<24, 24>) -> Q<0, 81>
    ensures { result.raw ≡ volume_entry stiffness.raw h.raw l.raw }
{
    let square: Q<48, 48> = h.mul_into(l);
    let exact: Q<48, 125> = stiffness.mul_into(square);
    exact.shifted_into::<45, 0, 81>()
}

fn entry(stretch: Q<0, 116>, volume: Q<0, 81>) -> Q<0, 86>
    ensures { result.raw ≡ cut_of 86 (stretch.raw +ℤ volume.raw) }
{
    let sum: Q<0, 117> = stretch.add_into(volume);
    sum.cut_into()
}

fn column_of(
    stiffness: Q<0, 77>,
    h: VecQ<24, 24>,
    l: Q<24, 24>,
    stretch: VecQ<0, 116>,
) -> VecQ<0, 86>
    ensures { raws result ≡ column_of stiffness.raw (raws h) l.raw (raws stretch) }
{
    VecQ {
        x: entry(stretch.x, volume_entry(stiffness, h.x, l)),
        y: entry(stretch.y, volume_entry(stiffness, h.y, l)),
        z: entry(stretch.z, volume_entry(stiffness, h.z, l)),
    }
}

pub(crate) fn block_of(
    stretch: Q<0, 116>,
    stiffness: Q<0, 77>,
    h: VecQ<24, 24>,
    l: VecQ<24, 24>,
) -> MatQ<0, 86>
    ensures { raw_columns result ≡ block_of stretch.raw stiffness.raw (raws h) (raws l) }
{
    let diagonal = unit_times(stretch);
    MatQ {
        first: column_of(stiffness, h, l.x, diagonal.first),
        second: column_of(stiffness, h, l.y, diagonal.second),
        third: column_of(stiffness, h, l.z, diagonal.third),
    }
}

// The unit matrix times a number.
fn unit_times(k: Q<0, 116>) -> MatQ<0, 116>
    ensures { raw_columns result ≡ unit_times k.raw }
{
    let zero: Q<0, 116> = Q::of_raw(0);
    MatQ {
        first: VecQ {
            x: k,
            y: zero,
            z: zero,
        },
        second: VecQ {
            x: zero,
            y: k,
            z: zero,
        },
        third: VecQ {
            x: zero,
            y: zero,
            z: k,
        },
    }
}
