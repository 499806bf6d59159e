//! The blocks of each two nodes of a tetrahedron, what they share computed once.
ghost use Rattle.std.specs.Prelude.{◌≡◌, ℕ, pos, ◌<ℤ◌, [], ◌∷◌, map};
ghost use Rattle.vec_q.specs.Matrices.{transposed};
ghost use Rattle.vec_q.specs.Raws.{raws, raw_columns};
ghost use Rattle.vec_q.specs.Rows.{rows_of};
ghost use Rattle.neo_hooke.specs.Block.{at_node, slopes_of};
ghost use Rattle.neo_hooke.specs.Elements.{shape_in};
ghost use Rattle.neo_hooke.specs.FourNodes.{block_between, blocks_of, elastic_blocks, vector_at};
ghost use Rattle.neo_hooke.specs.Rest.{CanStand};

use crate::block::{at_node, block_of, slopes_of};
use crate::element::Element;
use crate::strain::{determinant, edges_of};
use num_q::Q;
use space3::V3;
use vec_q::{MatQ, VecQ};

/// A vector for each of the four nodes.
#[derive(Clone, Copy)]
pub(crate) struct FourVectors<const F: u32, const B: u32> {
    pub zero: VecQ<F, B>,
    pub one: VecQ<F, B>,
    pub two: VecQ<F, B>,
    pub three: VecQ<F, B>,
}

impl Element {
    /// The blocks of each two of the four nodes at these places, as [`elastic_block`](crate::elastic_block) gives them.
    pub fn blocks(&self, x: &[V3; 4]) -> [[[[i128; 3]; 3]; 4]; 4]
        requires { CanStand x.now }
        ensures { result ≡
            elastic_blocks (shape_in self.now) self.now.mu.raw self.now.lambda.raw x.now }
    {
        let edges = edges_of(x);
        let slopes = four_slopes(determinant(edges), edges.cofactors_into());
        let rows = four_rows(self.adj.transposed().widened_into());
        self.all_blocks(&rows, &slopes)
    }

    // The blocks of each two nodes, from the nodes' rows and slopes. That of two nodes in the other order is transposed.
    fn all_blocks(
        &self,
        rows: &FourVectors<0, 37>,
        slopes: &FourVectors<24, 24>,
    ) -> [[[[i128; 3]; 3]; 4]; 4]
        ensures { result ≡ map (blocks_of self.now.r.raw self.now.mu.raw self.now.lambda.raw
            (vector_at rows.now) (vector_at slopes.now)) (0 ∷ 1 ∷ 2 ∷ 3 ∷ []) }
    {
        let zero = self.block_between(rows.zero, rows.zero, slopes.zero, slopes.zero);
        let zero_one = self.block_between(rows.zero, rows.one, slopes.zero, slopes.one);
        let zero_two = self.block_between(rows.zero, rows.two, slopes.zero, slopes.two);
        let zero_three = self.block_between(rows.zero, rows.three, slopes.zero, slopes.three);
        let one = self.block_between(rows.one, rows.one, slopes.one, slopes.one);
        let one_two = self.block_between(rows.one, rows.two, slopes.one, slopes.two);
        let one_three = self.block_between(rows.one, rows.three, slopes.one, slopes.three);
        let two = self.block_between(rows.two, rows.two, slopes.two, slopes.two);
        let two_three = self.block_between(rows.two, rows.three, slopes.two, slopes.three);
        let three = self.block_between(rows.three, rows.three, slopes.three, slopes.three);
        [
            [
                zero.rows(),
                zero_one.rows(),
                zero_two.rows(),
                zero_three.rows(),
            ],
            [
                turned(zero_one),
                one.rows(),
                one_two.rows(),
                one_three.rows(),
            ],
            [
                turned(zero_two),
                turned(one_two),
                two.rows(),
                two_three.rows(),
            ],
            [
                turned(zero_three),
                turned(one_three),
                turned(two_three),
                three.rows(),
            ],
        ]
    }

    // The block of two nodes, from their rows of the adjugate at rest and their slopes.
    fn block_between(
        &self,
        first: VecQ<0, 37>,
        second: VecQ<0, 37>,
        h: VecQ<24, 24>,
        l: VecQ<24, 24>,
    ) -> MatQ<0, 86>
        ensures { raw_columns result ≡ block_between self.now.r.raw self.now.mu.raw
            self.now.lambda.raw (raws first) (raws second) (raws h) (raws l) }
    {
        let moduli: Q<0, 32> = self.mu.add_into(self.lambda);
        let product: Q<0, 76> = first.dot_into(second);
        let stretch = self.stretch_pull(product.widened_into());
        block_of(stretch, self.r.mul_into(moduli), h, l)
    }
}

// The block of two nodes in the other order, by its rows.
fn turned(block: MatQ<0, 86>) -> [[i128; 3]; 3]
    ensures { result ≡ rows_of (transposed (raw_columns block)) }
{
    block.transposed().rows()
}

// How the logarithm of the volume changes with the place of each node.
fn four_slopes(volume: Q<0, 54>, across: MatQ<0, 35>) -> FourVectors<24, 24>
    requires { pos 0 <ℤ volume.raw }
    ensures { (node : ℕ) → vector_at result node ≡
        slopes_of volume.raw (at_node (raw_columns across) node) }
{
    FourVectors {
        zero: slopes_of(volume, at_node(across, 0)),
        one: slopes_of(volume, at_node(across, 1)),
        two: slopes_of(volume, at_node(across, 2)),
        three: slopes_of(volume, at_node(across, 3)),
    }
}

// The vectors of the nodes.
fn four_rows(m: MatQ<0, 35>) -> FourVectors<0, 37>
    ensures { (node : ℕ) → vector_at result node ≡ at_node (raw_columns m) node }
{
    FourVectors {
        zero: at_node(m, 0),
        one: at_node(m, 1),
        two: at_node(m, 2),
        three: at_node(m, 3),
    }
}
