//! What the elastic energy does. A law is a function that does nothing, whose contract is the law.
ghost use Rattle.std.specs.Prelude.{◌≡◌, ◌<◌, ℕ, ℤ, pos, ◌<ℤ◌, neg_ℤ, List, [], ◌∷◌, map, length};
ghost use Rattle.space3.specs.declared.vectors.V3.{V3};
ghost use Rattle.space3.specs.Vectors.{origin, sum_of, vector};
ghost use Rattle.vec_q.specs.Matrices.{M3, determinant_of, transposed};
ghost use Rattle.vec_q.specs.Widths.{IsBelow};
ghost use Rattle.neo_hooke.specs.Block.{elastic_block, opposite_of};
ghost use Rattle.neo_hooke.specs.Corners.{corner_of};
ghost use Rattle.neo_hooke.specs.Energy.{elastic_energy};
ghost use Rattle.neo_hooke.specs.Gradient.{balance_of, elastic_gradient};
ghost use Rattle.neo_hooke.specs.Rest.{IsModulus, RestShape, edge_matrix, rest_shape};

/// A tetrahedron that is moved as a whole by whole grid units keeps its energy, its gradient and its blocks.
pub fn a_rigid_shift_changes_nothing()
    ensures energy { (rest : RestShape) (mu lambda : ℤ) (d : V3) (x : List V3) → length x ≡ 4 →
        elastic_energy rest mu lambda (map (sum_of d) x) ≡ elastic_energy rest mu lambda x }
    ensures gradient { (rest : RestShape) (mu lambda : ℤ) (d : V3) (x : List V3) → length x ≡ 4 →
        elastic_gradient rest mu lambda (map (sum_of d) x) ≡ elastic_gradient rest mu lambda x }
    ensures block { (rest : RestShape) (mu lambda : ℤ) (d : V3) (x : List V3) (i j : ℕ) →
        length x ≡ 4 →
        elastic_block rest mu lambda (map (sum_of d) x) i j ≡ elastic_block rest mu lambda x i j }
{}

/// A tetrahedron that stands as it rests has no energy, and nothing pulls at it.
pub fn nothing_pulls_at_rest()
    ensures energy { (mu lambda : ℤ) (x : List V3) → pos 0 <ℤ determinant_of (edge_matrix x) →
        elastic_energy (rest_shape x) mu lambda x ≡ pos 0 }
    ensures gradient { (mu lambda : ℤ) (x : List V3) → IsModulus mu →
        pos 0 <ℤ determinant_of (edge_matrix x) →
        elastic_gradient (rest_shape x) mu lambda x ≡ origin ∷ origin ∷ origin ∷ origin ∷ [] }
{}

/// What pulls at the first node balances the rest, where it isn't cut.
pub fn pulls_are_balanced()
    ensures { (pulls : M3) → IsBelow 90 (opposite_of pulls) →
        sum_of (balance_of pulls) (sum_of pulls.first (sum_of pulls.second pulls.third)) ≡ origin }
{}

/// The matrix is symmetric: the block of two nodes is the transposed block of the same two in the other order.
pub fn blocks_are_symmetric()
    ensures { (rest : RestShape) (mu lambda : ℤ) (x : List V3) (i j : ℕ) →
        elastic_block rest mu lambda x j i ≡ transposed (elastic_block rest mu lambda x i j) }
{}

/// A tetrahedron with three edges of 100 along the axes, the first of them stretched to 200, and moduli 1: energy and
/// gradient.
pub fn a_stretched_tetrahedron()
    ensures energy { elastic_energy (rest_shape (corner_of (pos 100))) (pos 1) (pos 1)
        (corner_of (pos 200)) ≡ pos 8376634 }
    ensures gradient { elastic_gradient (rest_shape (corner_of (pos 100))) (pos 1) (pos 1)
        (corner_of (pos 200)) ≡ vector (neg_ℤ (pos 147725)) (neg_ℤ (pos 55451)) (neg_ℤ (pos 55451)) ∷
        vector (pos 147725) (pos 0) (pos 0) ∷ vector (pos 0) (pos 55451) (pos 0) ∷
        vector (pos 0) (pos 0) (pos 55451) ∷ [] }
{}
