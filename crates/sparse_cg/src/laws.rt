//! There is one Newton direction at most, and it isn't rounded from 0; and directions of two nodes,
//! whose numbers were computed apart. A law is a function that does nothing, whose contract is the
//! law.
ghost use Rattle.std.specs.Prelude.{◌≡◌, ℕ, ◌*◌, ℤ, pos, neg_ℤ, List, [], ◌∷◌, length, All};
ghost use Rattle.space3.specs.declared.vectors.V3.{V3};
ghost use Rattle.space3.specs.Vectors.{vector};
ghost use Rattle.block_rows.specs.Example.{two_nodes};
ghost use Rattle.block_rows.specs.Tables.{Table};
ghost use Rattle.sparse_cg.specs.Directions.{IsEndOf, IsNewton};
ghost use Rattle.sparse_cg.specs.Example.{slopes_of_two, system_of_two};
ghost use Rattle.sparse_cg.specs.Jacobi.{jacobi};
ghost use Rattle.sparse_cg.specs.Systems.{IsShift, system_of};
ghost use Rattle.sparse_cg.specs.Turns.{start, turned};

/// Two Newton directions of a matrix and a gradient are the same.
pub fn one_newton()
    ensures { (nodes : ℕ) (table : Table) (slopes : List ℤ) (d e : List V3) →
        IsNewton nodes table slopes d → IsNewton nodes table slopes e → d ≡ e }
{}

/// The solution that a Newton direction is rounded from isn't 0 in all of its numbers.
pub fn a_solution_is_not_zero()
    ensures { (nodes : ℕ) (table : Table) (slopes : List ℤ) (shift : ℕ) (direction : List V3) →
        length slopes ≡ 3 * nodes → IsShift slopes shift →
        (end : IsEndOf (system_of nodes table slopes shift) direction) →
        ¬ All (λ number. number ≡ pos 0) end.last.x }
{}

/// The first turn, Newton's direction after the second one, and Jacobi's, for two nodes.
pub fn directions_of_two_nodes()
    ensures turn { turned system_of_two (start system_of_two) ≡ record {
      x = neg_ℤ (pos 5943237) ∷ pos 13372281 ∷ neg_ℤ (pos 22923912) ∷ pos 4457426
          ∷ neg_ℤ (pos 53489125) ∷ neg_ℤ (pos 825405) ∷ [];
      r = pos 13760 ∷ neg_ℤ (pos 277133) ∷ neg_ℤ (pos 66088) ∷ neg_ℤ (pos 51038)
          ∷ neg_ℤ (pos 45061) ∷ neg_ℤ (pos 108906) ∷ [];
      p = neg_ℤ (pos 12223) ∷ neg_ℤ (pos 20420799) ∷ neg_ℤ (pos 10099241) ∷ neg_ℤ (pos 4814066)
          ∷ neg_ℤ (pos 13346490) ∷ neg_ℤ (pos 9062433) ∷ [];
      rho = pos 8160610259870;
    } }
    ensures newton { IsNewton 2 two_nodes slopes_of_two
        (vector (neg_ℤ (pos 91)) (neg_ℤ (pos 274)) (neg_ℤ (pos 586))
        ∷ vector (neg_ℤ (pos 45)) (neg_ℤ (pos 1129)) (neg_ℤ (pos 225)) ∷ []) }
    ensures jacobi { jacobi 2 two_nodes slopes_of_two
        ≡ vector (neg_ℤ (pos 111)) (pos 250) (neg_ℤ (pos 429))
        ∷ vector (pos 83) (neg_ℤ (pos 1000)) (neg_ℤ (pos 15)) ∷ [] }
{}
