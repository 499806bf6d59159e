//! Products are linear; and products of two nodes, whose numbers were computed apart. A law is a
//! function that does nothing, whose contract is the law.
ghost use Rattle.std.specs.Prelude.{◌≡◌, ℕ, ℤ, pos, neg_ℤ, true, false, List, [], ◌∷◌, length};
ghost use Rattle.block_rows.specs.Example.{two_nodes};
ghost use Rattle.block_rows.specs.Tables.{
  Table,
  cut_table,
  multiple_by_number,
  product,
  sum_by_number,
};

/// The product with a sum is the sum of the products, and that with a multiple the multiple.
pub fn products_are_linear()
    ensures sum { (nodes : ℕ) (table : Table) (p q : List ℤ) → length p ≡ length q →
        product nodes table (sum_by_number p q)
        ≡ sum_by_number (product nodes table p) (product nodes table q) }
    ensures multiple { (nodes : ℕ) (table : Table) (k : ℤ) (p : List ℤ) →
        product nodes table (multiple_by_number k p)
        ≡ multiple_by_number k (product nodes table p) }
{}

/// The product of a table of two nodes with a vector; and where the second node is fixed.
pub fn products_of_two_nodes()
    ensures free { product 2 (cut_table (false ∷ false ∷ []) two_nodes)
        (pos 1 ∷ neg_ℤ (pos 2) ∷ pos 3 ∷ neg_ℤ (pos 4) ∷ pos 5 ∷ pos 6 ∷ [])
        ≡ pos 2865 ∷ neg_ℤ (pos 3448) ∷ pos 222 ∷ neg_ℤ (pos 2928) ∷ pos 4387 ∷ pos 3850 ∷ [] }
    ensures fixed { product 2 (cut_table (false ∷ true ∷ []) two_nodes)
        (pos 1 ∷ neg_ℤ (pos 2) ∷ pos 3 ∷ neg_ℤ (pos 4) ∷ pos 5 ∷ pos 6 ∷ [])
        ≡ pos 830 ∷ neg_ℤ (pos 1490) ∷ pos 2030 ∷ neg_ℤ (pos 4) ∷ pos 5 ∷ pos 6 ∷ [] }
{}
