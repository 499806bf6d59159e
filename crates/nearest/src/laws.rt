//! What the candidates are, and what the first least candidate says of all points of both parts. They are after Li
//! and others, "Incremental Potential Contact", 2020, whose distances are those of the same nearest points.
//! A law is a function that does nothing, whose contract is the law.
ghost use Rattle.std.specs.Prelude.{◌≡◌, ℕ, ◌≤◌, ℤ, pos, List, [], ◌∷◌, All, IsTrue, Some};
ghost use Rattle.space3.specs.declared.vectors.V3.{V3};
ghost use Rattle.space3.specs.Boxes.{box_of, are_within};
ghost use Rattle.space3.specs.Vectors.{Within, difference};
ghost use Rattle.nearest.specs.declared.limits.TheConstants.{APART_LIMIT, GAP_LIMIT};
ghost use Rattle.nearest.specs.Candidates.{Candidate, IsValid, IsFirstLeast, nearest_in};
ghost use Rattle.nearest.specs.Close.{AreClose, HasShortEdges};
ghost use Rattle.nearest.specs.Distances.{IsDistance};
ghost use Rattle.nearest.specs.Examples.{flat_triangle, from_first_end, high_edge, high_point};
ghost use Rattle.nearest.specs.Examples.{low_edge, over_triangle};
ghost use Rattle.nearest.specs.Hulls.{NoneIsNearer};
ghost use Rattle.nearest.specs.PointAndTriangle.{face_candidate, triangle_candidates, vt_candidates};
ghost use Rattle.nearest.specs.RoundedWeights.{rounded_weights, AreOfTwoParts};
ghost use Rattle.nearest.specs.SignedWeights.{signed_weights, AreBalanced};
ghost use Rattle.nearest.specs.TwoEdges.{inner_candidate, edges_candidates, ee_candidates};

/// The value of each candidate of a point and a triangle is the squared distance of its two points.
pub fn candidates_of_triangle_are_points()
    ensures { (p a b c : V3) →
        All (λ k. IsDistance k (p ∷ []) (a ∷ b ∷ c ∷ [])) (triangle_candidates p a b c) }
{}

/// The value of each candidate of two edges is the squared distance of its two points.
pub fn candidates_of_edges_are_points()
    ensures { (a0 a1 b0 b1 : V3) →
        All (λ k. IsDistance k (a0 ∷ a1 ∷ []) (b0 ∷ b1 ∷ [])) (edges_candidates a0 a1 b0 b1) }
{}

/// Where the foot of the point is inside the triangle, it is taken.
pub fn inside_of_triangle_is_taken()
    ensures { (p a b c : V3) → IsValid (face_candidate p a b c) →
        IsFirstLeast (triangle_candidates p a b c) (face_candidate p a b c) }
{}

/// Where the feet of the common perpendicular are inside both edges, they are taken.
pub fn insides_of_edges_are_taken()
    ensures { (a0 a1 b0 b1 : V3) → IsValid (inner_candidate a0 a1 b0 b1) →
        IsFirstLeast (edges_candidates a0 a1 b0 b1) (inner_candidate a0 a1 b0 b1) }
{}

/// The first least candidate of a point and a triangle: no point of the triangle is nearer to the point.
pub fn taken_is_nearest_of_triangle()
    ensures { (p a b c : V3) (taken : Candidate) →
        IsFirstLeast (triangle_candidates p a b c) taken →
        NoneIsNearer taken.num taken.den (p ∷ []) (a ∷ b ∷ c ∷ []) }
{}

/// The first least candidate of two edges: no two points of them are nearer.
pub fn taken_is_nearest_of_edges()
    ensures { (a0 a1 b0 b1 : V3) (taken : Candidate) →
        IsFirstLeast (edges_candidates a0 a1 b0 b1) taken →
        NoneIsNearer taken.num taken.den (a0 ∷ a1 ∷ []) (b0 ∷ b1 ∷ []) }
{}

/// A list of candidates has one first least at most.
pub fn one_is_taken()
    ensures { (candidates : List Candidate) (k j : Candidate) → IsFirstLeast candidates k →
        IsFirstLeast candidates j → k ≡ j }
{}

/// A point and a triangle have a first least candidate, also a triangle without an area.
pub fn some_is_taken_of_triangle()
    ensures { (p a b c : V3) → (k : Candidate) × IsFirstLeast (triangle_candidates p a b c) k }
{}

/// Two edges have a first least candidate, also edges without a length.
pub fn some_is_taken_of_edges()
    ensures { (a0 a1 b0 b1 : V3) → (k : Candidate) × IsFirstLeast (edges_candidates a0 a1 b0 b1) k }
{}

/// The first least candidate is the one that the search in a list finds.
pub fn first_least_is_found()
    ensures { (candidates : List Candidate) (k : Candidate) → IsFirstLeast candidates k →
        nearest_in candidates ≡ Some k }
{}

/// The rounded weights of the candidate that is taken for a point and a triangle are coefficients in each part.
pub fn weights_of_triangle_are_coefficients()
    ensures { (p a b c : V3) (taken : Candidate) →
        IsFirstLeast (triangle_candidates p a b c) taken → AreOfTwoParts 1 (rounded_weights taken) }
{}

/// The rounded weights of the candidate that is taken for two edges are coefficients in each part.
pub fn weights_of_edges_are_coefficients()
    ensures { (a0 a1 b0 b1 : V3) (taken : Candidate) →
        IsFirstLeast (edges_candidates a0 a1 b0 b1) taken → AreOfTwoParts 2 (rounded_weights taken) }
{}

/// Where the weights of the second part have their sign turned, those above 0 add up to 1 and those below 0 to −1.
pub fn signed_weights_are_balanced()
    ensures { (split : ℕ) (weights : List ℤ) → AreOfTwoParts split weights →
        AreBalanced (signed_weights split weights) }
{}

/// Two parts with short edges are close where their boxes have no gap above some reach that is within the limit.
pub fn boxes_within_a_gap_are_close()
    ensures { (reach : ℕ) (xs ys : List V3) → reach ≤ GAP_LIMIT →
        HasShortEdges xs → HasShortEdges ys → IsTrue (are_within reach (box_of xs) (box_of ys)) →
        AreClose xs ys }
{}

/// Each point of a part is near each point of a part that is close.
pub fn points_of_close_parts_are_near()
    ensures { (xs ys : List V3) → AreClose xs ys →
        All (λ a. All (λ b. Within APART_LIMIT (difference a b)) ys) xs }
{}

/// The foot of the point is inside the triangle.
pub fn example_over_a_triangle()
    ensures taken { IsFirstLeast (vt_candidates high_point flat_triangle)
        (over_triangle high_point flat_triangle) }
    ensures num { (over_triangle high_point flat_triangle).num ≡ pos 8100000000 }
    ensures den { (over_triangle high_point flat_triangle).den ≡ pos 100000000 }
    ensures weights { rounded_weights (over_triangle high_point flat_triangle)
        ≡ pos 65536 ∷ pos 15402 ∷ pos 16711 ∷ pos 33423 ∷ [] }
{}

/// Of all pairs of points that are as near, the first candidate in order is taken: the first end of the first edge.
pub fn example_of_parallel_edges()
    ensures taken { IsFirstLeast (ee_candidates low_edge high_edge) (from_first_end low_edge high_edge) }
    ensures num { (from_first_end low_edge high_edge).num ≡ pos 2500 }
    ensures den { (from_first_end low_edge high_edge).den ≡ pos 100 }
    ensures weights { rounded_weights (from_first_end low_edge high_edge)
        ≡ pos 65536 ∷ pos 0 ∷ pos 32768 ∷ pos 32768 ∷ [] }
{}
