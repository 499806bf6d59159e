//! What of the pairs that are left out. A law is a function that does nothing, whose contract is the law.
ghost use Rattle.std.specs.Prelude.{◌≡◌, ℕ, List, false};
ghost use Rattle.space3.specs.declared.vectors.V3.{V3};
ghost use Rattle.safe_motion.specs.Certificates.{PairCertificate};
ghost use Rattle.safe_motion.specs.Safety.{node_moves};
ghost use Rattle.boundary.specs.declared.pairs.Pair.{Pair};
ghost use Rattle.boundary.specs.Pairs.{IsPair, part_pair};
ghost use Rattle.boundary.specs.Surface.{AreSurfaceLists, SurfaceLists};
ghost use Rattle.broad_grid.specs.NearPairs.{boxes_touch};

/// Law: a pair whose boxes don't touch in a motion is certified to stay apart, at every depth.
pub fn untouched_pairs_are_certified()
    ensures { (s : SurfaceLists) (x0 x1 : List V3) (p : Pair) (depth : ℕ) → AreSurfaceLists s → IsPair s p
        → boxes_touch s x0 x1 p ≡ false → let parts = part_pair s p in
        PairCertificate depth (node_moves x0 x1 parts.left) (node_moves x0 x1 parts.right) }
{}
