//! The main law: certificates make a step safe.
ghost use Rattle.std.specs.Prelude.{ℕ, List};
ghost use Rattle.space3.specs.declared.vectors.V3.{V3};
ghost use Rattle.safe_motion.specs.Safety.{IsCertified, PartPair, SafeMotion};

/// Where each listed pair and each tetrahedron has its certificate, at whatever depth, then at every
/// fraction of the straight step no listed pair meets and every tetrahedron's volume is positive.
pub fn certified_is_safe()
    ensures { (depth : ℕ) (pairs : List PartPair) (tets : List (List ℕ)) (x0 x1 : List V3) →
        IsCertified depth pairs tets x0 x1 → SafeMotion pairs tets x0 x1 }
{}
