//! Laws of a tetrahedron in motion: what keeps its volume positive.
ghost use Rattle.std.specs.Prelude.{ℕ, ◌+◌, ◌↔◌, pos, ◌<ℤ◌};
ghost use Rattle.safe_motion.specs.declared.motion.Corners.{Corners};
ghost use Rattle.safe_motion.specs.Certificates.{ByHalves, StaysPositive, VolumeCertificate, volume_at};
ghost use Rattle.safe_motion.specs.Moments.{IsFraction, IsInside};

/// Where the Bernstein coefficients of an interval are positive, the volume is positive at each moment inside.
pub fn positive_coefficients_keep_the_volume()
    ensures { (t : Corners) (p q j n : ℕ) → IsInside p q j n → StaysPositive t j n →
        pos 0 <ℤ volume_at p q t }
{}

/// A tetrahedron with a certificate of any depth has a positive volume at each moment of the step.
pub fn certified_volumes_stay_positive()
    ensures { (depth : ℕ) (t : Corners) → VolumeCertificate depth t →
        (p q : ℕ) → IsFraction p q → pos 0 <ℤ volume_at p q t }
{}

/// A certificate of some depth gives one of the next.
pub fn volume_certificates_deepen()
    ensures { (depth : ℕ) (t : Corners) →
        VolumeCertificate depth t → VolumeCertificate (depth + 1) t }
{}

/// Halving downwards, which stops where the Bernstein coefficients are positive, finds a certificate exactly
/// where there is one.
pub fn volume_certificates_are_by_halves()
    ensures { (depth : ℕ) (t : Corners) →
        VolumeCertificate depth t ↔ ByHalves (StaysPositive t) depth 0 1 }
{}
