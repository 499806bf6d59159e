//! Motions in small numbers, with what is true of them.
ghost use Rattle.std.specs.Prelude.{◌≡◌, ℕ, ◌*◌, ◌<◌, ◌≤◌, ◌↔◌, pos, ◌<ℤ◌};
ghost use Rattle.space3.specs.Vectors.{vector};
ghost use Rattle.safe_motion.specs.Certificates.{IsServed, PairCertificate, Serves};
ghost use Rattle.safe_motion.specs.Certificates.{VolumeCertificate, volume_at};
ghost use Rattle.safe_motion.specs.Examples.{overturning_tetrahedron, still_vertex};
ghost use Rattle.safe_motion.specs.Examples.{swinging_edge, turning_edge};

/// No one plane keeps the turning edge from the still vertex, one for each half of the step does.
pub fn turning_edge_needs_one_halving()
    ensures whole { ¬ IsServed still_vertex turning_edge 0 1 }
    ensures first_half { Serves (vector (pos 1) (pos 4) (pos 0)) still_vertex turning_edge 0 2 }
    ensures second_half { Serves (vector (pos 4) (pos 3) (pos 0)) still_vertex turning_edge 1 2 }
    ensures certified { PairCertificate 1 still_vertex turning_edge }
{}

/// The swinging edge is certified exactly from depth 6 on.
pub fn swinging_edge_needs_depth_six()
    ensures { (depth : ℕ) → PairCertificate depth still_vertex swinging_edge ↔ (6 ≤ depth) }
{}

/// The overturning tetrahedron has a positive volume at both ends, is flat at 1/2 and 2/3 and turned over
/// between, and has no certificate.
pub fn overturning_tetrahedron_is_refused()
    ensures at_the_start { volume_at 0 1 overturning_tetrahedron ≡ pos 1000000 }
    ensures at_the_end { volume_at 1 1 overturning_tetrahedron ≡ pos 500000 }
    ensures at_the_half { volume_at 1 2 overturning_tetrahedron ≡ pos 0 }
    ensures at_two_thirds { volume_at 2 3 overturning_tetrahedron ≡ pos 0 }
    ensures between { (p q : ℕ) → q < 2 * p → 3 * p < 2 * q →
        volume_at p q overturning_tetrahedron <ℤ pos 0 }
    ensures refused { (depth : ℕ) → ¬ VolumeCertificate depth overturning_tetrahedron }
{}
