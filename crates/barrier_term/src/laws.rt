//! What the barrier's definitions say. A law is a function that does nothing, whose contract is the law.
ghost use Rattle.std.specs.Prelude.{◌≡◌, ℕ, ◌≤◌, ◌<◌, ◌^◌, ℤ, pos, negsuc, ◌≤ℤ◌};
ghost use Rattle.std.specs.Prelude.{false, List, All, unsigned_abs};
ghost use Rattle.space3.specs.declared.vectors.V3.{V3};
ghost use Rattle.space3.specs.Boxes.{are_within, box_of};
ghost use Rattle.space3.specs.Vectors.{origin};
ghost use Rattle.vec_q.specs.Matrices.{columns};
ghost use Rattle.fixed_log.specs.declared.logarithm.TheConstants.{ARGUMENT_BITS};
ghost use Rattle.near_pair.specs.declared.near.Near.{Near};
ghost use Rattle.near_pair.specs.Answers.{AreFourPoints, near_between, squared_distance};
ghost use Rattle.barrier_term.specs.Barrier.{barrier_energy, barrier_slope, reach_of};
ghost use Rattle.barrier_term.specs.Blocks.{barrier_block};
ghost use Rattle.barrier_term.specs.Examples.{over_a_triangle};
ghost use Rattle.barrier_term.specs.Gradients.{barrier_gradient};

/// Of two pairs the one that is farther has no greater energy.
pub fn energy_falls_with_the_distance()
    ensures { (kappa dhat : ℤ) (near far : Near) → pos 0 ≤ℤ kappa →
        reach_of dhat < 2 ^ ARGUMENT_BITS → squared_distance near ≤ squared_distance far →
        barrier_energy kappa dhat far ≤ℤ barrier_energy kappa dhat near }
{}

/// Where the boxes of two parts have a gap above dhat along some axis, their nearest points are not nearer than dhat.
/// So a sum over the pairs whose boxes are close is the sum over all pairs.
pub fn far_boxes_are_beyond_dhat()
    ensures { (dhat : ℤ) (first second : List V3) → AreFourPoints first second →
        are_within (unsigned_abs dhat) (box_of first) (box_of second) ≡ false →
        reach_of dhat ≤ squared_distance (near_between first second) }
{}

/// Of a pair that is not nearer than dhat all parts of the barrier are 0.
pub fn barrier_is_nothing_beyond_dhat()
    ensures energy { (kappa dhat : ℤ) (near : Near) → reach_of dhat ≤ squared_distance near →
        barrier_energy kappa dhat near ≡ pos 0 }
    ensures slope { (kappa dhat : ℤ) (near : Near) → reach_of dhat ≤ squared_distance near →
        barrier_slope kappa dhat near ≡ pos 0 }
    ensures gradient { (kappa dhat : ℤ) (near : Near) (split : ℕ) (points : List V3) →
        reach_of dhat ≤ squared_distance near →
        All (λ pull. pull ≡ origin) (barrier_gradient kappa dhat near split points) }
    ensures block { (kappa dhat : ℤ) (near : Near) (split : ℕ) (points : List V3) (i j : ℕ) →
        reach_of dhat ≤ squared_distance near →
        barrier_block kappa dhat near split points i j ≡ columns origin origin origin }
{}

/// A point at a height of 9 grid units over a triangle, at dhat 10 and at dhat 9.
pub fn example_over_a_triangle()
    ensures energy { barrier_energy (pos 1048576) (pos 10) over_a_triangle ≡ pos 79765499 }
    ensures slope { barrier_slope (pos 1048576) (pos 10) over_a_triangle ≡ negsuc 3345830687 }
    ensures far { barrier_energy (pos 1048576) (pos 9) over_a_triangle ≡ pos 0 }
{}
