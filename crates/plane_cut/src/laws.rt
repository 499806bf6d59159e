//! The alternative: a plane, or weights, and never both.
//! A law is a function that does nothing, whose contract is the law.
ghost use Rattle.std.specs.Prelude.{List, ◌⊎◌};
ghost use Rattle.space3.specs.declared.vectors.V3.{V3};
ghost use Rattle.safe_motion.specs.Meeting.{Meets, Separates};
ghost use Rattle.plane_cut.specs.Planes.{HasPlane, HasWeights};

/// Rows that one plane leaves on one side have no balancing weights.
pub fn plane_excludes_weights()
    ensures { (rows : List V3) → HasPlane rows → ¬ HasWeights rows }
{}

/// Gordan's alternative: each list of rows has a plane, or it has balancing weights.
pub fn plane_or_weights()
    ensures { (rows : List V3) → HasPlane rows ⊎ HasWeights rows }
{}

/// Some whole vector separates two lists of points, or their hulls meet.
pub fn separated_or_meeting()
    ensures { (xs ys : List V3) → ((n : V3) × Separates n xs ys) ⊎ Meets xs ys }
{}
