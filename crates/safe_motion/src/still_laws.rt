//! Laws of what doesn't move, and of the start and the end of what does.
ghost use Rattle.std.specs.Prelude.{◌≡◌, ℕ, ◌*◌, ◌<◌, ◌↔◌, pos, ◌*ℤ◌, ◌<ℤ◌, List, All};
ghost use Rattle.safe_motion.specs.declared.motion.Move.{Move};
ghost use Rattle.safe_motion.specs.declared.motion.Corners.{Corners};
ghost use Rattle.space3.specs.declared.vectors.V3.{V3};
ghost use Rattle.safe_motion.specs.Certificates.{AreStill, volume_at};
ghost use Rattle.safe_motion.specs.Meeting.{MeetAt, Meets};
ghost use Rattle.safe_motion.specs.Safety.{PartPair, SafeMotion, SafePlaces};
ghost use Rattle.safe_motion.specs.Moments.{IsStill, start_places};

/// Parts that stay meet at a moment exactly where they meet at the start.
pub fn still_parts_meet_as_at_the_start()
    ensures { (xs ys : List Move) (p q : ℕ) → All IsStill xs → All IsStill ys → 0 < q →
        MeetAt p q xs ys ↔ Meets (start_places xs) (start_places ys) }
{}

/// A tetrahedron that stays has its volume at the start at each moment, times `q^3`.
pub fn still_volumes_are_as_at_the_start()
    ensures value { (t : Corners) (p q : ℕ) → AreStill t →
        volume_at p q t ≡ pos (q * (q * q)) *ℤ volume_at 0 1 t }
    ensures sign { (t : Corners) (p q : ℕ) → AreStill t → 0 < q →
        pos 0 <ℤ volume_at p q t ↔ pos 0 <ℤ volume_at 0 1 t }
{}

/// A safe motion starts and ends at safe places.
pub fn safe_motions_have_safe_ends()
    ensures start { (pairs : List PartPair) (tets : List (List ℕ)) (x0 x1 : List V3) →
        SafeMotion pairs tets x0 x1 → SafePlaces pairs tets x0 }
    ensures end { (pairs : List PartPair) (tets : List (List ℕ)) (x0 x1 : List V3) →
        SafeMotion pairs tets x0 x1 → SafePlaces pairs tets x1 }
{}

/// Standing still is a safe motion exactly at safe places.
pub fn standing_is_safe_at_safe_places()
    ensures { (pairs : List PartPair) (tets : List (List ℕ)) (x : List V3) →
        SafeMotion pairs tets x x ↔ SafePlaces pairs tets x }
{}
