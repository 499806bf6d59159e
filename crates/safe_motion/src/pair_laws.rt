//! Laws of two parts in motion: what keeps them apart, and what a certificate is worth.
ghost use Rattle.std.specs.Prelude.{ℕ, ◌+◌, ◌↔◌, List};
ghost use Rattle.space3.specs.declared.vectors.V3.{V3};
ghost use Rattle.safe_motion.specs.declared.motion.Move.{Move};
ghost use Rattle.safe_motion.specs.SweptBoxes.{SweptBoxesTouch};
ghost use Rattle.safe_motion.specs.Certificates.{ByHalves, IsServed, PairCertificate, Serves};
ghost use Rattle.safe_motion.specs.Meeting.{MeetAt, Meets, Separates};
ghost use Rattle.safe_motion.specs.Moments.{IsFraction, IsInside, places_at};

/// Points that some plane separates strictly don't meet.
pub fn separated_lists_do_not_meet()
    ensures { (xs ys : List V3) → Meets xs ys → (n : V3) → ¬ Separates n xs ys }
{}

/// A vector that separates two parts at both ends of an interval separates them at each moment inside.
pub fn separation_lasts_inside()
    ensures { (n : V3) (xs ys : List Move) (p q j m : ℕ) → IsInside p q j m → Serves n xs ys j m →
        Separates n (places_at p q xs) (places_at p q ys) }
{}

/// Parts that one vector serves in an interval don't meet at any moment inside.
pub fn served_parts_stay_apart()
    ensures { (xs ys : List Move) (p q j m : ℕ) → IsInside p q j m → IsServed xs ys j m →
        ¬ MeetAt p q xs ys }
{}

/// Parts with a certificate of any depth don't meet at any moment of the step.
pub fn certified_parts_stay_apart()
    ensures { (depth : ℕ) (xs ys : List Move) → PairCertificate depth xs ys →
        (p q : ℕ) → IsFraction p q → ¬ MeetAt p q xs ys }
{}

/// A certificate of some depth gives one of the next.
pub fn pair_certificates_deepen()
    ensures { (depth : ℕ) (xs ys : List Move) →
        PairCertificate depth xs ys → PairCertificate (depth + 1) xs ys }
{}

/// Halving downwards, which stops where one vector serves, finds a certificate exactly where there is one.
pub fn pair_certificates_are_by_halves()
    ensures { (depth : ℕ) (xs ys : List Move) →
        PairCertificate depth xs ys ↔ ByHalves (IsServed xs ys) depth 0 1 }
{}

/// Parts whose boxes over start and end don't touch have a certificate of every depth.
pub fn untouched_parts_are_certified()
    ensures { (xs ys : List Move) → ¬ SweptBoxesTouch xs ys →
        (depth : ℕ) → PairCertificate depth xs ys }
{}
