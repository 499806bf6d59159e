//! What friction's definitions say. A law is a function that does nothing, whose contract is the law.
ghost use Rattle.std.specs.Prelude.{◌≡◌, pos, Some, slice_get};
ghost use Rattle.space3.specs.Vectors.{vector};
ghost use Rattle.friction_lag.specs.Contacts.{LaggedContact};
ghost use Rattle.friction_lag.specs.Examples.{IsUpright, slid};
ghost use Rattle.friction_lag.specs.Friction.{friction_energy, friction_gradient};

/// A point that slid by 1 grid unit at a slip of 2, with half the force as friction. Its rise by 5 makes no difference.
pub fn example_of_a_sliding_point()
    ensures energy { (c : LaggedContact) → IsUpright c →
        friction_energy c (pos 128) (pos 2) slid ≡ pos 567976 }
    ensures gradient { (c : LaggedContact) → IsUpright c →
        slice_get (friction_gradient c (pos 128) (pos 2) slid) 0
        ≡ Some (vector (pos 393216) (pos 0) (pos 0)) }
{}
