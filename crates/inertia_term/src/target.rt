//! Where a node would be without forces.
ghost use Rattle.std.specs.Prelude.{◌≡◌, ◌-◌, pos, ◌+ℤ◌, ◌-ℤ◌, ◌*ℤ◌};
ghost use Rattle.space3.specs.declared.places.TheConstants.{BOX_LIMIT};
ghost use Rattle.space3.specs.Vectors.{AtMost, Within};
ghost use Rattle.surface_mesh.specs.declared.ranges.TheConstants.{FARTHEST_BEFORE, MOST_GRAVITY};
ghost use Rattle.inertia_term.specs.Inertia.{target_of};

use space3::V3;

/// The greatest component of a target, in 1/256 grid unit. It is 512 times a place, less 256 times a place before, and
/// gravity, with room to spare.
pub const FARTHEST_TARGET: u32 = 1 << 30;

/// Where a node that stands at `now` after `before`, in grid units, would be without forces but gravity: its target,
/// in 1/256 grid unit. Gravity is in 1/256 grid unit per frame and frame.
pub fn target_of(gravity: V3, now: V3, before: V3) -> V3
    requires gravity { Within MOST_GRAVITY gravity }
    requires now { Within BOX_LIMIT now }
    requires before { Within FARTHEST_BEFORE before }
    ensures value { result ≡ target_of gravity now before }
    ensures bound { Within FARTHEST_TARGET result }
{
    V3 {
        x: target_along(gravity.x, now.x, before.x),
        y: target_along(gravity.y, now.y, before.y),
        z: target_along(gravity.z, now.z, before.z),
    }
}

// A component of a target.
fn target_along(gravity: i64, now: i64, before: i64) -> i64
    requires gravity { AtMost MOST_GRAVITY gravity }
    requires now { AtMost BOX_LIMIT now }
    requires before { AtMost FARTHEST_BEFORE before }
    ensures value { result ≡ (pos 512 *ℤ now -ℤ pos 256 *ℤ before) +ℤ gravity }
    ensures bound { AtMost FARTHEST_TARGET result }
{
    onward(now, before) + gravity
}

// As far from a place as that is from the place before, in 1/256 grid unit. A component.
fn onward(now: i64, before: i64) -> i64
    requires now { AtMost BOX_LIMIT now }
    requires before { AtMost FARTHEST_BEFORE before }
    ensures value { result ≡ pos 512 *ℤ now -ℤ pos 256 *ℤ before }
    ensures bound { AtMost (FARTHEST_TARGET - MOST_GRAVITY) result }
{
    512 * now - 256 * before
}
