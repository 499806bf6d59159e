//! Whether the convex hulls of two spots meet: exactly where no plane serves all their differences.
ghost use Rattle.std.specs.Prelude.{IsTrue, ◌↔◌, ◌≡◌, ◌^◌, ◌+◌, ◌*◌, ◌-◌, ◌≤◌, ◌++◌, min, take, All};
ghost use Rattle.space3.specs.Vectors.{Within};
ghost use Rattle.space3.specs.Spots.{points};
ghost use Rattle.safe_motion.specs.Meeting.{Meets};
ghost use Rattle.plane_cut.specs.Calls.Differences.{differences, differences_from};

use crate::planes::{ROW_LIMIT, Tally, cone_of};
use space3::{FINE_LIMIT, SPOT_LIMIT, Spot, V3, sub};

/// The most points of the first spot: a pair is of a vertex or an edge with something.
pub const FIRST_LIMIT: u8 = 2;

/// Whether the two convex hulls have a common point: non-negative weights on both spots, with equal
/// positive sums, have equal weighted sums. The first spot has at most 2 points. Components are at
/// most [`FINE_LIMIT`] in absolute value. The tally rises by one.
pub fn meets(a: &Spot, b: &Spot, tally: &mut Tally) -> bool
    requires few { a.now.count ≤ FIRST_LIMIT }
    requires left { All (Within FINE_LIMIT) (points a.now) }
    requires right { All (Within FINE_LIMIT) (points b.now) }
    ensures meets { IsTrue result ↔ Meets (points a.now) (points b.now) }
    ensures tally { tally.new.n ≡ min (tally.old.n + 1) (2 ^ 64 - 1) }
{
    tally.n = tally.n.saturating_add(1);
    let mut rows = [V3 { x: 0, y: 0, z: 0 }; ROW_LIMIT];
    let count = put_all_differences(&mut rows, a, b);
    cone_of(&rows, count).is_none()
}

/// Puts all differences, and gives their count.
fn put_all_differences(rows: &mut [V3; ROW_LIMIT], a: &Spot, b: &Spot) -> usize
    requires few { a.now.count ≤ FIRST_LIMIT }
    requires left { All (Within FINE_LIMIT) (points a.now) }
    requires right { All (Within FINE_LIMIT) (points b.now) }
    ensures rows { take result rows.new ≡ differences (points a.now) (points b.now) }
    ensures count { result ≤ FIRST_LIMIT * SPOT_LIMIT }
{
    let mut count = 0;
    for i in 0..a.count as usize {
        count = put_differences(rows, count, a.at[i], b);
    }
    count
}

/// Puts the differences from one point behind the first `count` rows, and gives their new count.
fn put_differences(rows: &mut [V3; ROW_LIMIT], count: usize, a: V3, b: &Spot) -> usize
    requires room { count + SPOT_LIMIT ≤ ROW_LIMIT }
    requires left { Within FINE_LIMIT a }
    requires right { All (Within FINE_LIMIT) (points b.now) }
    ensures rows { take result rows.new ≡ take count rows.old ++ differences_from a (points b.now) }
    ensures count { result ≡ count + b.now.count }
{
    let mut end = count;
    for j in 0..b.count as usize {
        rows[end] = sub(a, b.at[j]);
        end += 1;
    }
    end
}
