//! Whether one vector separates two parts at both ends of an interval.
ghost use Rattle.std.specs.Prelude.{◌≡◌, ◌*◌, ◌^◌, ◌<◌, ◌≤◌, ◌↔◌, pos, ◌<ℤ◌, IsTrue, All, take};
ghost use Rattle.space3.specs.Vectors.{Within, dot_product};
ghost use Rattle.space3.specs.declared.vectors.TheConstants.{VECTOR_LIMIT};
ghost use Rattle.plane_cut.specs.declared.planes.TheConstants.{COMPONENT_LIMIT};
ghost use Rattle.plane_cut.specs.Planes.{HasPlane};
ghost use Rattle.pair_cert.specs.Calls.Moves.{IsAhead, IsShort, all_ends};
ghost use Rattle.pair_cert.specs.Calls.RelativeMoves.{moves_in};
ghost use Rattle.pair_cert.specs.Tallies.{RisesAtMost};

use crate::guesses::{centre_difference, edge_count, normal, normal_count, perpendicular};
use crate::moves::RelativeMoves;
use crate::short_products::short_dot;
use plane_cut::{ROW_LIMIT, Tally, has_plane};
use safe_motion::Move;
use space3::V3;

// Whether some whole vector has a positive product with each move at both ends. A few vectors that are cheap to guess
// are tried before the exact decision, which alone is counted.
pub fn has_plane_throughout(moves: &RelativeMoves, tally: &mut Tally) -> bool
    requires { All IsShort (moves_in moves.now) }
    ensures plane { IsTrue result ↔ HasPlane (all_ends (moves_in moves.now)) }
    ensures tally { RisesAtMost 1 tally.old.n tally.new.n }
{
    // Once it is read, the count is known to be one of its type.
    let _count = tally.n;
    if is_plane_guessed(moves) {
        return true;
    }
    has_plane(&ends(moves), 2 * moves.count as u8, tally)
}

// Whether one of the guessed vectors serves. No says nothing.
fn is_plane_guessed(moves: &RelativeMoves) -> bool
    requires { All IsShort (moves_in moves.now) }
    ensures { IsTrue result → HasPlane (all_ends (moves_in moves.now)) }
{
    let centres = centre_difference(moves);
    if serves(centres, moves) {
        return true;
    }
    serves_some_other(moves, centres)
}

// Whether one of the guesses behind the first serves.
pub fn serves_some_other(moves: &RelativeMoves, centres: V3) -> bool
    requires { All IsShort (moves_in moves.now) }
    ensures { IsTrue result → HasPlane (all_ends (moves_in moves.now)) }
{
    serves_some_normal(moves, centres) || serves_some_perpendicular(moves, centres)
}

// Whether a cross product of two edges serves.
fn serves_some_normal(moves: &RelativeMoves, centres: V3) -> bool
    requires { All IsShort (moves_in moves.now) }
    ensures { IsTrue result → HasPlane (all_ends (moves_in moves.now)) }
{
    for k in 0..normal_count(moves) {
        if serves(normal(moves, centres, k), moves) {
            return true;
        }
    }
    false
}

// Whether the difference of centres serves without its part along an edge.
fn serves_some_perpendicular(moves: &RelativeMoves, centres: V3) -> bool
    requires { All IsShort (moves_in moves.now) }
    ensures { IsTrue result → HasPlane (all_ends (moves_in moves.now)) }
{
    for k in 0..edge_count(moves) {
        if serves(perpendicular(moves, centres, k), moves) {
            return true;
        }
    }
    false
}

// Whether the vector has a positive product with each move at both ends.
fn serves(n: V3, moves: &RelativeMoves) -> bool
    requires normal { Within VECTOR_LIMIT n }
    requires short { All IsShort (moves_in moves.now) }
    ensures { IsTrue result ↔ All (IsAhead n) (moves_in moves.now) }
{
    for i in 0..moves.count {
        if !is_ahead(n, moves.at[i]) {
            return false;
        }
    }
    true
}

fn is_ahead(n: V3, m: Move) -> bool
    requires normal { Within VECTOR_LIMIT n }
    requires short { IsShort m }
    ensures { IsTrue result ↔ IsAhead n m }
{
    is_past(n, m.start) && is_past(n, m.end)
}

// Whether the product is positive.
fn is_past(n: V3, a: V3) -> bool
    requires normal { Within VECTOR_LIMIT n }
    requires short { Within COMPONENT_LIMIT a }
    ensures { IsTrue result ↔ pos 0 <ℤ dot_product n a }
{
    short_dot(n, a) > 0
}

// The ends of the moves as rows of a plane decision.
fn ends(moves: &RelativeMoves) -> [V3; ROW_LIMIT]
    ensures { take (2 * moves.now.count) result ≡ all_ends (moves_in moves.now) }
{
    let mut rows = [V3 { x: 0, y: 0, z: 0 }; ROW_LIMIT];
    for i in 0..moves.count {
        rows[2 * i] = moves.at[i].start;
        rows[2 * i + 1] = moves.at[i].end;
    }
    rows
}
