//! The corners of a part in motion.
ghost use Rattle.std.specs.Prelude.{◌≡◌, ◌<◌, length, slice_index_or};
ghost use Rattle.space3.specs.Spots.{StaysInTheBox, points};
ghost use Rattle.pair_cert.specs.Calls.Moves.{IsNear};
ghost use Rattle.pair_cert.specs.Parts.{moves_of, still};

use safe_motion::Move;
use space3::{Part, Spot, V3};

// How many corners the part has.
pub fn corner_count(part: &Part) -> usize
    ensures count { result ≡ part.now.start.count }
    ensures moves { result ≡ length (moves_of part.now) }
{
    points(&part.start).len().min(points(&part.end).len())
}

// The points of a spot.
pub fn points(spot: &Spot) -> &[V3]
    ensures value { result.now ≡ points spot.now }
    ensures count { length (points spot.now) ≡ spot.now.count }
{
    &spot.at[..spot.count as usize]
}

// The corner's way.
pub fn corner(part: &Part, i: usize) -> Move
    requires there { i < part.now.start.count }
    requires near { StaysInTheBox part.now }
    ensures value { result ≡ slice_index_or (moves_of part.now) i still }
    ensures near { IsNear result }
{
    Move {
        start: part.start.at[i],
        end: part.end.at[i],
    }
}
