//! The points of one part as seen from those of another.
ghost use Rattle.std.specs.Prelude.{◌≡◌, ◌+◌, ◌<◌, ◌≤◌, ◌++◌, All, take};
ghost use Rattle.space3.specs.declared.spots.TheConstants.{SPOT_LIMIT};
ghost use Rattle.plane_cut.specs.declared.meeting.TheConstants.{FIRST_LIMIT};
ghost use Rattle.safe_motion.specs.declared.depth.TheConstants.{DEPTH};
ghost use Rattle.pair_cert.specs.declared.moves.TheConstants.{MOVE_LIMIT};
ghost use Rattle.pair_cert.specs.Calls.Moves.{HasRoom, IsNear, moves_from, relative_move, relative_moves};
ghost use Rattle.pair_cert.specs.Calls.RelativeMoves.{moves_in};
ghost use Rattle.space3.specs.Spots.{StaysInTheBox};
ghost use Rattle.pair_cert.specs.Parts.{moves_of};

use crate::corners::{corner, corner_count};
use crate::moves::{MOVE_LIMIT, RelativeMoves};
use safe_motion::Move;
use space3::{Part, V3, sub};

const ORIGIN: V3 = V3 { x: 0, y: 0, z: 0 };

const STILL: Move = Move {
    start: ORIGIN,
    end: ORIGIN,
};

// The points of the first part as seen from those of the second.
pub fn relative_moves(a: &Part, b: &Part) -> RelativeMoves
    requires few { a.now.start.count ≤ FIRST_LIMIT }
    requires near_left { StaysInTheBox a.now }
    requires near_right { StaysInTheBox b.now }
    ensures moves { moves_in result ≡ relative_moves (moves_of a.now) (moves_of b.now) }
    ensures room { All (HasRoom DEPTH) (moves_in result) }
{
    let mut at = [STILL; MOVE_LIMIT];
    let mut count = 0;
    for i in 0..corner_count(a) {
        count = put_moves(&mut at, count, corner(a, i), b);
    }
    RelativeMoves { count, at }
}

// Puts the moves of a point behind the first `count`, as seen from each corner, and gives their new count.
fn put_moves(at: &mut [Move; MOVE_LIMIT], count: usize, x: Move, b: &Part) -> usize
    requires room { count + SPOT_LIMIT ≤ MOVE_LIMIT }
    requires near { IsNear x }
    requires near_right { StaysInTheBox b.now }
    requires room_before { All (HasRoom DEPTH) (take count at.now) }
    ensures moves { take result at.new ≡ take count at.old ++ moves_from (moves_of b.now) x }
    ensures count { result ≡ count + b.now.start.count }
    ensures room { All (HasRoom DEPTH) (take result at.new) }
{
    let mut end = count;
    for j in 0..corner_count(b) {
        at[end] = relative_move(x, corner(b, j));
        end += 1;
    }
    end
}

fn relative_move(x: Move, y: Move) -> Move
    requires left { IsNear x }
    requires right { IsNear y }
    ensures value { result ≡ relative_move x y }
    ensures room { HasRoom DEPTH result }
{
    Move {
        start: sub(x.start, y.start),
        end: sub(x.end, y.end),
    }
}
