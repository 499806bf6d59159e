//! The halves of an interval.
ghost use Rattle.std.specs.Prelude.{◌≡◌, ◌^◌, ◌<◌, ◌≤◌, pos, ◌+ℤ◌, ◌*ℤ◌, All, map};
ghost use Rattle.space3.specs.Vectors.{AtMost, Within, multiple, sum_of};
ghost use Rattle.plane_cut.specs.declared.planes.TheConstants.{COMPONENT_LIMIT};
ghost use Rattle.pair_cert.specs.Calls.Moves.{HasRoom};
ghost use Rattle.pair_cert.specs.Calls.Halves.{half_of};
ghost use Rattle.pair_cert.specs.Calls.RelativeMoves.{moves_in};

use crate::moves::{Half, RelativeMoves};
use safe_motion::Move;
use space3::V3;

// The moves in one half of their interval, times 2.
pub fn half_moves(moves: &RelativeMoves, half: Half) -> RelativeMoves
    requires { All (HasRoom 1) (moves_in moves.now) }
    ensures { moves_in result ≡ map (half_of half) (moves_in moves.now) }
{
    let mut at = moves.at;
    for i in 0..moves.count {
        at[i] = half_move(moves.at[i], half);
    }
    RelativeMoves {
        count: moves.count,
        at,
    }
}

fn half_move(m: Move, half: Half) -> Move
    requires { HasRoom 1 m }
    ensures { result ≡ half_of half m }
{
    let middle = sum(m.start, m.end);
    match half {
        Half::First => Move {
            start: double(m.start),
            end: middle,
        },
        Half::Second => Move {
            start: middle,
            end: double(m.end),
        },
    }
}

fn double(a: V3) -> V3
    requires { Within COMPONENT_LIMIT (multiple (pos 2) a) }
    ensures { result ≡ multiple (pos 2) a }
{
    sum(a, a)
}

fn sum(a: V3, b: V3) -> V3
    requires left { Within COMPONENT_LIMIT a }
    requires right { Within COMPONENT_LIMIT b }
    ensures { result ≡ sum_of a b }
{
    V3 {
        x: plus(a.x, b.x),
        y: plus(a.y, b.y),
        z: plus(a.z, b.z),
    }
}

fn plus(a: i64, b: i64) -> i64
    requires left { AtMost COMPONENT_LIMIT a }
    requires right { AtMost COMPONENT_LIMIT b }
    ensures { result ≡ a +ℤ b }
{
    a + b
}
