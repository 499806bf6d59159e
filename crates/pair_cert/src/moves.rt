//! Up to eight moves of points as seen from others.
ghost use Rattle.std.specs.Prelude.{◌≤◌};
ghost use Rattle.pair_cert.specs.declared.moves.TheConstants.{MOVE_LIMIT};

use safe_motion::Move;

/// The most relative moves of a pair: two points as seen from each of four.
pub const MOVE_LIMIT: usize = 8;

/// How each point of one part moves as seen from each of another: the first `count` of `at`.
#[derive(Clone, Copy)]
pub struct RelativeMoves {
    pub count: usize,
    pub at: [Move; MOVE_LIMIT],
    pub ghost few: { count ≤ MOVE_LIMIT },
}

/// Which half of an interval.
#[derive(Clone, Copy)]
pub enum Half {
    First,
    Second,
}
