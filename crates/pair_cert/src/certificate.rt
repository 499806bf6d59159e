//! The certificate of two parts in motion.
ghost use Rattle.std.specs.Prelude.{◌≡◌, ℕ, ◌≤◌, ◌↔◌, IsTrue, List, All};
ghost use Rattle.plane_cut.specs.declared.meeting.TheConstants.{FIRST_LIMIT};
ghost use Rattle.safe_motion.specs.declared.depth.TheConstants.{DEPTH};
ghost use Rattle.safe_motion.specs.declared.motion.Move.{Move};
ghost use Rattle.safe_motion.specs.SweptBoxes.{SweptBoxesTouch};
ghost use Rattle.safe_motion.specs.Certificates.{ByHalves, IsServed, PairCertificate};
ghost use Rattle.safe_motion.specs.Meeting.{MeetAt};
ghost use Rattle.safe_motion.specs.Moments.{IsFraction};
ghost use Rattle.pair_cert.specs.Calls.Moves.{HasRoom, moves_within};
ghost use Rattle.pair_cert.specs.Calls.RelativeMoves.{moves_in};
ghost use Rattle.space3.specs.Spots.{StaysInTheBox};
ghost use Rattle.pair_cert.specs.Parts.{moves_of};
ghost use Rattle.pair_cert.specs.Tallies.{RisesAtMost, intervals_within};

use crate::centres::do_centres_separate;
use crate::guesses::centre_difference;
use crate::halves::half_moves;
use crate::moves::{Half, RelativeMoves};
use crate::planes::{has_plane_throughout, serves_some_other};
use crate::relative_moves::relative_moves;
use crate::swept_boxes::do_swept_boxes_touch;
use plane_cut::{FIRST_LIMIT, Tally};
use safe_motion::DEPTH;
use space3::Part;

/// Whether the parts `a` and `b`, which move straight, are certified to stay apart: whether for each of 256 equal
/// intervals of the step some whole vector separates them at both ends of it. False says nothing of their meeting.
/// The first part has at most 2 points; points are in grid units, in the box at the start and at the end. The tally
/// counts plane decisions: none where the boxes over start and end don't touch, else at most 511.
pub fn certify_pair(a: &Part, b: &Part, tally: &mut Tally) -> bool
    requires few { a.now.start.count ≤ FIRST_LIMIT }
    requires near_left { StaysInTheBox a.now }
    requires near_right { StaysInTheBox b.now }
    ensures certificate { IsTrue result ↔ PairCertificate DEPTH (moves_of a.now) (moves_of b.now) }
    ensures apart { IsTrue result →
        (p q : ℕ) → IsFraction p q → ¬ MeetAt p q (moves_of a.now) (moves_of b.now) }
    ensures tally { RisesAtMost (intervals_within DEPTH) tally.old.n tally.new.n }
    ensures untouched { ¬ SweptBoxesTouch (moves_of a.now) (moves_of b.now) → tally.new.n ≡ tally.old.n }
{
    // Once it is read, the count is known to be one of its type.
    let _count = tally.n;
    if do_centres_separate(a, b) {
        return true;
    }
    let moves = relative_moves(a, b);
    if serves_some_other(&moves, centre_difference(&moves)) {
        return true;
    }
    if !do_swept_boxes_touch(a, b) {
        return true;
    }
    is_certified(&moves, DEPTH, tally)
}

// Whether an interval with these relative moves is certified by so many halvings at most.
fn is_certified(moves: &RelativeMoves, depth: u8, tally: &mut Tally) -> bool
    requires { All (HasRoom depth) (moves_in moves.now) }
    ensures certificate { (xs ys : List Move) (j n : ℕ) →
        moves_in moves.now ≡ moves_within xs ys j n → IsTrue result ↔ ByHalves (IsServed xs ys) depth j n }
    ensures tally { RisesAtMost (intervals_within depth) tally.old.n tally.new.n }
{
    if has_plane_throughout(moves, tally) {
        return true;
    }
    if depth == 0 {
        return false;
    }
    is_certified(&half_moves(moves, Half::First), depth - 1, tally)
        && is_certified(&half_moves(moves, Half::Second), depth - 1, tally)
}
