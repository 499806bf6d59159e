//! The boxes over the start and the end of a part.
ghost use Rattle.std.specs.Prelude.{◌≡◌, ◌<◌, ◌↔◌, IsTrue, length};
ghost use Rattle.space3.specs.Boxes.{box_of};
ghost use Rattle.safe_motion.specs.SweptBoxes.{SweptBoxesTouch, both_ends};
ghost use Rattle.pair_cert.specs.Parts.{moves_of};

use crate::corners::points;
use space3::{BoundingBox, Part, are_within, box_around, box_of};

// Whether the boxes over start and end touch.
pub fn do_swept_boxes_touch(a: &Part, b: &Part) -> bool
    ensures { IsTrue result ↔ SweptBoxesTouch (moves_of a.now) (moves_of b.now) }
{
    are_within(0, &swept_box(a), &swept_box(b))
}

// The box over start and end.
fn swept_box(part: &Part) -> BoundingBox
    ensures value { result ≡ box_of (both_ends (moves_of part.now)) }
    ensures some { 0 < length (both_ends (moves_of part.now)) }
{
    box_around(&box_of(points(&part.start)), &box_of(points(&part.end)))
}
