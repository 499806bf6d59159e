//! Two parts as one list of four points.
ghost use Rattle.std.specs.Prelude.{◌≡◌, take, drop};
ghost use Rattle.nearest.specs.Close.{AreClose};
ghost use Rattle.near_pair.specs.Answers.{IsBounded, IsOn, IsSplit, near_between};

use crate::near::{Near, near_ee, near_vt};
use space3::V3;

/// The nearest points of two parts of four points in all, of which the first part has `split`: a point and a triangle
/// for 1, two edges for 2. They are as close as [`near_vt`] and [`near_ee`] ask.
pub fn near_parts(split: u8, points: &[V3; 4]) -> Near
    requires split { IsSplit split }
    requires close { AreClose (take split points.now) (drop split points.now) }
    ensures value { result ≡ near_between (take split points.now) (drop split points.now) }
    ensures on { IsOn split points.now result }
    ensures bounded { IsBounded result }
{
    if split == 1 {
        near_vt(points[0], &[points[1], points[2], points[3]])
    } else {
        near_ee(&[points[0], points[1]], &[points[2], points[3]])
    }
}
