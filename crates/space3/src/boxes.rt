//! Boxes along the axes, which hold lists of points.
ghost use Rattle.std.specs.Prelude.{◌≡◌, ℕ, pos, ◌-ℤ◌, ◌<◌, ◌&&◌, ◌↔◌, ◌∷◌, ◌++◌, List, length, int_le, All, IsTrue};
ghost use Rattle.space3.specs.declared.vectors.V3.{V3};
ghost use Rattle.space3.specs.Vectors.{Within};
ghost use Rattle.space3.specs.Boxes.{BoxesTouch, are_within, box_around, box_of, greatest_corner, least_corner};

use crate::vectors::V3;

/// A box along the axes, from its least to its greatest corner, in grid units.
#[derive(Clone, Copy, PartialEq, Eq, Debug)]
pub struct BoundingBox {
    pub least: V3,
    pub greatest: V3,
}

/// The least box that holds all the points, of which there is at least one.
pub fn box_of(points: &[V3]) -> BoundingBox
    requires { 0 < length points.now }
    ensures { result ≡ box_of points.now }
{
    let mut found = point_box(points[0]);
    for i in 1..points.len() {
        found = box_around(&found, &point_box(points[i]));
    }
    found
}

// The box of one point.
fn point_box(point: V3) -> BoundingBox
    ensures { result ≡ record { least = point; greatest = point } }
{
    BoundingBox {
        least: point,
        greatest: point,
    }
}

/// The least box that holds both boxes.
pub fn box_around(a: &BoundingBox, b: &BoundingBox) -> BoundingBox
    ensures { result ≡ box_around a.now b.now }
{
    BoundingBox {
        least: least_corner(a.least, b.least),
        greatest: greatest_corner(a.greatest, b.greatest),
    }
}

fn least_corner(a: V3, b: V3) -> V3
    ensures { result ≡ least_corner a b }
{
    V3 {
        x: a.x.min(b.x),
        y: a.y.min(b.y),
        z: a.z.min(b.z),
    }
}

fn greatest_corner(a: V3, b: V3) -> V3
    ensures { result ≡ greatest_corner a b }
{
    V3 {
        x: a.x.max(b.x),
        y: a.y.max(b.y),
        z: a.z.max(b.z),
    }
}

/// Whether the gap between the two boxes is at most `reach` grid units along each axis.
pub fn are_within(reach: u32, a: &BoundingBox, b: &BoundingBox) -> bool
    ensures { result ≡ are_within reach a.now b.now }
{
    is_corner_within(reach, b.least, a.greatest) & is_corner_within(reach, a.least, b.greatest)
}

// Whether no component of `a` is greater than that of `b` by more than `reach`.
fn is_corner_within(reach: u32, a: V3, b: V3) -> bool
    ensures { result ≡ (int_le (a.x -ℤ b.x) (pos reach) && int_le (a.y -ℤ b.y) (pos reach)
        && int_le (a.z -ℤ b.z) (pos reach)) }
{
    is_past_by_at_most(reach, a.x, b.x)
        & is_past_by_at_most(reach, a.y, b.y)
        & is_past_by_at_most(reach, a.z, b.z)
}

// Whether `a` is past `b` by at most `reach`.
fn is_past_by_at_most(reach: u32, a: i64, b: i64) -> bool
    ensures { result ≡ int_le (a -ℤ b) (pos reach) }
{
    a.saturating_sub(b) <= i64::from(reach)
}

/// Boxes whose gap is 0 along each axis are those that have a common point.
pub fn boxes_touch_at_reach_zero()
    ensures { (p q : V3) (xs ys : List V3) →
        IsTrue (are_within 0 (box_of (p ∷ xs)) (box_of (q ∷ ys))) ↔ BoxesTouch (p ∷ xs) (q ∷ ys) }
{}

/// A bound of all the points is one of both corners of their box.
pub fn box_corners_keep_bounds()
    ensures least { (bound : ℕ) (p : V3) (points : List V3) → All (Within bound) (p ∷ points) →
        Within bound (box_of (p ∷ points)).least }
    ensures greatest { (bound : ℕ) (p : V3) (points : List V3) → All (Within bound) (p ∷ points) →
        Within bound (box_of (p ∷ points)).greatest }
{}

/// The box around the boxes of two lists is that of the joined list.
pub fn box_around_is_of_joined_list()
    ensures { (p q : V3) (xs ys : List V3) →
        box_around (box_of (p ∷ xs)) (box_of (q ∷ ys)) ≡ box_of ((p ∷ xs) ++ (q ∷ ys)) }
{}
