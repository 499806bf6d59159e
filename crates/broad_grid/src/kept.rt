//! Near pairs that are kept, so that those that are close later are found among them.
ghost use Rattle.std.specs.Prelude.{◌≡◌, ◌+◌, ◌*◌, ◌-ℤ◌, ◌≤◌, ◌&&◌, IfOk, IsTrue, All, false, filter, int_le, length, nat_le, pos, unsigned_abs};
ghost use Rattle.space3.specs.declared.places.TheConstants.{BOX_LIMIT};
ghost use Rattle.space3.specs.Box.{IsInTheBox};
ghost use Rattle.space3.specs.Boxes.{are_within};
ghost use Rattle.space3.specs.Mesh.{HasNodes};
ghost use Rattle.space3.specs.Vectors.{AtMost};
ghost use Rattle.boundary.specs.Pairs.{IsPair};
ghost use Rattle.box_grid.specs.Near.{LiesInTheBox};
ghost use Rattle.broad_grid.specs.Kept.{IsWhole, differ_by_at_most, has_stayed, have_stayed};
ghost use Rattle.broad_grid.specs.NearPairs.{is_close};
ghost use Rattle.broad_grid.specs.Held.{loose_close_pairs_of};
ghost use Rattle.broad_grid.specs.Calls.Boxes.{HasBoth, has_close_boxes};

use crate::boxes::{BoxLists, box_lists};
use crate::list::PairList;
use crate::moving::loose_close_pairs;
use crate::near::append_where;
use boundary::{Pair, PairKind, Surface};
use space3::{BoundingBox, Places, V3};
use std::alloc::{AllocError, Global};
use std::marker::Model;

/// The most that a reach or a margin may be, in grid units: 2^10. So a reach and twice a margin are less than the
/// greatest gap that `box_grid` takes.
pub const KEPT_LIMIT: u32 = 1024;

/// Pairs of a surface's parts that were near each other where the nodes stood once. While no node is far from there,
/// those that are close are found among them.
#[derive(Drop)]
pub struct Kept {
    places: Places,
    fixed: Vec<bool>,
    reach: u32,
    margin: u32,
    pairs: PairList,
}

impl Model for Kept {
    ghost use Rattle.broad_grid.specs.Kept.{KeptPairs};

    ghost Value = { KeptPairs };

    ghost view = { λ k. record {
      places = k.places;
      fixed = k.fixed.items;
      reach = k.reach;
      margin = k.margin;
      pairs = k.pairs;
    } };
}

impl Kept {
    /// Keeps the pairs of a vertex and a triangle and those of two edges from which [`Kept::close`] finds those with a
    /// gap of at most `reach`, until a node has moved from `x` by more than `margin` along an axis. Both are in grid
    /// units, at most [`KEPT_LIMIT`]. Each vertex has a place. Pairs of which each node is fixed, by a flag for each node,
    /// are left out.
    pub fn open(
        alloc: Global,
        surface: &Surface,
        fixed: &[bool],
        x: &Places,
        reach: u32,
        margin: u32,
    ) -> Result<Self, AllocError>
        requires placed { HasNodes x.now surface.now.vertices }
        requires reach { reach ≤ KEPT_LIMIT }
        requires margin { margin ≤ KEPT_LIMIT }
        ensures places { IfOk result (λ kept. kept.places ≡ x.now) }
        ensures fixed { IfOk result (λ kept. kept.fixed ≡ fixed.now) }
        ensures reach { IfOk result (λ kept. kept.reach ≡ reach) }
        ensures margin { IfOk result (λ kept. kept.margin ≡ margin) }
        ensures whole { IfOk result (IsWhole surface.now) }
    {
        let places = x.copy(alloc)?;
        let pairs = loose_close_pairs(alloc, surface, fixed, x, reach + 2 * margin)?;
        let fixed = fixed.to_vec(alloc)?;
        Ok(Kept {
            places,
            fixed,
            reach,
            margin,
            pairs,
        })
    }

    /// The pairs whose parts' boxes at `x` have a gap of at most the reach along each axis, and of which some node isn't
    /// fixed: those of the kept ones where no node is farther than the margin from its kept place along an axis, else
    /// all of the surface's, in the order of [`close_pairs`]. There is a kept place for each place, and what is kept are
    /// pairs of the surface.
    pub fn close(
        &self,
        alloc: Global,
        surface: &Surface,
        x: &Places,
    ) -> Result<PairList, AllocError>
        requires reach { self.now.reach ≤ KEPT_LIMIT }
        requires margin { self.now.margin ≤ KEPT_LIMIT }
        requires each { length x.now ≡ length self.now.places }
        requires placed { HasNodes x.now surface.now.vertices }
        requires pairs { All (IsPair surface.now) self.now.pairs }
        ensures kept { let stayed = have_stayed self.now.margin self.now.places x.now in
            IfOk result (λ pairs. IsTrue stayed →
            pairs ≡ filter (is_close self.now.reach surface.now x.now) self.now.pairs) }
        ensures anew { let stayed = have_stayed self.now.margin self.now.places x.now in
            IfOk result (λ pairs. stayed ≡ false →
            pairs ≡ loose_close_pairs_of self.now.fixed self.now.reach surface.now x.now) }
        ensures whole { IfOk result (λ pairs. IsWhole surface.now self.now →
            pairs ≡ loose_close_pairs_of self.now.fixed self.now.reach surface.now x.now) }
    {
        if have_stayed(self.margin, &self.places, x) {
            close_among(alloc, surface, x, self.reach, self.pairs.items())
        } else {
            loose_close_pairs(alloc, surface, &self.fixed, x, self.reach)
        }
    }

    /// The kept places.
    pub fn places(&self) -> &Places
        ensures { result.now ≡ self.now.places }
    {
        &self.places
    }

    /// Whether no node at `x` is farther than the margin from its kept place along an axis, so that the close pairs are
    /// found among the kept ones.
    pub fn have_stayed(&self, x: &Places) -> bool
        ensures { result ≡ have_stayed self.now.margin self.now.places x.now }
    {
        have_stayed(self.margin, &self.places, x)
    }
}

// Whether no place differs from the kept one by more than the margin along an axis.
fn have_stayed(margin: u32, kept: &Places, x: &Places) -> bool
    ensures { result ≡ have_stayed margin kept.now x.now }
{
    kept.items()
        .iter()
        .zip(x.items())
        .all(|(p, q)| has_stayed(margin, *p, *q))
}

fn has_stayed(margin: u32, p: V3, q: V3) -> bool
    ensures { result ≡ has_stayed margin p q }
{
    differ_by_at_most(margin, p.x, q.x)
        & differ_by_at_most(margin, p.y, q.y)
        & differ_by_at_most(margin, p.z, q.z)
}

fn differ_by_at_most(margin: u32, a: i64, b: i64) -> bool
    ensures { result ≡ differ_by_at_most margin a b }
{
    a.abs_diff(b) <= u64::from(margin)
}

// Those of the pairs that are close.
fn close_among(
    alloc: Global,
    surface: &Surface,
    x: &Places,
    reach: u32,
    pairs: &[Pair],
) -> Result<PairList, AllocError>
    requires placed { HasNodes x.now surface.now.vertices }
    requires pairs { All (IsPair surface.now) pairs.now }
    ensures { IfOk result (λ close. close ≡ filter (is_close reach surface.now x.now) pairs.now) }
{
    let boxes = box_lists(alloc, surface, x, x)?;
    close_by_boxes(alloc, &boxes, reach, pairs)
}

// Those of the pairs that are close by these boxes.
fn close_by_boxes(
    alloc: Global,
    boxes: &BoxLists,
    reach: u32,
    pairs: &[Pair],
) -> Result<PairList, AllocError>
    requires { All (HasBoth boxes.now) pairs.now }
    ensures { IfOk result (λ close. close ≡ filter (has_close_boxes reach boxes.now) pairs.now) }
{
    let mut close = Vec::new(alloc);
    for pair in pairs {
        append_where(has_close_boxes(boxes, reach, *pair), *pair, &mut close)?;
    }
    Ok(PairList::of_vec(close))
}

// Whether a pair has a distance of its own, and the boxes of its parts are within the reach.
fn has_close_boxes(boxes: &BoxLists, reach: u32, pair: Pair) -> bool
    requires { HasBoth boxes.now pair }
    ensures { result ≡ has_close_boxes reach boxes.now pair }
{
    let a = pair.a as usize;
    let b = pair.b as usize;
    match pair.kind {
        PairKind::VT => are_close(reach, &boxes.vertices[a], &boxes.triangles[b]),
        PairKind::EE => are_close(reach, &boxes.edges[a], &boxes.edges[b]),
        PairKind::VE | PairKind::ET => false,
    }
}

// Whether the gap between two boxes is at most the reach along each axis. Their differences need no care: both are in the
// box of places.
pub(crate) fn are_close(reach: u32, a: &BoundingBox, b: &BoundingBox) -> bool
    requires first { LiesInTheBox a.now }
    requires second { LiesInTheBox b.now }
    ensures { result ≡ are_within reach a.now b.now }
{
    is_corner_close(reach, b.least, a.greatest) & is_corner_close(reach, a.least, b.greatest)
}

// Whether no component of `a` is greater than that of `b` by more than the reach.
fn is_corner_close(reach: u32, a: V3, b: V3) -> bool
    requires first { IsInTheBox a }
    requires second { IsInTheBox b }
    ensures { result ≡ (int_le (a.x -ℤ b.x) (pos reach) && int_le (a.y -ℤ b.y) (pos reach)
        && int_le (a.z -ℤ b.z) (pos reach)) }
{
    is_past_by_at_most(reach, a.x, b.x)
        & is_past_by_at_most(reach, a.y, b.y)
        & is_past_by_at_most(reach, a.z, b.z)
}

// Whether `a` is past `b` by at most the reach.
fn is_past_by_at_most(reach: u32, a: i64, b: i64) -> bool
    requires first { AtMost BOX_LIMIT a }
    requires second { AtMost BOX_LIMIT b }
    ensures { result ≡ int_le (a -ℤ b) (pos reach) }
{
    a - b <= i64::from(reach)
}
