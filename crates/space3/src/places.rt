//! Places in the box.
ghost use Rattle.std.specs.Prelude.{◌≡◌, ◌-◌, ◌^◌, ◌≤◌, ◌<◌, ◌↔◌, IfOk, IfSome, IsSome, MatchOption, length, slice_get, Some, List, All, IsTrue};
ghost use Rattle.space3.specs.Vectors.{AtMost, Within, sum_of};
ghost use Rattle.space3.specs.Box.{IsInTheBox};
ghost use Rattle.space3.specs.Moved.{halved, moved_by};

use crate::vectors::V3;
use crate::ways::{DIRECTION_LIMIT, HALVING_LIMIT, halved, sum_of};
use std::alloc::{AllocError, Global};
use std::marker::Model;

/// The greatest absolute value of a place's component, in grid units: 2^20. So an edge has at most 21 bits and a
/// sign, and a place at the finest scale fits 29 bits.
pub const BOX_LIMIT: u32 = 1_048_576;

/// Places of nodes in the box, in grid units.
#[derive(Drop)]
pub struct Places {
    list: Vec<V3>,
}

impl Model for Places {
    ghost use Rattle.std.specs.Prelude.{List};
    ghost use Rattle.space3.specs.declared.vectors.V3.{V3};
    ghost use Rattle.space3.specs.Box.{ArePlaces};

    ghost Value = { List V3 };

    ghost view = { λ p. p.list.items };

    ghost invariant = { λ p. ArePlaces p.list.items };
}

impl Places {
    /// How many places there are.
    pub fn len(&self) -> u32
        ensures { result ≡ length self.now }
    {
        self.list.len() as u32
    }

    /// The place of a node, by its position in the list.
    pub fn get(&self, i: u32) -> V3
        requires { i < length self.now }
        ensures place { slice_get self.now i ≡ Some result }
        ensures in_box { IsInTheBox result }
    {
        self.list[i as usize]
    }

    /// These places, or None exactly where a component leaves the box.
    pub fn of_list(alloc: Global, list: &[V3]) -> Result<Option<Self>, AllocError>
        requires { length list.now < 2 ^ 32 }
        ensures places { IfOk result (λ made. IfSome made (λ p. p ≡ list.now)) }
        ensures in_box { IfOk result (λ made. IsSome made ↔ All IsInTheBox list.now) }
    {
        if !are_in_box(list) {
            return Ok(None);
        }
        let list = Vec::from_slice(alloc, list)?;
        Ok(Some(Places { list }))
    }

    /// The places, in order, each in the box.
    pub fn items(&self) -> &[V3]
        ensures places { result.now ≡ self.now }
        ensures in_box { All IsInTheBox result.now }
    {
        self.list.as_slice()
    }

    /// The same places in a list of their own.
    pub fn copy(&self, alloc: Global) -> Result<Self, AllocError>
        ensures { IfOk result (λ p. p ≡ self.now) }
    {
        let list = Vec::from_slice(alloc, &self.list)?;
        Ok(Places { list })
    }

    /// These places after a move along their directions, which are divided by 2 so many times, at most
    /// [`HALVING_LIMIT`], and cut towards zero; None exactly where a component leaves the box. There is one direction
    /// for each place, in grid units, with components of at most [`DIRECTION_LIMIT`] in absolute value. It asks for
    /// memory once.
    pub fn moved(&self, alloc: Global, dir: &[V3], half: u8) -> Result<Option<Self>, AllocError>
        requires as_many { length dir.now ≡ length self.now }
        requires directions { All (Within DIRECTION_LIMIT) dir.now }
        requires half { half ≤ HALVING_LIMIT }
        ensures places { let moved = moved_by self.now dir.now half in
            IfOk result (λ made. IfSome made (λ p. p ≡ moved)) }
        ensures in_box { let moved = moved_by self.now dir.now half in
            IfOk result (λ made. IsSome made ↔ All IsInTheBox moved) }
    {
        let list = moved_places(alloc, &self.list, dir, half)?;
        if are_in_box(&list) {
            Ok(Some(Places { list }))
        } else {
            Ok(None)
        }
    }
}

fn are_in_box(list: &[V3]) -> bool
    ensures { IsTrue result ↔ All IsInTheBox list.now }
{
    list.iter().all(|place| is_in_box(*place))
}

fn is_in_box(place: V3) -> bool
    ensures { IsTrue result ↔ IsInTheBox place }
{
    is_in_limit(place.x) && is_in_limit(place.y) && is_in_limit(place.z)
}

fn is_in_limit(a: i64) -> bool
    ensures { IsTrue result ↔ AtMost BOX_LIMIT a }
{
    a.unsigned_abs() <= u64::from(BOX_LIMIT)
}

// The places after a move along the directions, which are halved so many times.
fn moved_places(alloc: Global, places: &[V3], dir: &[V3], half: u8) -> Result<Vec<V3>, AllocError>
    requires as_many { length dir.now ≡ length places.now }
    requires places { All IsInTheBox places.now }
    requires directions { All (Within DIRECTION_LIMIT) dir.now }
    requires half { half ≤ HALVING_LIMIT }
    ensures { IfOk result (λ made. made.items ≡ moved_by places.now dir.now half) }
{
    let mut made = Vec::with_capacity(alloc, places.len())?;
    for (i, place) in places.iter().enumerate() {
        made.push(moved_place(*place, dir[i], half))?;
    }
    Ok(made)
}

// The place after a move along the direction, which is halved so many times.
fn moved_place(place: V3, dir: V3, half: u8) -> V3
    requires place { IsInTheBox place }
    requires direction { Within DIRECTION_LIMIT dir }
    requires half { half ≤ HALVING_LIMIT }
    ensures { result ≡ sum_of place (halved half dir) }
{
    sum_of(place, halved(dir, half))
}
