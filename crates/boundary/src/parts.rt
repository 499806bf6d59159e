//! The two parts of a pair, with their corners.
ghost use Rattle.std.specs.Prelude.{◌≡◌, ◌≤◌, All, length, map};
ghost use Rattle.space3.specs.Box.{IsInTheBox};
ghost use Rattle.space3.specs.Mesh.{HasNodes, place_of};
ghost use Rattle.space3.specs.Spots.{StaysInTheBox, points};
ghost use Rattle.space3.specs.declared.spots.TheConstants.{SPOT_LIMIT};
ghost use Rattle.boundary.specs.Pairs.{IsPair, part_pair};
ghost use Rattle.boundary.specs.PartPlaces.{HavePlaces};

use crate::pairs::{Pair, first_part, second_part};
use crate::surface::Surface;
use space3::{Part, Places, Spot, V3};

/// The parts of a pair, each at the start and at the end of a motion.
#[derive(Clone, Copy, Debug, PartialEq, Eq)]
pub struct PairParts {
    pub a: Part,
    pub b: Part,
}

impl Surface {
    /// The parts of a pair, where the nodes stand at these places at the start and at the end. The corners of a part
    /// are the places of its nodes. The first part has one or two.
    pub fn parts(&self, x0: &Places, x1: &Places, pair: Pair) -> PairParts
        requires pair { IsPair self.now pair }
        requires start { HasNodes x0.now self.now.vertices }
        requires end { HasNodes x1.now self.now.vertices }
        ensures places { HavePlaces x0.now x1.now (part_pair self.now pair) result }
        ensures few { result.a.start.count ≤ 2 }
        ensures first_in_box { StaysInTheBox result.a }
        ensures second_in_box { StaysInTheBox result.b }
    {
        let a = first_part(self, pair.kind, pair.a as usize);
        let b = second_part(self, pair.kind, pair.b as usize);
        PairParts {
            a: part_at(x0, x1, a),
            b: part_at(x0, x1, b),
        }
    }
}

// The part of these nodes.
fn part_at(x0: &Places, x1: &Places, nodes: &[u32]) -> Part
    requires some { 1 ≤ length nodes.now }
    requires few { length nodes.now ≤ SPOT_LIMIT }
    requires at_start { HasNodes x0.now nodes.now }
    requires at_end { HasNodes x1.now nodes.now }
    ensures start { points result.start ≡ map (place_of x0.now) nodes.now }
    ensures end { points result.end ≡ map (place_of x1.now) nodes.now }
    ensures count { result.start.count ≡ length nodes.now }
    ensures in_box { StaysInTheBox result }
{
    Part {
        start: spot_at(x0, nodes),
        end: spot_at(x1, nodes),
    }
}

// The places of these nodes.
fn spot_at(places: &Places, nodes: &[u32]) -> Spot
    requires some { 1 ≤ length nodes.now }
    requires few { length nodes.now ≤ SPOT_LIMIT }
    requires placed { HasNodes places.now nodes.now }
    ensures count { result.count ≡ length nodes.now }
    ensures points { points result ≡ map (place_of places.now) nodes.now }
    ensures in_box { All IsInTheBox (points result) }
{
    let mut at = [V3 { x: 0, y: 0, z: 0 }; 4];
    for (k, node) in nodes.iter().enumerate() {
        at[k] = places.get(*node);
    }
    Spot {
        count: nodes.len() as u8,
        at,
    }
}
