//! The barriers between close parts of the surface.
ghost use Rattle.std.specs.Prelude.{◌≡◌, ◌≤◌, ◌<◌, ◌^◌, IfOk, IfNone, IfSome, All, map, length, unsigned_abs};
ghost use Rattle.list_laws.specs.Sums.{total};
ghost use Rattle.space3.specs.Box.{IsInTheBox};
ghost use Rattle.space3.specs.Vectors.{AtMost};
ghost use Rattle.vec_q.specs.Rows.{components};
ghost use Rattle.near_pair.specs.Answers.{IsBounded, IsOn};
ghost use Rattle.barrier_term.specs.Blocks.{barrier_block};
ghost use Rattle.boundary.specs.Pairs.{IsPair, part_pair};
ghost use Rattle.broad_grid.specs.NearPairs.{close_pairs_of};
ghost use Rattle.broad_grid.specs.Held.{loose_close_pairs_of};
ghost use Rattle.surface_mesh.specs.declared.materials.Numbers.{Numbers};
ghost use Rattle.surface_mesh.specs.Materials.{AreNumbers};
ghost use Rattle.surface_mesh.specs.Setup.{IsSetup};
ghost use Rattle.potential_sum.specs.Calls.Barriers.{AreFour, IsClosePair, MayPush, barrier_at};
ghost use Rattle.potential_sum.specs.Calls.Barriers.{barrier_of, parts_in};
ghost use Rattle.potential_sum.specs.Calls.Stiffness.{HasNoBlocks, sixteen_of};
ghost use Rattle.potential_sum.specs.Calls.Sums.{AreLight, pulls_of, with_parts};
ghost use Rattle.potential_sum.specs.Contributions.{barrier_contribution};
ghost use Rattle.potential_sum.specs.Contacts.{near_of_parts, points_of_parts};
ghost use Rattle.potential_sum.specs.declared.contacts.TheConstants.{MOST_CLOSE};
ghost use Rattle.potential_sum.specs.Terms.{AreNearPairs};
ghost use Rattle.potential_sum.specs.Upright.{IsUpright};

use crate::blocks::Block;
use crate::bodies::corners_at;
use crate::pulls::{Pull, add_pulls, pull_at};
use barrier_term::{barrier_blocks, barrier_energy, barrier_gradient};
use boundary::{Pair, Surface};
use broad_grid::{Kept, PairList, close_pairs};
use near_pair::{Near, near_parts};
use space3::{Places, V3, W3};
use std::alloc::{AllocError, Global};
use surface_mesh::{Numbers, Setup};

// Keeps the pairs among which those that are close are found while no node has moved by more than dhat.
pub(crate) fn keep_near_pairs(
    alloc: Global,
    setup: &Setup,
    now: &Places,
) -> Result<Kept, AllocError>
    requires built { IsSetup setup.now }
    requires pose { IsUpright setup.now now.now }
    ensures near { IfOk result (AreNearPairs setup.now) }
    ensures places { IfOk result (λ kept. kept.places ≡ now.now) }
{
    let dhat = setup.numbers.dhat as u32;
    Kept::open(alloc, &setup.surface, setup.fixed.items(), now, dhat, dhat)
}

// The pairs of parts whose boxes have a gap of at most dhat.
pub(crate) fn close_pairs_at(
    alloc: Global,
    setup: &Setup,
    x: &Places,
) -> Result<PairList, AllocError>
    requires built { IsSetup setup.now }
    requires pose { IsUpright setup.now x.now }
    ensures { IfOk result (λ pairs. pairs ≡
        close_pairs_of (unsigned_abs setup.now.numbers.dhat) setup.now.surface x.now) }
{
    close_pairs(alloc, &setup.surface, x, setup.numbers.dhat as u32)
}

// The pairs of parts whose boxes have a gap of at most dhat, without those of which each node is fixed.
pub(crate) fn loose_pairs_at(
    alloc: Global,
    setup: &Setup,
    kept: &Kept,
    x: &Places,
) -> Result<PairList, AllocError>
    requires built { IsSetup setup.now }
    requires kept { AreNearPairs setup.now kept.now }
    requires pose { IsUpright setup.now x.now }
    ensures { IfOk result (λ pairs. pairs ≡
        loose_close_pairs_of setup.now.fixed (unsigned_abs setup.now.numbers.dhat) setup.now.surface x.now) }
{
    kept.close(alloc, &setup.surface, x)
}

/// The nodes of two parts, those of the first part first, of which there are `split`.
#[derive(Clone, Copy)]
pub(crate) struct TwoParts {
    pub nodes: [u32; 4],
    pub split: u8,
}

// The nodes of a pair's parts.
pub(crate) fn parts_of(surface: &Surface, pair: Pair) -> TwoParts
    requires pair { IsPair surface.now pair }
    requires four { AreFour (part_pair surface.now pair) }
    ensures { parts_in result ≡ part_pair surface.now pair }
{
    let first = surface.first_nodes(pair);
    let second = surface.second_nodes(pair);
    if first.len() == 1 {
        TwoParts {
            nodes: [first[0], second[0], second[1], second[2]],
            split: 1,
        }
    } else {
        TwoParts {
            nodes: [first[0], first[1], second[0], second[1]],
            split: 2,
        }
    }
}

/// Where the four nodes of two parts stand, and the nearest points of the parts.
#[derive(Clone, Copy)]
pub(crate) struct Nearest {
    pub points: [V3; 4],
    pub near: Near,
}

impl TwoParts {
    // The nearest points where the nodes stand at x.
    pub(crate) fn nearest(&self, x: &Places) -> Nearest
        requires { MayPush x.now (parts_in self.now) }
        ensures points { result.points ≡ points_of_parts x.now (parts_in self.now) }
        ensures near { result.near ≡ near_of_parts x.now (parts_in self.now) }
        ensures placed { All IsInTheBox result.points }
        ensures barrier { (numbers : Numbers) →
            barrier_of numbers self.now.nodes self.now.split result.points result.near
            ≡ barrier_contribution numbers x.now (parts_in self.now) }
        ensures bounded { IsBounded result.near }
        ensures on { IsOn self.now.split result.points result.near }
    {
        let points = corners_at(x, &self.nodes);
        let near = near_parts(self.split, &points);
        Nearest { points, near }
    }

    // The energy of the barrier where the nodes stand at x.
    fn energy(&self, numbers: &Numbers, x: &Places) -> i128
        requires numbers { AreNumbers numbers.now }
        requires close { MayPush x.now (parts_in self.now) }
        ensures { result ≡ (barrier_contribution numbers.now x.now (parts_in self.now)).energy }
    {
        let found = self.nearest(x);
        barrier_energy(numbers.kappa, numbers.dhat, &found.near)
    }

    // What pulls at the four nodes.
    fn pulls(&self, numbers: &Numbers, x: &Places) -> [Pull; 4]
        requires numbers { AreNumbers numbers.now }
        requires close { MayPush x.now (parts_in self.now) }
        ensures { result ≡ pulls_of
            (barrier_contribution numbers.now x.now (parts_in self.now)) }
    {
        let Nearest { points, near } = self.nearest(x);
        let pulls = barrier_gradient(numbers.kappa, numbers.dhat, &near, self.split, &points);
        [
            pull_at(self.nodes[0], pulls[0]),
            pull_at(self.nodes[1], pulls[1]),
            pull_at(self.nodes[2], pulls[2]),
            pull_at(self.nodes[3], pulls[3]),
        ]
    }

    // The blocks of the four nodes, or none where each is 0.
    pub(crate) fn blocks(&self, numbers: &Numbers, x: &Places) -> Option<[[Block; 4]; 4]>
        requires numbers { AreNumbers numbers.now }
        requires close { MayPush x.now (parts_in self.now) }
        ensures some { IfSome result (λ blocks.
            blocks ≡ sixteen_of (barrier_contribution numbers.now x.now (parts_in self.now))) }
        ensures none { IfNone result
            (HasNoBlocks (barrier_contribution numbers.now x.now (parts_in self.now))) }
    {
        let Nearest { points, near } = self.nearest(x);
        barrier_blocks(numbers.kappa, numbers.dhat, &near, self.split, &points)
    }
}

// The energies of the barriers of these pairs.
pub(crate) fn barrier_energy_of(setup: &Setup, x: &Places, pairs: &[Pair]) -> i128
    requires numbers { AreNumbers setup.now.numbers }
    requires close { All (IsClosePair setup.now x.now) pairs.now }
    requires few { length pairs.now ≤ MOST_CLOSE }
    ensures value { result ≡ total (map (λ pair. (barrier_at setup.now x.now pair).energy) pairs.now) }
    ensures small { AtMost (2 ^ 123) result }
{
    let mut sum = 0;
    for pair in pairs {
        sum += parts_of(&setup.surface, *pair).energy(&setup.numbers, x);
    }
    sum
}

// Adds what the barriers of these pairs give at each node.
pub(crate) fn add_barrier_pulls(sums: &mut [W3], setup: &Setup, x: &Places, pairs: &[Pair])
    requires nodes { length sums.old ≡ length x.now }
    requires numbers { AreNumbers setup.now.numbers }
    requires close { All (IsClosePair setup.now x.now) pairs.now }
    requires few { length pairs.now ≤ MOST_CLOSE }
    requires light { AreLight (2 ^ 120) sums.old }
    ensures sums { sums.new ≡ with_parts sums.old
        (map (barrier_at setup.now x.now) pairs.now) }
    ensures light { AreLight (2 ^ 125) sums.new }
{
    for pair in pairs {
        let parts = parts_of(&setup.surface, *pair);
        add_pulls(sums, &parts.pulls(&setup.numbers, x));
    }
}
