//! The pairs of parts of a surface that must not meet, one after another.
ghost use Rattle.std.specs.Prelude.{drop, ◌≡◌, ◌+◌, ◌<◌, ◌≤◌, ◌^◌, ◌++◌, List, length, slice_get, slice_index_or, IfSome, []};
ghost use Rattle.std.specs.List.{flat_map};
ghost use Rattle.boundary.specs.Calls.Parts.{IsPart};
ghost use Rattle.boundary.specs.Calls.PairWalk.{pairs_after, row_from, rows_from};
ghost use Rattle.boundary.specs.Pairs.{Follows, IsPair, counts, first_parts, has_node, is_in_order, kinds, pair_of, pair_order, part_pair, pairs_of, pairs_of_kind, rank, second_parts, share_node};
ghost use Rattle.boundary.specs.SortedLists.{IsSortedListOf};
ghost use Rattle.boundary.specs.Surface.{SurfaceLists};
ghost use Rattle.safe_motion.specs.Safety.{PartPair};

use crate::surface::Surface;
use std::slice::from_ref;

/// Which parts a pair has: vertex and edge, vertex and triangle, two edges, edge and triangle.
#[derive(Clone, Copy, Debug, PartialEq, Eq)]
pub enum PairKind {
    VE,
    VT,
    EE,
    ET,
}

/// Two parts of a surface, by their positions in its lists.
#[derive(Clone, Copy, Debug, PartialEq, Eq)]
pub struct Pair {
    pub kind: PairKind,
    pub a: u32,
    pub b: u32,
}

/// The kinds in their order.
pub const KINDS: [PairKind; 4] = [PairKind::VE, PairKind::VT, PairKind::EE, PairKind::ET];

impl Surface {
    /// The pair that stands after this one in the pair order, or the first pair where none is given; None where no
    /// pair follows.
    pub fn next_pair(&self, after: Option<Pair>) -> Option<Pair>
        requires { IfSome after (IsPair self.now) }
        ensures next { Follows (pairs_of self.now) after result }
        ensures pair { IfSome result (IsPair self.now) }
    {
        match after {
            None => first_of_kinds(self, &KINDS),
            Some(pair) => first_after(self, pair),
        }
    }

    /// The nodes of a pair's first part, as the surface's list has them.
    pub fn first_nodes(&self, pair: Pair) -> &[u32]
        requires { IsPair self.now pair }
        ensures { result.now ≡ (part_pair self.now pair).left }
    {
        first_part(self, pair.kind, pair.a as usize)
    }

    /// The nodes of a pair's second part, as the surface's list has them.
    pub fn second_nodes(&self, pair: Pair) -> &[u32]
        requires { IsPair self.now pair }
        ensures { result.now ≡ (part_pair self.now pair).right }
    {
        second_part(self, pair.kind, pair.b as usize)
    }

    /// Whether two parts of a kind, by their positions, are a pair that must not meet: they have no common node, and of
    /// two edges the lower one is first.
    pub fn counts(&self, kind: PairKind, a: usize, b: usize) -> bool
        requires first { a < length (first_parts self.now kind) }
        requires second { b < length (second_parts self.now kind) }
        ensures { result ≡ counts self.now (pair_of kind a b) }
    {
        is_in_order(kind, a, b) & !share_node(first_part(self, kind, a), second_part(self, kind, b))
    }
}

// The first pair after this one.
fn first_after(surface: &Surface, pair: Pair) -> Option<Pair>
    requires { IsPair surface.now pair }
    ensures { result ≡ slice_get (pairs_after surface.now pair) 0 }
{
    if let Some(next) = first_in_row(surface, pair.kind, pair.a, pair.b as usize + 1) {
        return Some(next);
    }
    if let Some(next) = first_in_rows(surface, pair.kind, pair.a as usize + 1) {
        return Some(next);
    }
    first_of_kinds(surface, later_kinds(pair.kind))
}

fn later_kinds(kind: PairKind) -> &'static [PairKind]
    ensures { result.now ≡ drop (rank kind + 1) kinds }
{
    &KINDS[kind as usize + 1..]
}

// The first pair of these kinds.
fn first_of_kinds(surface: &Surface, kinds: &[PairKind]) -> Option<Pair>
    ensures { result ≡ slice_get (flat_map (pairs_of_kind surface.now) kinds.now) 0 }
{
    for kind in kinds {
        if let Some(pair) = first_in_rows(surface, *kind, 0) {
            return Some(pair);
        }
    }
    None
}

// The first pair of a kind from the first part `from` on.
fn first_in_rows(surface: &Surface, kind: PairKind, from: usize) -> Option<Pair>
    ensures { result ≡ slice_get (rows_from surface.now kind from) 0 }
{
    for a in from..first_count(surface, kind) {
        if let Some(pair) = first_in_row(surface, kind, a as u32, 0) {
            return Some(pair);
        }
    }
    None
}

// The first pair of a kind with this first part, from the second part `from` on.
fn first_in_row(surface: &Surface, kind: PairKind, a: u32, from: usize) -> Option<Pair>
    requires { a < length (first_parts surface.now kind) }
    ensures { result ≡ slice_get (row_from surface.now kind a from) 0 }
{
    for b in from..second_count(surface, kind) {
        if surface.counts(kind, a as usize, b) {
            return Some(Pair {
                kind,
                a,
                b: b as u32,
            });
        }
    }
    None
}

fn is_in_order(kind: PairKind, a: usize, b: usize) -> bool
    ensures { result ≡ is_in_order kind a b }
{
    match kind {
        PairKind::VE | PairKind::VT | PairKind::ET => true,
        PairKind::EE => a < b,
    }
}

/// Whether two parts have a common node.
pub fn share_node(left: &[u32], right: &[u32]) -> bool
    ensures { result ≡ share_node (record { left = left.now; right = right.now }) }
{
    left.iter().any(|x| has_node(right, *x))
}

fn has_node(nodes: &[u32], x: u32) -> bool
    ensures { result ≡ has_node nodes.now x }
{
    nodes.iter().any(|y| x == *y)
}

fn first_count(surface: &Surface, kind: PairKind) -> usize
    ensures count { result ≡ length (first_parts surface.now kind) }
    ensures few { result < 2 ^ 32 }
{
    match kind {
        PairKind::VE | PairKind::VT => surface.vertices().len(),
        PairKind::EE | PairKind::ET => surface.edges().len(),
    }
}

fn second_count(surface: &Surface, kind: PairKind) -> usize
    ensures count { result ≡ length (second_parts surface.now kind) }
    ensures few { result < 2 ^ 32 }
{
    match kind {
        PairKind::VE | PairKind::EE => surface.edges().len(),
        PairKind::VT | PairKind::ET => surface.triangles().len(),
    }
}

// The nodes of a pair's first part: one or two.
pub(crate) fn first_part(surface: &Surface, kind: PairKind, a: usize) -> &[u32]
    requires { a < length (first_parts surface.now kind) }
    ensures nodes { result.now ≡ slice_index_or (first_parts surface.now kind) a [] }
    ensures few { length result.now ≤ 2 }
    ensures part { IsPart surface.now result.now }
{
    match kind {
        PairKind::VE | PairKind::VT => from_ref(&surface.vertices()[a]),
        PairKind::EE | PairKind::ET => &surface.edges()[a],
    }
}

// The nodes of a pair's second part.
pub(crate) fn second_part(surface: &Surface, kind: PairKind, b: usize) -> &[u32]
    requires { b < length (second_parts surface.now kind) }
    ensures nodes { result.now ≡ slice_index_or (second_parts surface.now kind) b [] }
    ensures part { IsPart surface.now result.now }
{
    match kind {
        PairKind::VE | PairKind::EE => &surface.edges()[b],
        PairKind::VT | PairKind::ET => &surface.triangles()[b],
    }
}

/// Law: the pair order is the strictly sorted list, by kind, first part and second part, of exactly the pairs. So no
/// pair stands in it twice.
pub fn pairs_stand_in_order()
    ensures { (s : SurfaceLists) → IsSortedListOf pair_order (IsPair s) (pairs_of s) }
{}
