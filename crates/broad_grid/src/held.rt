//! Nodes that can't move, and pairs of parts of which some node can.
ghost use Rattle.std.specs.Prelude.{◌≡◌, IfOk, All, false, filter, slice_index_or};
ghost use Rattle.boundary.specs.Pairs.{IsPair};
ghost use Rattle.broad_grid.specs.Held.{are_held, is_loose};

use crate::list::PairList;
use crate::near::append_where;
use boundary::{Pair, Surface};
use std::alloc::{AllocError, Global};

// Those of the pairs of which some node isn't fixed.
pub(crate) fn loose_among(
    alloc: Global,
    surface: &Surface,
    fixed: &[bool],
    pairs: &[Pair],
) -> Result<PairList, AllocError>
    requires { All (IsPair surface.now) pairs.now }
    ensures { IfOk result (λ loose. loose ≡ filter (is_loose fixed.now surface.now) pairs.now) }
{
    let mut loose = Vec::new(alloc);
    for pair in pairs {
        append_where(is_loose(surface, fixed, *pair), *pair, &mut loose)?;
    }
    Ok(PairList::of_vec(loose))
}

/// Whether some node of a pair's parts isn't fixed, by a flag for each node.
pub fn is_loose(surface: &Surface, fixed: &[bool], pair: Pair) -> bool
    requires { IsPair surface.now pair }
    ensures { result ≡ is_loose fixed.now surface.now pair }
{
    let first = are_held(fixed, surface.first_nodes(pair));
    let second = are_held(fixed, surface.second_nodes(pair));
    !(first & second)
}

/// Whether each of these nodes is fixed, by a flag for each node. One without a flag isn't.
pub fn are_held(fixed: &[bool], nodes: &[u32]) -> bool
    ensures { result ≡ are_held fixed.now nodes.now }
{
    nodes.iter().all(|node| is_fixed(fixed, *node))
}

fn is_fixed(fixed: &[bool], node: u32) -> bool
    ensures { result ≡ slice_index_or fixed.now node false }
{
    match fixed.get(node as usize) {
        Some(flag) => *flag,
        None => false,
    }
}
