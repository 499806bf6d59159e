//! Targets, and the inertia of all nodes.
ghost use Rattle.std.specs.Prelude.{◌≡◌, ◌<◌, ◌≤◌, ◌^◌, pos, IfOk, All, map, length, slice_index_or, [], ◌∷◌};
ghost use Rattle.std.specs.List.{range_with_len};
ghost use Rattle.list_laws.specs.Sums.{total};
ghost use Rattle.whole_laws.specs.Ranges.{IsFrom};
ghost use Rattle.space3.specs.Vectors.{AtMost, Within};
ghost use Rattle.space3.specs.Mesh.{place_of};
ghost use Rattle.surface_mesh.specs.declared.ranges.TheConstants.{FARTHEST_BEFORE, MOST_GRAVITY};
ghost use Rattle.surface_mesh.specs.declared.sturdy.TheConstants.{MOST_MASS};
ghost use Rattle.inertia_term.specs.declared.target.TheConstants.{FARTHEST_TARGET};
ghost use Rattle.potential_sum.specs.Calls.Inertia.{AreMovers, energy_at, part_at, pull_of};
ghost use Rattle.potential_sum.specs.Calls.Sums.{AreLight, as_pull, pulls_of, with_parts};
ghost use Rattle.inertia_term.specs.Inertia.{inertia_block};
ghost use Rattle.potential_sum.specs.Terms.{targets_of};

use crate::pulls::{Pull, add_pulls, pull_at};
use inertia_term::{inertia_block, inertia_energy, inertia_gradient, target_of};
use space3::{Places, V3, W3};
use std::alloc::{AllocError, Global};

// The targets, one per node.
pub(crate) fn targets_of(
    alloc: Global,
    gravity: V3,
    now: &Places,
    before: &[V3],
) -> Result<Vec<V3>, AllocError>
    requires gravity { Within MOST_GRAVITY gravity }
    requires as_many { length before.now ≡ length now.now }
    requires before { All (Within FARTHEST_BEFORE) before.now }
    ensures targets { IfOk result (λ made. made.items ≡ targets_of gravity now.now before.now) }
    ensures near { IfOk result (λ made. All (Within FARTHEST_TARGET) made.items) }
{
    let mut made = Vec::with_capacity(alloc, before.len())?;
    for node in 0..now.len() {
        made.push(target_of(gravity, now.get(node), before[node as usize]))?;
    }
    Ok(made)
}

// The energy of inertia of all nodes.
pub(crate) fn inertia_energy_of(masses: &[i128], targets: &[V3], x: &Places) -> i128
    requires nodes { AreMovers masses.now targets.now x.now }
    requires few { length x.now ≤ 16384 }
    ensures value { result ≡
        total (map (energy_at masses.now targets.now x.now) (range_with_len 0 (length x.now))) }
    ensures small { AtMost (2 ^ 104) result }
{
    let mut sum = 0;
    for node in 0..x.len() {
        sum += node_energy(masses, targets, x, node);
    }
    sum
}

// The energy of inertia at a node.
fn node_energy(masses: &[i128], targets: &[V3], x: &Places, node: u32) -> i128
    requires nodes { AreMovers masses.now targets.now x.now }
    requires there { node < length x.now }
    ensures { result ≡ energy_at masses.now targets.now x.now node }
{
    let i = node as usize;
    inertia_energy(mass_of(masses, i), x.get(node), target_at(targets, i))
}

// Adds what inertia gives at each node.
pub(crate) fn add_inertia_pulls(sums: &mut [W3], masses: &[i128], targets: &[V3], x: &Places)
    requires nodes { AreMovers masses.now targets.now x.now }
    requires each { length sums.old ≡ length x.now }
    requires few { length x.now ≤ 16384 }
    requires small { AreLight (2 ^ 118) sums.old }
    ensures { sums.new ≡ with_parts sums.old
        (map (part_at masses.now targets.now x.now) (range_with_len 0 (length x.now))) }
{
    for node in 0..x.len() {
        add_pulls(sums, &[node_pull(masses, targets, x, node)]);
    }
}

// What inertia pulls with at a node.
fn node_pull(masses: &[i128], targets: &[V3], x: &Places, node: u32) -> Pull
    requires nodes { AreMovers masses.now targets.now x.now }
    requires there { node < length x.now }
    ensures { result ≡ as_pull (node, pull_of masses.now targets.now x.now node) }
{
    let i = node as usize;
    let mass = mass_of(masses, i);
    pull_at(
        node,
        inertia_gradient(mass, x.get(node), target_at(targets, i)),
    )
}

fn mass_of(masses: &[i128], node: usize) -> i128
    requires there { node < length masses.now }
    requires masses { All (IsFrom (pos 0) MOST_MASS) masses.now }
    ensures value { result ≡ slice_index_or masses.now node (pos 0) }
    ensures in_range { IsFrom (pos 0) MOST_MASS result }
{
    masses[node]
}

fn target_at(targets: &[V3], node: usize) -> V3
    requires there { node < length targets.now }
    requires targets { All (Within FARTHEST_TARGET) targets.now }
    ensures value { result ≡ place_of targets.now node }
    ensures bound { Within FARTHEST_TARGET result }
{
    targets[node]
}
