//! The order in which tetrahedra are gone through.
ghost use Rattle.std.specs.Prelude.{◌≡◌, ◌<◌, ◌≤◌, IfOk, All, length, map};
ghost use Rattle.std.specs.List.Sorted.{IsPermutation};
ghost use Rattle.space3.specs.declared.lists.Tet.{Tet};
ghost use Rattle.space3.specs.Mesh.{HasNodes};
ghost use Rattle.potential_sum.specs.Calls.Turns.{is_held_as, positions_of};

use broad_grid::are_held;
use space3::{Places, Tet, V3};
use std::alloc::{AllocError, Global};

/// A tetrahedron, by its position, and how far along the curve its first corner is.
#[derive(Clone, Copy)]
pub(crate) struct Turn {
    pub along: u64,
    pub tet: u32,
}

// The tetrahedra of which each node is fixed, where `held`, or else those of which some node isn't, in the order of
// Morton's curve through space (G. M. Morton, 1966), so that in memory what one adds to is near what the next does,
// however the nodes are numbered.
pub(crate) fn turns_of(
    alloc: Global,
    places: &Places,
    tets: &[Tet],
    fixed: &[bool],
    held: bool,
) -> Result<Vec<Turn>, AllocError>
    requires few { length tets.now ≤ 65536 }
    requires there { All (λ tet. HasNodes places.now tet.nodes) tets.now }
    ensures each { IfOk result (λ turns. (d : Tet) →
        IsPermutation (positions_of held fixed.now tets.now d) (map (λ turn. turn.tet) turns.items)) }
    ensures there { IfOk result (λ turns. All (λ turn. turn.tet < length tets.now) turns.items) }
{
    let mut turns = turns_in_order(alloc, places, tets, fixed, held)?;
    sort_along(&mut turns);
    Ok(turns)
}

// These tetrahedra in the order of their list.
fn turns_in_order(
    alloc: Global,
    places: &Places,
    tets: &[Tet],
    fixed: &[bool],
    held: bool,
) -> Result<Vec<Turn>, AllocError>
    requires few { length tets.now ≤ 65536 }
    requires there { All (λ tet. HasNodes places.now tet.nodes) tets.now }
    ensures { IfOk result (λ turns. (d : Tet) →
        map (λ turn. turn.tet) turns.items ≡ positions_of held fixed.now tets.now d) }
{
    let mut turns = Vec::new(alloc);
    for position in 0..tets.len() {
        let nodes = &tets[position].nodes;
        if is_held_as(held, fixed, nodes) {
            turns.push(Turn {
                along: along_curve(first_corner(places, nodes)),
                tet: position as u32,
            })?;
        }
    }
    Ok(turns)
}

// Whether each of these nodes is fixed, where `held`, or else whether some isn't.
fn is_held_as(held: bool, fixed: &[bool], nodes: &[u32; 4]) -> bool
    ensures { result ≡ is_held_as held fixed.now nodes.now }
{
    are_held(fixed, nodes) == held
}

fn first_corner(places: &Places, nodes: &[u32; 4]) -> V3
    requires { HasNodes places.now nodes.now }
{
    places.get(nodes[0])
}

// How far along Morton's curve a place is: the bits of its components in turn, the highest first.
fn along_curve(v: V3) -> u64 {
    spread(v.x) | (spread(v.y) << 1) | (spread(v.z) << 2)
}

// The lowest 21 bits of a component that is moved to be positive, each two bits behind the next.
fn spread(v: i64) -> u64 {
    let one = v.saturating_add(1_048_576).max(0) as u64 & 0x1f_ffff;
    let two = (one | (one << 32)) & 0x001f_0000_0000_ffff;
    let four = (two | (two << 16)) & 0x001f_0000_ff00_00ff;
    let eight = (four | (four << 8)) & 0x100f_00f0_0f00_f00f;
    let sixteen = (eight | (eight << 4)) & 0x10c3_0c30_c30c_30c3;
    (sixteen | (sixteen << 2)) & 0x1249_2492_4924_9249
}

fn sort_along(turns: &mut Vec<Turn>)
    ensures { IsPermutation turns.old.items turns.new.items }
{
    turns.sort_unstable_by_key(|turn| turn.along);
}
