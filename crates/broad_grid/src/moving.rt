//! The pairs that are near and of which some node moves, or isn't fixed, found near the box of all parts of which one
//! does, or isn't.
ghost use Rattle.std.specs.Prelude.{◌≡◌, ◌≤◌, ◌∷◌, [], IfOk, IfSome, All, map};
ghost use Rattle.space3.specs.Mesh.{HasNodes};
ghost use Rattle.box_grid.specs.Near.{LiesInTheBox};
ghost use Rattle.box_grid.specs.declared.limits.TheConstants.{REACH_LIMIT};
ghost use Rattle.broad_grid.specs.Held.{loose_close_pairs_of};
ghost use Rattle.broad_grid.specs.Calls.Boxes.{IsPlaced};
ghost use Rattle.broad_grid.specs.Calls.LooseBox.{grown, grown_by, loose_box};
ghost use Rattle.broad_grid.specs.Moving.{is_same, moving_pairs_of, still_nodes};

use crate::boxes::swept_box;
use crate::held::{are_held, loose_among};
use crate::list::PairList;
use crate::near::{BoxTests, near_pairs};
use crate::pairs::CLOSE_KINDS;
use boundary::{KINDS, Surface};
use space3::{BoundingBox, Places, V3, box_around};
use std::alloc::{AllocError, Global};
use std::slice::from_ref;

/// The pairs of [`crate::swept_pairs`] of which some node moves, in the pair order. Each vertex has a place in both lists.
pub fn moving_pairs(
    alloc: Global,
    surface: &Surface,
    x0: &Places,
    x1: &Places,
) -> Result<PairList, AllocError>
    requires start { HasNodes x0.now surface.now.vertices }
    requires end { HasNodes x1.now surface.now.vertices }
    ensures { IfOk result (λ pairs. pairs ≡ moving_pairs_of surface.now x0.now x1.now) }
{
    let still = still_nodes(alloc, x0, x1)?;
    let around = loose_box(surface, x0, x1, still.as_slice());
    let mut tests = BoxTests { n: 0 };
    let near = near_pairs(alloc, surface, x0, x1, &KINDS, 0, around, &mut tests)?;
    loose_among(alloc, surface, still.as_slice(), near.items())
}

// For each node whether it ends where it starts.
fn still_nodes(alloc: Global, x0: &Places, x1: &Places) -> Result<Vec<bool>, AllocError>
    ensures { IfOk result (λ still. still.items ≡ still_nodes x0.now x1.now) }
{
    x0.items()
        .iter()
        .zip(x1.items())
        .map(|(p, q)| is_same(*p, *q))
        .collect(alloc)
}

/// The close pairs of which some node isn't fixed, by a flag for each node, in the pair order.
pub(crate) fn loose_close_pairs(
    alloc: Global,
    surface: &Surface,
    fixed: &[bool],
    x: &Places,
    reach: u32,
) -> Result<PairList, AllocError>
    requires placed { HasNodes x.now surface.now.vertices }
    requires reach { reach ≤ REACH_LIMIT }
    ensures { IfOk result (λ pairs. pairs ≡ loose_close_pairs_of fixed.now reach surface.now x.now) }
{
    let around = loose_box(surface, x, x, fixed);
    let mut tests = BoxTests { n: 0 };
    let near = near_pairs(
        alloc,
        surface,
        x,
        x,
        &CLOSE_KINDS,
        reach,
        around,
        &mut tests,
    )?;
    loose_among(alloc, surface, fixed, near.items())
}

// The box around the boxes of all parts of which some node isn't fixed, if there is one.
fn loose_box(surface: &Surface, x0: &Places, x1: &Places, fixed: &[bool]) -> Option<BoundingBox>
    requires start { HasNodes x0.now surface.now.vertices }
    requires end { HasNodes x1.now surface.now.vertices }
    ensures value { result ≡ loose_box surface.now x0.now x1.now fixed.now }
    ensures in_box { IfSome result LiesInTheBox }
{
    let vertices = around_vertices(x0, x1, fixed, surface.vertices());
    let edges = around_parts(x0, x1, fixed, vertices, surface.edges());
    around_parts(x0, x1, fixed, edges, surface.triangles())
}

// The box around those of the vertices that aren't fixed.
fn around_vertices(
    x0: &Places,
    x1: &Places,
    fixed: &[bool],
    vertices: &[u32],
) -> Option<BoundingBox>
    requires start { HasNodes x0.now vertices.now }
    requires end { HasNodes x1.now vertices.now }
    ensures value { result ≡
        grown x0.now x1.now fixed.now None (map (λ vertex. vertex ∷ []) vertices.now) }
    ensures in_box { IfSome result LiesInTheBox }
{
    let mut around = None;
    for vertex in vertices {
        around = grown_by(x0, x1, fixed, around, from_ref(vertex));
    }
    around
}

// The box around another, if there is one, and those of the parts of which some node isn't fixed.
fn around_parts<const N: usize>(
    x0: &Places,
    x1: &Places,
    fixed: &[bool],
    others: Option<BoundingBox>,
    parts: &[[u32; N]],
) -> Option<BoundingBox>
    requires others { IfSome others LiesInTheBox }
    requires placed { All (IsPlaced x0.now x1.now) parts.now }
    ensures value { result ≡ grown x0.now x1.now fixed.now others parts.now }
    ensures in_box { IfSome result LiesInTheBox }
{
    let mut around = others;
    for part in parts {
        around = grown_by(x0, x1, fixed, around, part);
    }
    around
}

// The box around another, if there is one, and that of a part, where some node of it isn't
// fixed.
fn grown_by(
    x0: &Places,
    x1: &Places,
    fixed: &[bool],
    others: Option<BoundingBox>,
    nodes: &[u32],
) -> Option<BoundingBox>
    requires others { IfSome others LiesInTheBox }
    requires placed { IsPlaced x0.now x1.now nodes.now }
    ensures value { result ≡ grown_by x0.now x1.now fixed.now others nodes.now }
    ensures in_box { IfSome result LiesInTheBox }
{
    if are_held(fixed, nodes) {
        return others;
    }
    let part = swept_box(x0, x1, nodes);
    match others {
        Some(others) => Some(box_around(&others, &part)),
        None => Some(part),
    }
}

/// Whether two places are the same.
pub fn is_same(p: V3, q: V3) -> bool
    ensures { result ≡ is_same p q }
{
    (p.x == q.x) & (p.y == q.y) & (p.z == q.z)
}
