//! The boxes of all parts of a surface in a motion.
ghost use Rattle.std.specs.Prelude.{◌≡◌, ◌<◌, ◌^◌, ◌∷◌, [], IfOk, All, length, map};
ghost use Rattle.space3.specs.Mesh.{HasNodes};
ghost use Rattle.box_grid.specs.Near.{LiesInTheBox};
ghost use Rattle.broad_grid.specs.PartBoxes.{part_box, swept_box};
ghost use Rattle.broad_grid.specs.Calls.Boxes.{HasBoxes, IsPlaced, first_boxes, second_boxes};

use boundary::{PairKind, Surface};
use box_grid::BoxGrid;
use space3::{BoundingBox, Places, box_around, box_of};
use std::alloc::{AllocError, Global};
use std::marker::Model;
use std::slice::from_ref;

/// The boxes of a surface's vertices, edges and triangles, each in the order of its list.
#[derive(Drop)]
pub(crate) struct BoxLists {
    pub vertices: Vec<BoundingBox>,
    pub edges: Vec<BoundingBox>,
    pub triangles: Vec<BoundingBox>,
}

impl Model for BoxLists {
    ghost use Rattle.broad_grid.specs.Calls.Boxes.{BoxesOfParts};

    ghost Value = { BoxesOfParts };

    ghost view = { λ b. record {
      vertices = b.vertices.items;
      edges = b.edges.items;
      triangles = b.triangles.items;
    } };
}

/// The same, those of edges and of triangles in a grid each.
#[derive(Drop)]
pub(crate) struct PartBoxes {
    pub vertices: Vec<BoundingBox>,
    pub edges: BoxGrid,
    pub triangles: BoxGrid,
}

impl Model for PartBoxes {
    ghost use Rattle.broad_grid.specs.Calls.Boxes.{BoxesOfParts};

    ghost Value = { BoxesOfParts };

    ghost view = { λ b. record {
      vertices = b.vertices.items;
      edges = b.edges;
      triangles = b.triangles;
    } };
}

/// The boxes of all parts, each around the corners at the start and at the end of a motion.
pub(crate) fn box_lists(
    alloc: Global,
    surface: &Surface,
    x0: &Places,
    x1: &Places,
) -> Result<BoxLists, AllocError>
    requires start { HasNodes x0.now surface.now.vertices }
    requires end { HasNodes x1.now surface.now.vertices }
    ensures { IfOk result (HasBoxes surface.now x0.now x1.now) }
{
    let vertices = vertex_boxes(alloc, x0, x1, surface.vertices())?;
    let edges = boxes_of_parts(alloc, x0, x1, surface.edges())?;
    let triangles = boxes_of_parts(alloc, x0, x1, surface.triangles())?;
    Ok(BoxLists {
        vertices,
        edges,
        triangles,
    })
}

/// The same boxes, in grids.
pub(crate) fn part_boxes(
    alloc: Global,
    surface: &Surface,
    x0: &Places,
    x1: &Places,
    reach: u32,
) -> Result<PartBoxes, AllocError>
    requires start { HasNodes x0.now surface.now.vertices }
    requires end { HasNodes x1.now surface.now.vertices }
    ensures { IfOk result (HasBoxes surface.now x0.now x1.now) }
{
    let lists = box_lists(alloc, surface, x0, x1)?;
    Ok(PartBoxes {
        vertices: lists.vertices,
        edges: BoxGrid::of_boxes(alloc, lists.edges, reach)?,
        triangles: BoxGrid::of_boxes(alloc, lists.triangles, reach)?,
    })
}

/// The boxes of the parts of which a kind's pairs have one first.
pub(crate) fn first_boxes(boxes: &PartBoxes, kind: PairKind) -> &[BoundingBox]
    ensures { result.now ≡ first_boxes boxes.now kind }
{
    match kind {
        PairKind::VE | PairKind::VT => boxes.vertices.as_slice(),
        PairKind::EE | PairKind::ET => boxes.edges.boxes(),
    }
}

/// The boxes of the parts of which they have one second.
pub(crate) fn second_grid(boxes: &PartBoxes, kind: PairKind) -> &BoxGrid
    ensures { result.now ≡ second_boxes boxes.now kind }
{
    match kind {
        PairKind::VE | PairKind::EE => &boxes.edges,
        PairKind::VT | PairKind::ET => &boxes.triangles,
    }
}

// The boxes of vertices.
fn vertex_boxes(
    alloc: Global,
    x0: &Places,
    x1: &Places,
    vertices: &[u32],
) -> Result<Vec<BoundingBox>, AllocError>
    requires start { HasNodes x0.now vertices.now }
    requires end { HasNodes x1.now vertices.now }
    ensures boxes { IfOk result (λ boxes. boxes.items ≡
        map (λ vertex. swept_box x0.now x1.now (vertex ∷ [])) vertices.now) }
    ensures in_box { IfOk result (λ boxes. All LiesInTheBox boxes.items) }
{
    let mut boxes = Vec::with_capacity(alloc, vertices.len())?;
    for vertex in vertices {
        boxes.push(swept_box(x0, x1, from_ref(vertex)))?;
    }
    Ok(boxes)
}

// The boxes of edges or of triangles.
fn boxes_of_parts<const N: usize>(
    alloc: Global,
    x0: &Places,
    x1: &Places,
    parts: &[[u32; N]],
) -> Result<Vec<BoundingBox>, AllocError>
    requires { All (IsPlaced x0.now x1.now) parts.now }
    ensures boxes { IfOk result (λ boxes. boxes.items ≡
        map (swept_box x0.now x1.now) parts.now) }
    ensures in_box { IfOk result (λ boxes. All LiesInTheBox boxes.items) }
{
    let mut boxes = Vec::with_capacity(alloc, parts.len())?;
    for part in parts {
        boxes.push(swept_box(x0, x1, part))?;
    }
    Ok(boxes)
}

// The box around the places of these nodes at the start and at the end.
pub(crate) fn swept_box(x0: &Places, x1: &Places, nodes: &[u32]) -> BoundingBox
    requires { IsPlaced x0.now x1.now nodes.now }
    ensures value { result ≡ swept_box x0.now x1.now nodes.now }
    ensures in_box { LiesInTheBox result }
{
    box_around(&part_box(x0, nodes), &part_box(x1, nodes))
}

// The box around the places of these nodes.
fn part_box(places: &Places, nodes: &[u32]) -> BoundingBox
    requires some { 0 < length nodes.now }
    requires placed { HasNodes places.now nodes.now }
    ensures value { result ≡ part_box places.now nodes.now }
    ensures in_box { LiesInTheBox result }
{
    let mut around = box_of(from_ref(&places.get(nodes[0])));
    for i in 1..nodes.len() {
        around = box_around(&around, &box_of(from_ref(&places.get(nodes[i]))));
    }
    around
}
