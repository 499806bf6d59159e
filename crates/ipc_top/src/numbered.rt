//! The lines that name tetrahedra and nodes by their numbers in the file.
ghost use Rattle.std.specs.Prelude.{◌≡◌, map, IfOk};
ghost use Rattle.boundary.specs.Pairs.{IsPair};
ghost use Rattle.mesh_check.specs.Defects.{HasPair};
ghost use Rattle.report_text.specs.declared.line.Line.TheVariants as lines;
ghost use Rattle.ipc_top.specs.Numbered as numbered;

use boundary::Pair;
use mesh_check::Defect;
use report_text::Line;
use space3::{Mesh, NodeNumbers};
use std::alloc::{AllocError, Global};
use surface_mesh::Setup;

// The number in the file of a tetrahedron, by its position.
fn tet_number(mesh: &Mesh, tet: u32) -> u32
    ensures { result ≡ numbered.tet_number mesh.now tet }
{
    match mesh.tets.items().get(tet as usize) {
        Some(tet) => tet.number,
        None => 0,
    }
}

/// The line of three tetrahedra that have the same face.
pub fn thrice_line(mesh: &Mesh, tets: &[u32; 3]) -> Line
    ensures { result ≡ lines.FaceThrice (map (numbered.tet_number mesh.now) tets.now) }
{
    let numbers = [
        tet_number(mesh, tets[0]),
        tet_number(mesh, tets[1]),
        tet_number(mesh, tets[2]),
    ];
    Line::FaceThrice { numbers }
}

/// The line of two tetrahedra that lie on one side of their common face.
pub fn same_line(mesh: &Mesh, tets: &[u32; 2]) -> Line
    ensures { result ≡ lines.FaceSame (map (numbered.tet_number mesh.now) tets.now) }
{
    let numbers = [tet_number(mesh, tets[0]), tet_number(mesh, tets[1])];
    Line::FaceSame { numbers }
}

// The number in the file of a node, by its position.
fn node_number(mesh: &Mesh, node: u32) -> u32
    ensures { result ≡ numbered.node_number mesh.now node }
{
    match mesh.numbers.items().get(node as usize) {
        Some(number) => *number,
        None => 0,
    }
}

// The numbers of these nodes.
fn node_numbers(alloc: Global, mesh: &Mesh, nodes: &[u32]) -> Result<NodeNumbers, AllocError>
    ensures { IfOk result (λ numbers. numbers ≡ map (numbered.node_number mesh.now) nodes.now) }
{
    let mut numbers = Vec::new(alloc);
    for node in nodes {
        numbers.push(node_number(mesh, *node))?;
    }
    Ok(NodeNumbers::of_vec(numbers))
}

// The line of a pair of parts that meet.
fn meets_line(alloc: Global, setup: &Setup, pair: Pair) -> Result<Line, AllocError>
    requires { IsPair setup.now.surface pair }
    ensures { IfOk result (λ line. line ≡ numbered.meets_line setup.now pair) }
{
    let a = node_numbers(alloc, &setup.mesh, setup.surface.first_nodes(pair))?;
    let b = node_numbers(alloc, &setup.mesh, setup.surface.second_nodes(pair))?;
    Ok(Line::Meets {
        kind: pair.kind,
        a,
        b,
    })
}

/// The line of a defect.
pub fn defect_line(alloc: Global, setup: &Setup, defect: Defect) -> Result<Line, AllocError>
    requires { HasPair setup.now.surface defect }
    ensures { IfOk result (λ line. line ≡ numbered.defect_line setup.now defect) }
{
    let mesh = &setup.mesh;
    match defect {
        Defect::NotPositive { tet } => Ok(Line::NotPositive {
            number: tet_number(mesh, tet),
        }),
        Defect::Thin { tet } => Ok(Line::Thin {
            number: tet_number(mesh, tet),
        }),
        Defect::Long { tet } => Ok(Line::Long {
            number: tet_number(mesh, tet),
        }),
        Defect::TooHeavy { node } => Ok(Line::TooHeavy {
            number: node_number(mesh, node),
        }),
        Defect::Meets { pair } => meets_line(alloc, setup, pair),
    }
}
