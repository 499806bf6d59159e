//! The faces of all tetrahedra, sorted.
ghost use Rattle.std.specs.Prelude.{◌≡◌, ◌<◌, ◌^◌, List, ℕ, IfOk, filter, length, map};
ghost use Rattle.std.specs.List.Sorted.{IsSortedByKey};
ghost use Rattle.space3.specs.Mesh.{IsSound};
ghost use Rattle.boundary.specs.Faces.{ascending, corners_of, face_of, faces_at, faces_of, has_corners, have_same_turn, node_order, turns_of};

use space3::{Mesh, Tet};
use std::alloc::{AllocError, Global};

/// A face of a tetrahedron.
#[derive(Clone, Copy)]
pub(crate) struct Face {
    /// Its nodes, ascending.
    pub corners: [u32; 3],
    /// Its nodes in their turn.
    pub turn: [u32; 3],
    /// Its tetrahedron, by the position in the mesh.
    pub tet: u32,
}

// The three nodes, ascending.
fn ascending(turn: [u32; 3]) -> [u32; 3]
    ensures { result ≡ ascending turn }
{
    let a = turn[0];
    let b = turn[1];
    let c = turn[2];
    [
        a.min(b).min(c),
        a.min(b).max(a.max(b).min(c)),
        a.max(b).max(c),
    ]
}

/// Whether one turn is the other rotated.
pub(crate) fn have_same_turn(t: [u32; 3], u: [u32; 3]) -> bool
    ensures { result ≡ have_same_turn t u }
{
    t == u || [t[1], t[2], t[0]] == u || [t[2], t[0], t[1]] == u
}

fn face_of(tet: u32, turn: [u32; 3]) -> Face
    ensures { result ≡ face_of tet turn }
{
    Face {
        corners: ascending(turn),
        turn,
        tet,
    }
}

fn tet_faces(tet: u32, nodes: &[u32; 4]) -> [Face; 4]
    ensures { result ≡ map (face_of tet) (turns_of nodes.now) }
{
    [
        face_of(tet, [nodes[1], nodes[2], nodes[3]]),
        face_of(tet, [nodes[0], nodes[3], nodes[2]]),
        face_of(tet, [nodes[0], nodes[1], nodes[3]]),
        face_of(tet, [nodes[0], nodes[2], nodes[1]]),
    ]
}

// The faces of the tetrahedra, in the mesh's order.
fn faces_of(alloc: Global, tets: &[Tet]) -> Result<Vec<Face>, AllocError>
    requires { length tets.now < 2 ^ 32 }
    ensures { IfOk result (λ faces. faces.items ≡ faces_of tets.now) }
{
    let mut faces = Vec::new(alloc);
    for (k, tet) in tets.iter().enumerate() {
        faces.extend_from_slice(&tet_faces(k as u32, &tet.nodes))?;
    }
    Ok(faces)
}

/// The faces by their corners. Those with the same corners stand in the mesh's order.
pub(crate) fn sorted_faces(alloc: Global, mesh: &Mesh) -> Result<Vec<Face>, AllocError>
    requires { IsSound mesh.now }
    ensures sorted { IfOk result (λ faces. IsSortedByKey corners_of node_order faces.items) }
    ensures same { IfOk result (λ faces. (corners : List ℕ) → filter (has_corners corners) faces.items ≡ faces_at mesh.now corners) }
{
    let mut faces = faces_of(alloc, mesh.tets.items())?;
    faces.sort_by_key(
        |face: &Face| -> [u32; 3]
            ensures { result ≡ face.now.corners }
        { face.corners },
    )?;
    Ok(faces)
}
