//! Groups of faces with the same corners, in sorted faces.
ghost use Rattle.std.specs.Prelude.{◌≡◌, ◌<◌, ◌∷◌, length, find, IfOk, map, filter};
ghost use Rattle.std.specs.List.{prefix_len};
ghost use Rattle.std.specs.Option.{option_map};
ghost use Rattle.boundary.specs.Calls.Groups.{are_two_alike, first_corners, first_tets, groups_of, has_one, has_three};
ghost use Rattle.boundary.specs.Faces.{has_corners};

use crate::faces::{Face, have_same_turn};
use std::alloc::{AllocError, Global};

/// The tetrahedra of the first three faces of the first group that has three faces or more.
pub(crate) fn first_thrice(faces: &[Face]) -> Option<[u32; 3]>
    ensures { result ≡ option_map (first_tets 3) (find has_three (groups_of faces.now)) }
{
    let mut rest = faces;
    while !rest.is_empty() {
        let (group, later) = first_group(rest);
        if group.len() >= 3 {
            return Some([group[0].tet, group[1].tet, group[2].tet]);
        }
        rest = later;
    }
    None
}

/// The tetrahedra of the first group that has two faces, both in the same turn.
pub(crate) fn first_same(faces: &[Face]) -> Option<[u32; 2]>
    ensures { result ≡ option_map (first_tets 2) (find are_two_alike (groups_of faces.now)) }
{
    let mut rest = faces;
    while !rest.is_empty() {
        let (group, later) = first_group(rest);
        if are_two_alike(group) {
            return Some([group[0].tet, group[1].tet]);
        }
        rest = later;
    }
    None
}

/// The corners of the faces that stand alone, in order.
pub(crate) fn single_corners(alloc: Global, faces: &[Face]) -> Result<Vec<[u32; 3]>, AllocError>
    ensures { IfOk result (λ corners. corners.items ≡ map first_corners (filter has_one (groups_of faces.now))) }
{
    let mut corners = Vec::new(alloc);
    let mut rest = faces;
    while !rest.is_empty() {
        let (group, later) = first_group(rest);
        if group.len() == 1 {
            corners.push(group[0].corners)?;
        }
        rest = later;
    }
    Ok(corners)
}

// The faces at the front that have the corners of the first, and the others.
fn first_group(faces: &[Face]) -> (&[Face], &[Face])
    requires { 0 < length faces.now }
    ensures groups { groups_of faces.now ≡ result.0.now ∷ groups_of result.1.now }
    ensures some { 0 < length result.0.now }
    ensures fewer { length result.1.now < length faces.now }
{
    faces.split_at(first_group_len(faces))
}

// How many faces at the front have the corners of the first.
fn first_group_len(faces: &[Face]) -> usize
    requires { 0 < length faces.now }
    ensures { result ≡ prefix_len (has_corners (first_corners faces.now)) faces.now }
{
    let corners = faces[0].corners;
    for (k, face) in faces.iter().enumerate() {
        if face.corners != corners {
            return k;
        }
    }
    faces.len()
}

fn are_two_alike(group: &[Face]) -> bool
    ensures { result ≡ are_two_alike group.now }
{
    group.len() == 2 && have_same_turn(group[0].turn, group[1].turn)
}
