//! The surface of a mesh.
ghost use Rattle.std.specs.Prelude.{◌≡◌, IfOk, IfErr};
ghost use Rattle.space3.specs.Mesh.{HasNodes, IsSound};
ghost use Rattle.space3.specs.declared.mesh.Mesh.{Mesh};
ghost use Rattle.boundary.specs.Refusals.{IsConforming, Refuses};
ghost use Rattle.boundary.specs.Surface.{AreSurfaceLists, IsSurface, SurfaceLists, lists_of};

use crate::faces::sorted_faces;
use crate::groups::{first_same, first_thrice, single_corners};
use crate::limits::TRIANGLE_LIMIT;
use crate::refusal::SurfErr;
use crate::sides::{edges_of, vertices_of};
use space3::Mesh;
use std::alloc::Global;
use std::marker::Model;

/// The vertices, edges and triangles of a mesh's surface, by positions of nodes.
#[derive(Drop)]
pub struct Surface {
    vertices: Vec<u32>,
    edges: Vec<[u32; 2]>,
    triangles: Vec<[u32; 3]>,
}

impl Model for Surface {
    ghost use Rattle.boundary.specs.Surface.{AreSurfaceLists, SurfaceLists, lists_of};

    ghost Value = { SurfaceLists };

    ghost view = { λ s. lists_of s.vertices.items s.edges.items s.triangles.items };

    ghost invariant = { λ s. AreSurfaceLists (lists_of s.vertices.items s.edges.items s.triangles.items) };
}

impl Surface {
    /// The surface of a mesh, or why it has none.
    pub fn build(alloc: Global, mesh: &Mesh) -> Result<Self, SurfErr>
        requires { IsSound mesh.now }
        ensures surface { IfOk result (λ surface. IsSurface mesh.now surface) }
        ensures lists { IfOk result AreSurfaceLists }
        ensures conforming { IfOk result (λ _. IsConforming mesh.now) }
        ensures placed { IfOk result (λ surface. HasNodes mesh.now.places surface.vertices) }
        ensures refused { IfErr result (Refuses mesh.now) }
    {
        let faces = sorted_faces(alloc, mesh)?;
        if let Some(tets) = first_thrice(&faces) {
            return Err(SurfErr::FaceThrice { tets });
        }
        if let Some(tets) = first_same(&faces) {
            return Err(SurfErr::FaceSame { tets });
        }
        let triangles = single_corners(alloc, &faces)?;
        if triangles.len() > TRIANGLE_LIMIT as usize {
            return Err(SurfErr::TooManyTriangles {
                count: triangles.len() as u64,
            });
        }
        let edges = edges_of(alloc, &triangles)?;
        let vertices = vertices_of(alloc, &triangles)?;
        Ok(Surface::of_lists(vertices, edges, triangles))
    }

    // The surface of these lists.
    fn of_lists(vertices: Vec<u32>, edges: Vec<[u32; 2]>, triangles: Vec<[u32; 3]>) -> Self
        requires { AreSurfaceLists (lists_of vertices.items edges.items triangles.items) }
        ensures value { result ≡ lists_of vertices.items edges.items triangles.items }
        ensures lists { AreSurfaceLists result }
    {
        Surface {
            vertices,
            edges,
            triangles,
        }
    }

    /// The nodes of the triangles, ascending.
    pub fn vertices(&self) -> &[u32]
        ensures vertices { result.now ≡ self.now.vertices }
        ensures lists { AreSurfaceLists self.now }
    {
        self.vertices.as_slice()
    }

    /// The sides of the triangles, each an ascending pair of nodes, sorted.
    pub fn edges(&self) -> &[[u32; 2]]
        ensures edges { result.now ≡ self.now.edges }
        ensures lists { AreSurfaceLists self.now }
    {
        self.edges.as_slice()
    }

    /// The faces of one tetrahedron, each an ascending triple of nodes, sorted.
    pub fn triangles(&self) -> &[[u32; 3]]
        ensures triangles { result.now ≡ self.now.triangles }
        ensures lists { AreSurfaceLists self.now }
    {
        self.triangles.as_slice()
    }
}

/// Law: a mesh has at most one surface.
pub fn mesh_has_one_surface()
    ensures { (mesh : Mesh) (s t : SurfaceLists) → IsSurface mesh s → IsSurface mesh t → s ≡ t }
{}
