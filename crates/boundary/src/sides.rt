//! The edges and the vertices of triangles.
ghost use Rattle.std.specs.Prelude.{◌≡◌, ◌*◌, ◌≤◌, IfOk, length};
ghost use Rattle.boundary.specs.Surface.{AreEdges, AreVertices, sides_of};

use std::alloc::{AllocError, Global};

/// The sides of the triangles, sorted, each once.
pub(crate) fn edges_of(alloc: Global, triangles: &[[u32; 3]]) -> Result<Vec<[u32; 2]>, AllocError>
    ensures edges { IfOk result (λ edges. AreEdges triangles.now edges.items) }
    ensures few { IfOk result (λ edges. length edges.items ≤ 3 * length triangles.now) }
{
    let mut edges = Vec::new(alloc);
    for triangle in triangles {
        edges.extend_from_slice(&sides_of(triangle))?;
    }
    edges.sort_unstable();
    edges.dedup();
    Ok(edges)
}

/// The nodes of the triangles, sorted, each once.
pub(crate) fn vertices_of(alloc: Global, triangles: &[[u32; 3]]) -> Result<Vec<u32>, AllocError>
    ensures vertices { IfOk result (λ vertices. AreVertices triangles.now vertices.items) }
    ensures few { IfOk result (λ vertices. length vertices.items ≤ 3 * length triangles.now) }
{
    let mut vertices = Vec::new(alloc);
    for triangle in triangles {
        vertices.extend_from_slice(triangle)?;
    }
    vertices.sort_unstable();
    vertices.dedup();
    Ok(vertices)
}

fn sides_of(triangle: &[u32; 3]) -> [[u32; 2]; 3]
    ensures { result ≡ sides_of triangle.now }
{
    [
        [triangle[0], triangle[1]],
        [triangle[0], triangle[2]],
        [triangle[1], triangle[2]],
    ]
}
