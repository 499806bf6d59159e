//! How long the edges of a tetrahedron are.
ghost use Rattle.std.specs.Prelude.{◌≡◌};
ghost use Rattle.space3.specs.Mesh.{HasNodes};
ghost use Rattle.surface_mesh.specs.Edges.{edges_of, has_edges_within, is_within};

use space3::{Places, Tet, V3, edge};

// Whether each component is at most `most` in absolute value.
fn is_within(v: V3, most: u32) -> bool
    ensures { result ≡ is_within most v }
{
    let most = most as u64;
    v.x.unsigned_abs() <= most && v.y.unsigned_abs() <= most && v.z.unsigned_abs() <= most
}

// The six edges.
fn edges_of(places: &Places, tet: &Tet) -> [V3; 6]
    requires { HasNodes places.now tet.now.nodes }
    ensures { result ≡ edges_of places.now tet.now.nodes }
{
    let nodes = &tet.nodes;
    [
        edge(places, nodes[0], nodes[1]),
        edge(places, nodes[0], nodes[2]),
        edge(places, nodes[0], nodes[3]),
        edge(places, nodes[1], nodes[2]),
        edge(places, nodes[1], nodes[3]),
        edge(places, nodes[2], nodes[3]),
    ]
}

/// Whether each component of the six edges of a tetrahedron is at most `most` grid units in absolute value, where
/// its nodes stand at these places.
pub fn has_edges_within(places: &Places, tet: &Tet, most: u32) -> bool
    requires { HasNodes places.now tet.now.nodes }
    ensures { result ≡ has_edges_within most places.now tet.now.nodes }
{
    edges_of(places, tet)
        .iter()
        .all(|edge| is_within(*edge, most))
}
