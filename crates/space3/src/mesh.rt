//! A mesh of tetrahedra.
ghost use Rattle.std.specs.Prelude.{◌≡◌, ◌<◌, ◌*◌, ◌^◌, length};
ghost use Rattle.space3.specs.Mesh.{rest_determinant, place_of, HasNodes};
ghost use Rattle.space3.specs.Vectors.{AtMost, Within, difference};

use crate::lists::{NodeNumbers, Tet, TetList};
use crate::places::{BOX_LIMIT, Places};
use crate::vectors::{V3, det, sub};

/// The most nodes of a mesh, 2^14: sums over all nodes keep their widths.
pub const NODE_LIMIT: u32 = 16_384;

/// The most tetrahedra of a mesh, 2^16: sums over all tetrahedra keep their widths.
pub const TET_LIMIT: u32 = 65_536;

/// The most tags of a tetrahedron.
pub const TAG_LIMIT: u32 = 255;

/// The greatest number of a node or an element, and the greatest absolute value of a tag: they are whole numbers of
/// 32 bits with a sign.
pub const NUMBER_LIMIT: u32 = 2_147_483_647;

/// A mesh as three lists in the file's order: the nodes' numbers, their places, and the tetrahedra.
#[derive(Drop)]
pub struct Mesh {
    pub numbers: NodeNumbers,
    pub places: Places,
    pub tets: TetList,
}

/// The edge from one node to another, in grid units. Components are at most twice the limit of the box.
pub fn edge(places: &Places, from: u32, to: u32) -> V3
    requires from { from < length places.now }
    requires to { to < length places.now }
    ensures value { result ≡ difference (place_of places.now to) (place_of places.now from) }
    ensures bound { Within (2 * BOX_LIMIT) result }
{
    sub(places.get(to), places.get(from))
}

/// The determinant of a tetrahedron's three edges from its first node, which is six times its signed volume,
/// in cubed grid units, at most 2^66 in absolute value.
pub fn rest_det(places: &Places, tet: &Tet) -> i128
    requires { HasNodes places.now tet.now.nodes }
    ensures value { result ≡ rest_determinant places.now tet.now.nodes }
    ensures bound { AtMost (2 ^ 66) result }
{
    let first = tet.nodes[0];
    let u = edge(places, first, tet.nodes[1]);
    let v = edge(places, first, tet.nodes[2]);
    let w = edge(places, first, tet.nodes[3]);
    det(u, v, w)
}
