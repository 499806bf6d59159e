//! The row of a node.
ghost use Rattle.std.specs.Prelude.{◌≡◌, ◌≤◌, IfOk, None};
ghost use Rattle.line_fields.specs.Lines.{fields};
ghost use Rattle.dec_text.specs.declared.TheConstants.{FINEST_GRID};
ghost use Rattle.space3.specs.Box.{IsInTheBox};
ghost use Rattle.mesh_words.specs.Kinds.{Reads};
ghost use Rattle.mesh_words.specs.Numbers.{position_of};
ghost use Rattle.msh_rows.specs.Rows.{node_of, place_at};
ghost use Rattle.msh_rows.specs.RowKinds.{node_row_kind, place_kind};

use dec_text::Snap;
use line_fields::four_fields;
use mesh_words::{MshKind, NodeIndex, begins_with_dollar, coordinate, positive_number};
use space3::V3;

/// A node: its number in the file and its place, in grid units.
#[derive(Clone, Copy, Debug, PartialEq, Eq)]
pub struct Node {
    pub number: u32,
    pub place: V3,
}

/// The node of a row, on the grid of `digits` digits after the point, after nodes of these numbers.
#[tactic(auto, unfolding(crate::specs::RowKinds::node_row_kind, crate::specs::Rows::node_of, mesh_words::specs::Numbers::node_at))]
pub fn read_node(nodes: &NodeIndex, line: &[u8], digits: u8, snap: Snap) -> Result<Node, MshKind>
    requires { digits ≤ FINEST_GRID }
    ensures node { Reads (λ n. (n.number, n.place)) result
        (node_row_kind digits snap nodes.now (fields line.now)) (node_of digits snap (fields line.now)) }
    ensures fresh { IfOk result (λ n. position_of nodes.now n.number ≡ None) }
    ensures in_box { IfOk result (λ n. IsInTheBox n.place) }
{
    if begins_with_dollar(line) {
        return Err(MshKind::BadCount);
    }
    let Some((name, x, y, z)) = four_fields(line) else {
        return Err(MshKind::Fields);
    };
    let Some(number) = positive_number(name) else {
        return Err(MshKind::BadNumber);
    };
    if nodes.position(number).is_some() {
        return Err(MshKind::DuplicateNode);
    }
    match read_place(x, y, z, digits, snap) {
        Ok(place) => Ok(Node { number, place }),
        Err(kind) => Err(kind),
    }
}

fn read_place(x: &[u8], y: &[u8], z: &[u8], digits: u8, snap: Snap) -> Result<V3, MshKind>
    requires { digits ≤ FINEST_GRID }
    ensures place { Reads (λ p. p) result (place_kind digits snap x.now y.now z.now)
        (place_at digits snap x.now y.now z.now) }
    ensures in_box { IfOk result IsInTheBox }
{
    let x = coordinate(x, digits, snap)?;
    let y = coordinate(y, digits, snap)?;
    let z = coordinate(z, digits, snap)?;
    Ok(V3 { x, y, z })
}
