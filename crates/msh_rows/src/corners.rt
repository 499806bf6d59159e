//! The nodes of an element.
ghost use Rattle.std.specs.Prelude.{◌≡◌, length, map};
ghost use Rattle.line_fields.specs.Lines.{fields};
ghost use Rattle.mesh_words.specs.Kinds.{Reads, first_of, node_kind};
ghost use Rattle.mesh_words.specs.Numbers.{node_at};
ghost use Rattle.msh_rows.specs.Rows.{every, are_different};
ghost use Rattle.msh_rows.specs.RowKinds.{IsFree};

use line_fields::{four_fields, next_field};
use mesh_words::{MshKind, NodeIndex, node_position};

/// The positions of the four nodes that the fields of a line name.
#[tactic(auto, unfolding(crate::specs::Rows::every))]
pub(crate) fn read_corners(nodes: &NodeIndex, line: &[u8]) -> Result<[u32; 4], MshKind>
    requires { length (fields line.now) ≡ 4 }
    ensures { Reads (λ corners. corners) result (first_of (map (node_kind nodes.now) (fields line.now)))
        (every (node_at nodes.now) (fields line.now)) }
{
    let Some((a, b, c, d)) = four_fields(line) else {
        unreachable!()
    };
    let a = node_position(nodes, a)?;
    let b = node_position(nodes, b)?;
    let c = node_position(nodes, c)?;
    let d = node_position(nodes, d)?;
    Ok([a, b, c, d])
}

/// Whether each field of a line names a node.
pub(crate) fn check_nodes(nodes: &NodeIndex, line: &[u8]) -> Result<(), MshKind>
    ensures { IsFree result (first_of (map (node_kind nodes.now) (fields line.now))) }
{
    let mut rest = line;
    while let Some((field, after)) = next_field(rest) {
        match node_position(nodes, field) {
            Ok(_) => {}
            Err(kind) => return Err(kind),
        }
        rest = after;
    }
    Ok(())
}

/// Whether no node comes twice.
#[tactic(auto, unfolding(crate::specs::Rows::are_different))]
pub(crate) fn are_different(nodes: &[u32]) -> bool
    ensures { result ≡ are_different nodes.now }
{
    match nodes {
        [] => true,
        [first, rest @ ..] => !rest.contains(first) && are_different(rest),
    }
}
