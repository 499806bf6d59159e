//! What one field is, or what is wrong with it.
ghost use Rattle.std.specs.Prelude.{◌≡◌, ◌≤◌, IfOk, IfSome, unsigned_abs};
ghost use Rattle.dec_text.specs.declared.TheConstants.{FINEST_GRID, GREATEST_SIZE};
ghost use Rattle.dec_text.specs.Grid.{grid_value};
ghost use Rattle.space3.specs.declared.mesh.TheConstants.{TAG_LIMIT};
ghost use Rattle.mesh_words.specs.Numbers.{number_of, tag_count_of, node_at};
ghost use Rattle.mesh_words.specs.Elements.{element_type_of};
ghost use Rattle.mesh_words.specs.Kinds.{Reads, coordinate_of, coordinate_kind, type_kind, node_kind};

use crate::elements::ElementType;
use crate::index::NodeIndex;
use crate::kinds::MshKind;
use dec_text::{DecErr, Snap, to_grid};
use line_fields::whole_number;
use space3::TAG_LIMIT;

/// The number of a node or of an element: a whole number of at least 1.
#[tactic(auto, unfolding(crate::specs::Numbers::number_of))]
pub fn positive_number(field: &[u8]) -> Option<u32>
    ensures { result ≡ number_of field.now }
{
    let n = whole_number(field)?;
    if 1 <= n { Some(n) } else { None }
}

/// How many tags an element has: a whole number of at most [`TAG_LIMIT`].
#[tactic(auto, unfolding(crate::specs::Numbers::tag_count_of))]
pub fn tag_count(field: &[u8]) -> Option<u32>
    ensures value { result ≡ tag_count_of field.now }
    ensures few { IfSome result (λ count. count ≤ TAG_LIMIT) }
{
    let count = whole_number(field)?;
    if count <= TAG_LIMIT {
        Some(count)
    } else {
        None
    }
}

/// The type of elements of a field.
#[tactic(auto, unfolding(crate::specs::Kinds::type_kind, crate::specs::Elements::element_type_of))]
pub fn element_type(field: &[u8]) -> Result<ElementType, MshKind>
    ensures { Reads (λ t. t) result (type_kind field.now) (element_type_of field.now) }
{
    let Some(code) = whole_number(field) else {
        return Err(MshKind::BadNumber);
    };
    let Some(kind) = ElementType::of_code(code) else {
        return Err(MshKind::ElementType);
    };
    Ok(kind)
}

/// The position of the node that a field names.
#[tactic(auto, unfolding(crate::specs::Kinds::node_kind, crate::specs::Numbers::node_at))]
pub fn node_position(nodes: &NodeIndex, field: &[u8]) -> Result<u32, MshKind>
    ensures { Reads (λ i. i) result (node_kind nodes.now field.now) (node_at nodes.now field.now) }
{
    let Some(number) = positive_number(field) else {
        return Err(MshKind::BadNumber);
    };
    let Some(position) = nodes.position(number) else {
        return Err(MshKind::UnknownNode);
    };
    Ok(position)
}

/// A coordinate on the grid of `digits` digits after the point, in grid units: at most 2^20 in size.
#[tactic(auto, unfolding(crate::specs::Kinds::coordinate_kind, crate::specs::Kinds::coordinate_of))]
pub fn coordinate(field: &[u8], digits: u8, snap: Snap) -> Result<i64, MshKind>
    requires { digits ≤ FINEST_GRID }
    ensures value { Reads (λ x. x) result (coordinate_kind field.now digits snap)
        (coordinate_of field.now digits snap) }
    ensures in_box { IfOk result (λ x. unsigned_abs x ≤ GREATEST_SIZE) }
{
    match to_grid(field, digits, snap) {
        Ok(x) => Ok(x),
        Err(DecErr::NotDecimal) => Err(MshKind::BadNumber),
        Err(DecErr::OffGrid) => Err(MshKind::OffGrid),
        Err(DecErr::OutOfBox) => Err(MshKind::OutOfBox),
    }
}
