//! The row of an element.
ghost use Rattle.std.specs.Prelude.{◌≡◌, ◌<◌, ◌∷◌, Some, None, length, map, MatchOption, MatchResult};
ghost use Rattle.line_fields.specs.Lines.{fields};
ghost use Rattle.mesh_words.specs.Kinds.{Reads, first_of, node_kind, or_else};
ghost use Rattle.mesh_words.specs.Numbers.{node_at};
ghost use Rattle.msh_rows.specs.Rows.{element_of, every};
ghost use Rattle.msh_rows.specs.RowKinds.{element_row_kind, head_kind, ReadsRow};
ghost use Rattle.msh_rows.specs.Calls.Elements.{IsHead, corners_kind};
ghost use Rattle.msh_rows.specs.declared.elements.RowErr.TheVariants.{Memory};

use crate::corners::{are_different, check_nodes, read_corners};
use crate::tags::read_tags;
use line_fields::{field_count, next_field};
use mesh_words::{
    ElementType, MshKind, NodeIndex, begins_with_dollar, element_type, positive_number, tag_count,
};
use space3::{TET_LIMIT, Tags, Tet};
use std::alloc::{AllocError, AllocFailed, Global};

/// Why no element was read: memory was wanting, or something is wrong with the row.
#[derive(Clone, Copy, Debug, PartialEq, Eq)]
pub enum RowErr {
    Memory,
    Kind(MshKind),
}

impl From<AllocError> for RowErr {
    ghost from_gives = { λ _ e. e ≡ Memory };

    fn from(_: AllocError) -> Self {
        RowErr::Memory
    }
}

impl<T: Drop> From<AllocFailed<T>> for RowErr {
    ghost from_gives = { λ _ e. e ≡ Memory };

    fn from(_: AllocFailed<T>) -> Self {
        RowErr::Memory
    }
}

/// An element's number, its type, how many tags it has, and the fields of its tags and its nodes.
#[derive(Clone, Copy)]
struct Head<'a> {
    number: u32,
    element_type: ElementType,
    tag_count: u32,
    rest: &'a [u8],
}

/// The tetrahedron of a row, over the nodes of this index and after so many tetrahedra; nothing for a point, a line or a
/// triangle. `tags` is room for tags: what it held goes, and what it holds then is not said.
pub fn read_element(
    alloc: Global,
    nodes: &NodeIndex,
    tets: usize,
    line: &[u8],
    tags: &mut Vec<i32>,
) -> Result<Option<Tet>, RowErr>
    ensures { ReadsRow result (element_row_kind nodes.now tets (fields line.now))
        (element_of nodes.now (fields line.now)) }
{
    let head = match read_head(line) {
        Ok(head) => head,
        Err(kind) => return Err(RowErr::Kind(kind)),
    };
    let rest = read_tags(head.rest, head.tag_count, tags)?;
    match head.element_type {
        ElementType::Tetrahedron => {
            let corners = match read_tet_corners(nodes, tets, rest) {
                Ok(corners) => corners,
                Err(kind) => return Err(RowErr::Kind(kind)),
            };
            let tags = Tags::of_slice(alloc, tags)?;
            Ok(Some(Tet {
                number: head.number,
                nodes: corners,
                tags,
            }))
        }
        _ => match check_nodes(nodes, rest) {
            Ok(()) => Ok(None),
            Err(kind) => Err(RowErr::Kind(kind)),
        },
    }
}

/// What stands before an element's tags.
#[tactic(auto, unfolding(crate::specs::RowKinds::head_kind))]
fn read_head(line: &[u8]) -> Result<Head<'_>, MshKind>
    ensures head { MatchResult result (λ head. IsHead (fields line.now) head) (λ kind. head_kind (fields line.now) ≡ Some kind) }
    ensures free { MatchResult result (λ _. head_kind (fields line.now) ≡ None) (λ _. Unit {0}) }
{
    if begins_with_dollar(line) {
        return Err(MshKind::BadCount);
    }
    let Some((name, code, count, rest)) = first_three(line) else {
        return Err(MshKind::Fields);
    };
    let Some(number) = positive_number(name) else {
        return Err(MshKind::BadNumber);
    };
    let element_type = match element_type(code) {
        Ok(element_type) => element_type,
        Err(kind) => return Err(kind),
    };
    let Some(tag_count) = tag_count(count) else {
        return Err(MshKind::BadNumber);
    };
    if field_count(rest) != tag_count as usize + element_type.node_count() {
        return Err(MshKind::Fields);
    }
    Ok(Head {
        number,
        element_type,
        tag_count,
        rest,
    })
}

/// The first three fields of a line, and what follows them.
fn first_three(line: &[u8]) -> Option<(&[u8], &[u8], &[u8], &[u8])>
    ensures { MatchOption result (length (fields line.now) < 3)
        (λ r. fields line.now ≡ r.0.now ∷ r.1.now ∷ r.2.now ∷ fields r.3.now) }
{
    let (first, rest) = next_field(line)?;
    let (second, rest) = next_field(rest)?;
    let (third, rest) = next_field(rest)?;
    Some((first, second, third, rest))
}

/// The positions of the four nodes of a tetrahedron, after so many tetrahedra.
fn read_tet_corners(nodes: &NodeIndex, tets: usize, line: &[u8]) -> Result<[u32; 4], MshKind>
    requires { length (fields line.now) ≡ 4 }
    ensures { let corners = every (node_at nodes.now) (fields line.now) in
        let kind = first_of (map (node_kind nodes.now) (fields line.now)) in
        Reads (λ corners. corners) result (or_else kind (corners_kind tets corners)) corners }
{
    match read_corners(nodes, line) {
        Ok(corners) => {
            if !are_different(&corners) {
                return Err(MshKind::RepeatedNode);
            }
            if tets >= TET_LIMIT as usize {
                return Err(MshKind::TooManyTets);
            }
            Ok(corners)
        }
        Err(kind) => Err(kind),
    }
}
