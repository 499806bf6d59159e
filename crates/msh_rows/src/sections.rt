//! Rows that open and end sections, the format's row, and the rows of counts.
ghost use Rattle.std.specs.Prelude.{◌≡◌, ◌≤◌, IfOk};
ghost use Rattle.line_fields.specs.Lines.{fields};
ghost use Rattle.space3.specs.declared.mesh.TheConstants.{NODE_LIMIT};
ghost use Rattle.mesh_words.specs.Kinds.{Reads};
ghost use Rattle.msh_rows.specs.Rows.{count_of, opening_of};
ghost use Rattle.msh_rows.specs.RowKinds.{format_row_kind, count_row_kind, node_count_row_kind, end_row_kind, IsFree};

use line_fields::{one_field, three_fields, whole_number};
use mesh_words::{MshKind, begins_with_dollar, begins_with_word};
use space3::NODE_LIMIT;

/// What a row outside of sections opens.
#[derive(Clone, Copy, Debug, PartialEq, Eq)]
pub enum Opening {
    /// The format's section.
    Format,
    /// The nodes' section.
    Nodes,
    /// The elements' section.
    Elements,
    /// A section that is skipped.
    Other,
    /// Nothing: the row is skipped.
    Nothing,
}

/// What a row outside of sections opens.
#[tactic(auto, unfolding(crate::specs::Rows::opening_of))]
pub fn section_opening(line: &[u8]) -> Opening
    ensures { result ≡ opening_of (fields line.now) }
{
    if begins_with_word(line, b"$MeshFormat") {
        return Opening::Format;
    }
    if begins_with_word(line, b"$Nodes") {
        return Opening::Nodes;
    }
    if begins_with_word(line, b"$Elements") {
        return Opening::Elements;
    }
    if begins_with_dollar(line) {
        return Opening::Other;
    }
    Opening::Nothing
}

/// Whether a row is the end of a section, of which `word` is the end word.
#[tactic(auto, unfolding(crate::specs::RowKinds::end_row_kind))]
pub fn read_end(line: &[u8], word: &[u8]) -> Result<(), MshKind>
    ensures { IsFree result (end_row_kind word.now (fields line.now)) }
{
    if begins_with_word(line, word) {
        Ok(())
    } else {
        Err(MshKind::BadCount)
    }
}

/// Whether a row is that of the format: version 2.2 as text, and the size of its numbers.
#[tactic(auto, unfolding(crate::specs::RowKinds::format_row_kind))]
pub fn read_format(line: &[u8]) -> Result<(), MshKind>
    ensures { IsFree result (format_row_kind (fields line.now)) }
{
    if begins_with_dollar(line) {
        return Err(MshKind::BadCount);
    }
    let Some((version, file_type, size)) = three_fields(line) else {
        return Err(MshKind::Fields);
    };
    if version != b"2.2".as_slice() {
        return Err(MshKind::Version);
    }
    if file_type == b"1".as_slice() {
        return Err(MshKind::Binary);
    }
    if file_type != b"0".as_slice() {
        return Err(MshKind::BadNumber);
    }
    let Some(_) = whole_number(size) else {
        return Err(MshKind::BadNumber);
    };
    Ok(())
}

/// The count on a row.
#[tactic(auto, unfolding(crate::specs::RowKinds::count_row_kind, crate::specs::Rows::count_of))]
pub fn read_count(line: &[u8]) -> Result<u32, MshKind>
    ensures { Reads (λ n. n) result (count_row_kind (fields line.now)) (count_of (fields line.now)) }
{
    if begins_with_dollar(line) {
        return Err(MshKind::BadCount);
    }
    let Some(field) = one_field(line) else {
        return Err(MshKind::Fields);
    };
    let Some(count) = whole_number(field) else {
        return Err(MshKind::BadNumber);
    };
    Ok(count)
}

/// The count of nodes on a row, at most [`NODE_LIMIT`].
#[tactic(auto, unfolding(crate::specs::RowKinds::node_count_row_kind))]
pub fn read_node_count(line: &[u8]) -> Result<u32, MshKind>
    ensures count { Reads (λ n. n) result (node_count_row_kind (fields line.now)) (count_of (fields line.now)) }
    ensures few { IfOk result (λ n. n ≤ NODE_LIMIT) }
{
    match read_count(line) {
        Ok(count) => {
            if count > NODE_LIMIT {
                return Err(MshKind::TooManyNodes);
            }
            Ok(count)
        }
        Err(kind) => Err(kind),
    }
}
