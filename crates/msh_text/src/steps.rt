//! What one row does, at each stage of the reader.
ghost use Rattle.std.specs.Prelude.{◌≡◌, ◌<◌, ◌≤◌, ◌++◌, ◌∷◌, [], None, IfOk, OnOk, length};
ghost use Rattle.line_fields.specs.Lines.{fields};
ghost use Rattle.space3.specs.declared.mesh.TheConstants.{NODE_LIMIT};
ghost use Rattle.space3.specs.Box.{IsInTheBox};
ghost use Rattle.mesh_words.specs.Numbers.{position_of};
ghost use Rattle.msh_text.specs.MeshText.{kept};
ghost use Rattle.msh_text.specs.FirstFault.{fault_at, Outside, Skipping, AtFormat, AtFormatEnd, AtNodeCount, AtNodes, AtElementCount, AtElements, end_kind};
ghost use Rattle.msh_text.specs.Calls.Reading.{Opens, Steps, at, progress_of};

use crate::refusal::{MshErr, ReadMshErr};
use crate::stage::{NodeCount, Nodes, Opened, Reader, ReaderStage};
use mesh_words::{MshKind, ends_section, section_name};
use msh_rows::{
    Node, Opening, RowErr, read_count, read_element, read_end, read_format, read_node,
    read_node_count, section_opening,
};
use space3::Tet;
use std::alloc::{AllocError, Global};

/// One row more.
pub(crate) fn step<'a>(
    alloc: Global,
    reader: Reader<'a>,
    line: usize,
    row: &'a [u8],
) -> Result<Reader<'a>, ReadMshErr>
    ensures { Steps result (progress_of reader.entry) line (fields row.now) }
{
    match reader.stage {
        ReaderStage::Outside(last) => outside(reader, last, line, row),
        ReaderStage::Skipping(last, name) => skipping(reader, last, name, line, row),
        ReaderStage::AtFormat => at_format(reader, line, row),
        ReaderStage::AtFormatEnd => at_format_end(reader, line, row),
        ReaderStage::AtNodeCount => at_node_count(reader, line, row),
        ReaderStage::AtNodes(counted) => at_nodes(reader, counted, line, row),
        ReaderStage::AtElementCount => at_element_count(reader, line, row),
        ReaderStage::AtElements(0) => at_elements_end(reader, line, row),
        ReaderStage::AtElements(left) => at_element(alloc, reader, left, line, row),
    }
}

fn refusal(line: usize, kind: MshKind) -> ReadMshErr
    ensures { result ≡ ReadMshErr.Text (fault_at line kind) }
{
    ReadMshErr::Text(MshErr {
        line: line as u64,
        kind,
    })
}

#[tactic(auto, unfolding(crate::specs::FirstFault::kind_on, crate::specs::FirstFault::next))]
fn outside<'a>(
    reader: Reader<'a>,
    last: Opened,
    line: usize,
    row: &'a [u8],
) -> Result<Reader<'a>, ReadMshErr>
    ensures { Steps result (at (Outside last) reader.entry) line (fields row.now) }
{
    let stage = match stage_after_opening(section_opening(row), last, row) {
        Ok(stage) => stage,
        Err(kind) => return Err(refusal(line, kind)),
    };
    Ok(Reader { stage, ..reader })
}

/// The stage after a row outside of sections, which opens a section or none.
fn stage_after_opening<'a>(
    opening: Opening,
    last: Opened,
    row: &'a [u8],
) -> Result<ReaderStage<'a>, MshKind>
    ensures { Opens result opening last (fields row.now) }
{
    match opening {
        Opening::Format => match last {
            Opened::Nothing => Ok(ReaderStage::AtFormat),
            _ => Err(MshKind::Misplaced),
        },
        Opening::Nodes => match last {
            Opened::Nothing => Err(MshKind::NoFormat),
            Opened::Format => Ok(ReaderStage::AtNodeCount),
            _ => Err(MshKind::Misplaced),
        },
        Opening::Elements => match last {
            Opened::Nothing => Err(MshKind::NoFormat),
            Opened::Nodes => Ok(ReaderStage::AtElementCount),
            _ => Err(MshKind::Misplaced),
        },
        Opening::Other => Ok(ReaderStage::Skipping(last, section_name(row))),
        Opening::Nothing => Ok(ReaderStage::Outside(last)),
    }
}

#[tactic(auto, unfolding(crate::specs::FirstFault::kind_on, crate::specs::FirstFault::next))]
fn skipping<'a>(
    reader: Reader<'a>,
    last: Opened,
    name: &'a [u8],
    line: usize,
    row: &'a [u8],
) -> Result<Reader<'a>, ReadMshErr>
    ensures { Steps result (at (Skipping last name.now) reader.entry) line (fields row.now) }
{
    let _ = line;
    if ends_section(row, name) {
        Ok(Reader {
            stage: ReaderStage::Outside(last),
            ..reader
        })
    } else {
        Ok(Reader {
            stage: ReaderStage::Skipping(last, name),
            ..reader
        })
    }
}

#[tactic(auto, unfolding(crate::specs::FirstFault::kind_on, crate::specs::FirstFault::next))]
fn at_format<'a>(reader: Reader<'a>, line: usize, row: &'a [u8]) -> Result<Reader<'a>, ReadMshErr>
    ensures { Steps result (at AtFormat reader.entry) line (fields row.now) }
{
    match read_format(row) {
        Ok(()) => Ok(Reader {
            stage: ReaderStage::AtFormatEnd,
            ..reader
        }),
        Err(kind) => Err(refusal(line, kind)),
    }
}

#[tactic(auto, unfolding(crate::specs::FirstFault::kind_on, crate::specs::FirstFault::next))]
fn at_format_end<'a>(
    reader: Reader<'a>,
    line: usize,
    row: &'a [u8],
) -> Result<Reader<'a>, ReadMshErr>
    ensures { Steps result (at AtFormatEnd reader.entry) line (fields row.now) }
{
    match read_end(row, b"$EndMeshFormat") {
        Ok(()) => Ok(Reader {
            stage: ReaderStage::Outside(Opened::Format),
            ..reader
        }),
        Err(kind) => Err(refusal(line, kind)),
    }
}

#[tactic(auto, unfolding(crate::specs::FirstFault::kind_on, crate::specs::FirstFault::next))]
fn at_node_count<'a>(
    reader: Reader<'a>,
    line: usize,
    row: &'a [u8],
) -> Result<Reader<'a>, ReadMshErr>
    ensures { Steps result (at AtNodeCount reader.entry) line (fields row.now) }
{
    match read_node_count(row) {
        Ok(count) => Ok(Reader {
            stage: ReaderStage::AtNodes(NodeCount { count }),
            ..reader
        }),
        Err(kind) => Err(refusal(line, kind)),
    }
}

fn at_nodes<'a>(
    reader: Reader<'a>,
    counted: NodeCount,
    line: usize,
    row: &'a [u8],
) -> Result<Reader<'a>, ReadMshErr>
    ensures { Steps result (at (AtNodes counted.count) reader.entry) line (fields row.now) }
{
    if reader.nodes.index.len() < counted.count as usize {
        at_node(reader, counted, line, row)
    } else {
        at_nodes_end(reader, counted, line, row)
    }
}

#[tactic(auto, unfolding(crate::specs::FirstFault::kind_on, crate::specs::FirstFault::next))]
fn at_node<'a>(
    reader: Reader<'a>,
    counted: NodeCount,
    line: usize,
    row: &'a [u8],
) -> Result<Reader<'a>, ReadMshErr>
    requires { length reader.nodes.index < counted.count }
    ensures { Steps result (at (AtNodes counted.count) reader.entry) line (fields row.now) }
{
    match read_node(
        &reader.nodes.index,
        row,
        reader.grid.digits,
        reader.grid.snap,
    ) {
        Ok(node) => {
            let nodes = with_node(reader.nodes, node)?;
            Ok(Reader {
                stage: ReaderStage::AtNodes(counted),
                nodes,
                ..reader
            })
        }
        Err(kind) => Err(refusal(line, kind)),
    }
}

/// These nodes and a new one after them.
fn with_node(nodes: Nodes, node: Node) -> Result<Nodes, AllocError>
    requires fresh { position_of nodes.index node.number ≡ None }
    requires room { length nodes.index < NODE_LIMIT }
    requires in_box { IsInTheBox node.place }
    ensures index { IfOk result (λ more. more.index ≡ nodes.index ++ node.number ∷ []) }
    ensures places { IfOk result (λ more. more.places.items ≡ nodes.places.items ++ node.place ∷ []) }
{
    let Nodes { index, places } = nodes;
    let mut places = places;
    let index = index.with(node.number)?;
    places.push(node.place)?;
    Ok(Nodes { index, places })
}

#[tactic(auto, unfolding(crate::specs::FirstFault::kind_on, crate::specs::FirstFault::next))]
fn at_nodes_end<'a>(
    reader: Reader<'a>,
    counted: NodeCount,
    line: usize,
    row: &'a [u8],
) -> Result<Reader<'a>, ReadMshErr>
    requires { counted.count ≤ length reader.nodes.index }
    ensures { Steps result (at (AtNodes counted.count) reader.entry) line (fields row.now) }
{
    match read_end(row, b"$EndNodes") {
        Ok(()) => Ok(Reader {
            stage: ReaderStage::Outside(Opened::Nodes),
            ..reader
        }),
        Err(kind) => Err(refusal(line, kind)),
    }
}

#[tactic(auto, unfolding(crate::specs::FirstFault::kind_on, crate::specs::FirstFault::next))]
fn at_element_count<'a>(
    reader: Reader<'a>,
    line: usize,
    row: &'a [u8],
) -> Result<Reader<'a>, ReadMshErr>
    ensures { Steps result (at AtElementCount reader.entry) line (fields row.now) }
{
    match read_count(row) {
        Ok(left) => Ok(Reader {
            stage: ReaderStage::AtElements(left),
            ..reader
        }),
        Err(kind) => Err(refusal(line, kind)),
    }
}

#[tactic(auto, unfolding(crate::specs::FirstFault::kind_on, crate::specs::FirstFault::next))]
fn at_elements_end<'a>(
    reader: Reader<'a>,
    line: usize,
    row: &'a [u8],
) -> Result<Reader<'a>, ReadMshErr>
    ensures { Steps result (at (AtElements 0) reader.entry) line (fields row.now) }
{
    match read_end(row, b"$EndElements") {
        Ok(()) => Ok(Reader {
            stage: ReaderStage::Outside(Opened::Elements),
            ..reader
        }),
        Err(kind) => Err(refusal(line, kind)),
    }
}

#[tactic(auto, unfolding(crate::specs::FirstFault::kind_on, crate::specs::FirstFault::next))]
fn at_element<'a>(
    alloc: Global,
    reader: Reader<'a>,
    left: u32,
    line: usize,
    row: &'a [u8],
) -> Result<Reader<'a>, ReadMshErr>
    requires { 0 < left }
    ensures { Steps result (at (AtElements left) reader.entry) line (fields row.now) }
{
    let Reader {
        grid,
        stage: _,
        nodes,
        mut tets,
        mut tags,
    } = reader;
    match read_element(alloc, &nodes.index, tets.len(), row, &mut tags) {
        Ok(element) => {
            add_tet(&mut tets, element)?;
            Ok(Reader {
                grid,
                stage: ReaderStage::AtElements(left - 1),
                nodes,
                tets,
                tags,
            })
        }
        Err(RowErr::Memory) => Err(ReadMshErr::Memory),
        Err(RowErr::Kind(kind)) => Err(refusal(line, kind)),
    }
}

/// Adds an element's tetrahedron, if it is one.
fn add_tet(tets: &mut Vec<Tet>, element: Option<Tet>) -> Result<(), AllocError>
    ensures { OnOk result (tets.new.items ≡ tets.old.items ++ kept element) }
{
    match element {
        Some(tet) => {
            tets.push(tet)?;
            Ok(())
        }
        None => Ok(()),
    }
}

/// What is wrong with a text that ends here.
#[tactic(auto, unfolding(crate::specs::FirstFault::end_kind))]
pub(crate) fn kind_at_end(reader: &Reader<'_>) -> Option<MshKind>
    ensures { result ≡ end_kind (progress_of reader.now) }
{
    match reader.stage {
        ReaderStage::Outside(Opened::Nothing) => Some(MshKind::NoFormat),
        ReaderStage::Outside(_) => {
            if reader.tets.as_slice().is_empty() {
                Some(MshKind::NoTets)
            } else {
                None
            }
        }
        _ => Some(MshKind::Truncated),
    }
}
