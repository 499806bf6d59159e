//! Reading a mesh text.
ghost use Rattle.std.specs.Prelude.{◌≡◌, ◌≤◌, [], IfOk, IfErr, length};
ghost use Rattle.dec_text.specs.declared.TheConstants.{FINEST_GRID};
ghost use Rattle.line_fields.specs.Lines.{lines, numbered};
ghost use Rattle.msh_text.specs.FirstFault.{start};
ghost use Rattle.msh_text.specs.Texts.{TextMeans, Refuses};
ghost use Rattle.msh_text.specs.Calls.Reading.{Gives, IsMesh, progress_of, read as read_from};

use crate::refusal::{MshErr, ReadMshErr};
use crate::stage::{Grid, Nodes, Opened, Reader, ReaderStage};
use crate::steps::{kind_at_end, step};
use dec_text::Snap;
use line_fields::{line_count, next_line};
use mesh_words::NodeIndex;
use space3::{Mesh, NodeNumbers, Places, TetList};
use std::alloc::Global;

/// The mesh that a text in Gmsh's MSH 2.2 ASCII means, with coordinates on the grid of `digits` digits after the point, 0
/// to 9, as `to_grid` of `dec_text` reads them; or the text's first fault: its line and kind.
///
/// Points, lines and triangles are checked and left out; sections of other names are skipped.
pub fn read_msh(alloc: Global, bytes: &[u8], digits: u8, snap: Snap) -> Result<Mesh, ReadMshErr>
    requires { digits ≤ FINEST_GRID }
    // What is read is what the text means.
    ensures accepted { IfOk result (λ mesh. TextMeans bytes.now digits snap mesh) }
    // A text is refused with its first fault.
    ensures refused { IfErr result (λ e. Refuses bytes.now digits snap e) }
{
    match read(alloc, bytes, digits, snap) {
        Ok(mesh) => Ok(mesh),
        Err(e) => Err(e),
    }
}

fn read(alloc: Global, text: &[u8], digits: u8, snap: Snap) -> Result<Mesh, ReadMshErr>
    requires { digits ≤ FINEST_GRID }
    ensures { Gives (λ mesh. mesh) result
        (read_from (start digits snap) (numbered text.now) (length (lines text.now))) }
{
    let mut reader = Reader {
        grid: Grid { digits, snap },
        stage: ReaderStage::Outside(Opened::Nothing),
        nodes: no_nodes(alloc),
        tets: Vec::new(alloc),
        tags: Vec::new(alloc),
    };
    let mut rest = text;
    let mut first = 1usize;
    while let Some((line, row, after)) = next_line(rest, first) {
        reader = step(alloc, reader, line, row)?;
        rest = after;
        first = line + 1;
    }
    match kind_at_end(&reader) {
        None => mesh_of(alloc, reader),
        Some(kind) => Err(ReadMshErr::Text(MshErr {
            line: line_count(text) as u64,
            kind,
        })),
    }
}

fn no_nodes(alloc: Global) -> Nodes
    ensures index { result.index ≡ [] }
    ensures places { result.places.items ≡ [] }
{
    Nodes {
        index: NodeIndex::new(alloc),
        places: Vec::new(alloc),
    }
}

/// The mesh that has been read.
fn mesh_of(alloc: Global, reader: Reader<'_>) -> Result<Mesh, ReadMshErr>
    ensures { IsMesh result (progress_of reader.entry).mesh }
{
    let Reader { nodes, tets, .. } = reader;
    let Nodes { index, places } = nodes;
    let Some(places) = Places::of_list(alloc, &places)? else {
        unreachable!()
    };
    Ok(Mesh {
        numbers: NodeNumbers::of_vec(index.into_numbers()),
        places,
        tets: TetList::of_vec(tets),
    })
}
