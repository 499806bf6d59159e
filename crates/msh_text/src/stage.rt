//! Where the reader of a mesh text stands, and what it has read.
ghost use Rattle.std.specs.Prelude.{◌≡◌, ◌≤◌, All, length};
ghost use Rattle.dec_text.specs.declared.TheConstants.{FINEST_GRID};
ghost use Rattle.space3.specs.declared.mesh.TheConstants.{NODE_LIMIT};
ghost use Rattle.space3.specs.Box.{IsInTheBox};

use dec_text::Snap;
use mesh_words::NodeIndex;
use space3::{Tet, V3};

/// Which of the three sections was the last to open.
#[derive(Clone, Copy, Debug, PartialEq, Eq)]
pub enum Opened {
    Nothing,
    Format,
    Nodes,
    Elements,
}

/// How coordinates are read: with so many digits after the point, and what is done with others.
#[derive(Clone, Copy)]
pub(crate) struct Grid {
    pub digits: u8,
    pub snap: Snap,
    pub ghost fine: { digits ≤ FINEST_GRID },
}

/// How many nodes are counted.
#[derive(Clone, Copy)]
pub(crate) struct NodeCount {
    pub count: u32,
    pub ghost few: { count ≤ NODE_LIMIT },
}

/// Where the reader stands: before a row outside of sections, or inside of one.
#[derive(Clone, Copy)]
pub(crate) enum ReaderStage<'a> {
    Outside(Opened),
    Skipping(Opened, &'a [u8]),
    AtFormat,
    AtFormatEnd,
    AtNodeCount,
    AtNodes(NodeCount),
    AtElementCount,
    /// So many elements are to come.
    AtElements(u32),
}

/// Nodes in the order of the text: their numbers and their places.
#[derive(Drop)]
pub(crate) struct Nodes {
    pub index: NodeIndex,
    pub places: Vec<V3>,
    pub ghost placed: { length places.items ≡ length index },
    pub ghost few: { length index ≤ NODE_LIMIT },
    pub ghost in_box: { All IsInTheBox places.items },
}

/// A reader: how it reads coordinates, where it stands, and the mesh so far. `tags` is room for the tags of an element.
#[derive(Drop)]
pub(crate) struct Reader<'a> {
    pub grid: Grid,
    pub stage: ReaderStage<'a>,
    pub nodes: Nodes,
    pub tets: Vec<Tet>,
    pub tags: Vec<i32>,
}
