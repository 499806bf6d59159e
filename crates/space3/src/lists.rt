//! The lists of a mesh, each seen as the list that it holds.
ghost use Rattle.std.specs.Prelude.{◌≡◌, ◌^◌, ◌≤◌, ◌<◌, ◌↔◌, IfOk, IsOk, IfSome, IsSome, OnOk, length, slice_get, Some, List, All};

use crate::vectors::V3;
use smallvec::SmallVec;
use std::alloc::{AllocError, Global};
use std::marker::Model;

/// The tags of an element, in order. Up to two lie in the value itself.
#[derive(Drop)]
pub struct Tags {
    list: SmallVec<i32, 2>,
}

impl Model for Tags {
    ghost use Rattle.std.specs.Prelude.{List, ℤ};

    ghost Value = { List ℤ };

    ghost view = { λ t. t.list.items };
}

impl Tags {
    /// The list of these tags. Only a list of more than two asks for memory.
    pub fn of_slice(alloc: Global, tags: &[i32]) -> Result<Self, AllocError>
        ensures list { IfOk result (λ t. t ≡ tags.now) }
        ensures short { length tags.now ≤ 2 → IsOk result }
    {
        Ok(Tags {
            list: SmallVec::from_slice(alloc, tags)?,
        })
    }

    /// The tags, in order.
    pub fn items(&self) -> &[i32]
        ensures { result.now ≡ self.now }
    {
        self.list.as_slice()
    }
}

/// Node numbers, as they stand in the file.
#[derive(Drop)]
pub struct NodeNumbers {
    list: Vec<u32>,
}

impl Model for NodeNumbers {
    ghost use Rattle.std.specs.Prelude.{List, ℕ};

    ghost Value = { List ℕ };

    ghost view = { λ n. n.list.items };
}

impl NodeNumbers {
    /// The list of these numbers.
    pub fn of_vec(items: Vec<u32>) -> Self
        ensures { result ≡ items.items }
    {
        NodeNumbers { list: items }
    }

    /// The numbers, in order.
    pub fn items(&self) -> &[u32]
        ensures { result.now ≡ self.now }
    {
        self.list.as_slice()
    }
}

/// A tetrahedron: its number in the file, the positions of its four nodes in the mesh's node list, and its tags.
#[derive(Drop)]
pub struct Tet {
    pub number: u32,
    pub nodes: [u32; 4],
    pub tags: Tags,
}

/// Tetrahedra, in the file's order.
#[derive(Drop)]
pub struct TetList {
    list: Vec<Tet>,
}

impl Model for TetList {
    ghost use Rattle.std.specs.Prelude.{List};
    ghost use Rattle.space3.specs.declared.lists.Tet.{Tet};

    ghost Value = { List Tet };

    ghost view = { λ t. t.list.items };
}

impl TetList {
    /// The list of these tetrahedra.
    pub fn of_vec(items: Vec<Tet>) -> Self
        ensures { result ≡ items.items }
    {
        TetList { list: items }
    }

    /// The tetrahedra, in order.
    pub fn items(&self) -> &[Tet]
        ensures { result.now ≡ self.now }
    {
        self.list.as_slice()
    }
}
