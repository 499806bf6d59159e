//! Where the node of a number stands.
ghost use Rattle.std.specs.Prelude.{◌≡◌, ◌==◌, ◌<◌, ◌++◌, ◌∷◌, [], ℕ, IfOk, None, length, slice_index, if◌then◌else◌};
ghost use Rattle.space3.specs.declared.mesh.TheConstants.{NODE_LIMIT};
ghost use Rattle.mesh_words.specs.Numbers.{position_of};
ghost use Rattle.mesh_words.specs.Index.{entry_of};

use std::alloc::{AllocError, Global};
use std::collections::BTreeMap;
use std::marker::Model;

/// The least node number that is looked up in a tree: those below it are entries of a table, 2^20 of four bytes at most.
pub const NEAR_LIMIT: u32 = 1_048_576;

/// The numbers of nodes in the order of the text, all different, at most [`space3::NODE_LIMIT`]: a list that knows where
/// each number stands. A number below [`NEAR_LIMIT`] is found in a table that is as long as the greatest such number,
/// another one in a tree.
#[derive(Drop)]
pub struct NodeIndex {
    numbers: Vec<u32>,
    near: Vec<u32>,
    far: BTreeMap<u32, u32>,
}

impl Model for NodeIndex {
    ghost use Rattle.std.specs.Prelude.{List, ℕ};
    ghost use Rattle.std.specs.Ordering.{nat_cmp};
    ghost use Rattle.std.specs.BTreeMap.{get};
    ghost use Rattle.mesh_words.specs.Index.{IsIndex};

    ghost Value = { List ℕ };

    ghost view = { λ i. i.numbers.items };

    ghost invariant = { λ i. IsIndex i.numbers.items i.near.items (get nat_cmp i.far) };
}

impl NodeIndex {
    /// No numbers.
    pub fn new(alloc: Global) -> NodeIndex
        ensures { result ≡ [] }
    {
        NodeIndex {
            numbers: Vec::new(alloc),
            near: Vec::new(alloc),
            far: BTreeMap::new(alloc),
        }
    }

    /// How many numbers there are.
    pub fn len(&self) -> usize
        ensures { result ≡ length self.now }
    {
        self.numbers.len()
    }

    /// Where a number stands, counted from 0; nothing where it is new.
    pub fn position(&self, number: u32) -> Option<u32>
        ensures { result ≡ position_of self.now number }
    {
        if number < NEAR_LIMIT {
            near_position(&self.near, number)
        } else {
            self.far.get(&number).copied()
        }
    }

    /// These numbers and a new one after them.
    pub fn with(self, number: u32) -> Result<NodeIndex, AllocError>
        requires fresh { position_of self number ≡ None }
        requires room { length self < NODE_LIMIT }
        ensures { IfOk result (λ more. more ≡ self ++ number ∷ []) }
    {
        let NodeIndex {
            mut numbers,
            near,
            mut far,
        } = self;
        let position = numbers.len() as u32;
        numbers.push(number)?;
        if number < NEAR_LIMIT {
            let near = with_entry(near, number, position + 1)?;
            return Ok(NodeIndex { numbers, near, far });
        }
        far.insert(number, position)?;
        Ok(NodeIndex { numbers, near, far })
    }

    /// The numbers, in order.
    pub fn into_numbers(self) -> Vec<u32>
        ensures { result.items ≡ self }
    {
        let NodeIndex { numbers, .. } = self;
        numbers
    }
}

fn near_position(near: &[u32], number: u32) -> Option<u32>
    ensures { result ≡ entry_of (slice_index near.now number) }
{
    let place = number as usize;
    let entry = if place < near.len() { near[place] } else { 0 };
    if entry == 0 { None } else { Some(entry - 1) }
}

/// The table with this entry, and zeros up to it where it was shorter.
fn with_entry(near: Vec<u32>, number: u32, entry: u32) -> Result<Vec<u32>, AllocError>
    ensures { IfOk result (λ more. (k : ℕ)
        → slice_index more.items k ≡ (if k == number then entry else slice_index near.items k)) }
{
    let mut near = near;
    let place = number as usize;
    if near.len() <= place {
        near.resize(place + 1, 0)?;
    }
    near[place] = entry;
    Ok(near)
}
