//! Blocks of four nodes, added to the sums of a matrix.
ghost use Rattle.std.specs.Prelude.{◌≡◌, ◌+◌, ◌<◌, ◌≤◌, IfOk, All, slice_index};
ghost use Rattle.block_rows.specs.declared.sums.TheConstants.{MOST_ADDED};
ghost use Rattle.block_rows.specs.Stored.{nodes_of};
ghost use Rattle.potential_sum.specs.Calls.Stiffness.{AreFourSmall, AreSixteenSmall, HaveMore};
ghost use Rattle.potential_sum.specs.Calls.Stiffness.{between, block_at, blocks_in, in_row};

use block_rows::Sums;
use std::alloc::AllocError;

/// A block, by its rows.
pub(crate) type Block = [[i128; 3]; 3];

// Adds a block for each two of these nodes.
pub(crate) fn add_blocks(
    sums: &mut Sums,
    nodes: &[u32; 4],
    blocks: &[[Block; 4]; 4],
) -> Result<(), AllocError>
    requires there { All (λ node. node < nodes_of sums.old.rows) nodes.now }
    requires small { AreSixteenSmall blocks.now }
    requires room { sums.old.added + 16 ≤ MOST_ADDED }
    ensures { IfOk result (λ _.
        HaveMore (between nodes.now (blocks_in blocks.now)) 16 sums.old sums.new) }
{
    for i in 0..4 {
        add_row(sums, nodes[i], nodes, &blocks[i])?;
    }
    Ok(())
}

// Adds blocks in the row of a node, one in the column of each of four.
fn add_row(sums: &mut Sums, i: u32, nodes: &[u32; 4], blocks: &[Block; 4]) -> Result<(), AllocError>
    requires row { i < nodes_of sums.old.rows }
    requires columns { All (λ node. node < nodes_of sums.old.rows) nodes.now }
    requires small { AreFourSmall blocks.now }
    requires room { sums.old.added + 4 ≤ MOST_ADDED }
    ensures { IfOk result (λ _.
        HaveMore (in_row i (slice_index nodes.now) (block_at blocks.now) 4) 4 sums.old sums.new) }
{
    for j in 0..4 {
        sums.add(i, nodes[j], &blocks[j])?;
    }
    Ok(())
}
