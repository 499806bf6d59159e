//! Cells of a row: a block in a column.
ghost use Rattle.std.specs.Prelude.{◌≡◌, [], ◌^◌, IfOk, IfErr, OnErr};
ghost use Rattle.vec_q.specs.Widths.{AreWithin};
ghost use Rattle.block_rows.specs.Calls.Cells.{wide_entries, wide_matrix};
ghost use Rattle.block_rows.specs.Calls.Entries.{IsAscending, IsSmall, with_entry};
ghost use Rattle.block_rows.specs.Calls.Places.{IsGapFor, IsPlaceOf};

use crate::block::Block;
use crate::wide::{WideBlock, sum_of_blocks};
use std::alloc::{AllocError, Global};
use std::marker::Model;

/// A sum of blocks in a column.
#[derive(Clone, Copy)]
pub(crate) struct WideCell {
    pub column: u32,
    pub block: WideBlock,
}

/// A block in a column.
#[derive(Clone, Copy)]
pub(crate) struct Cell {
    pub column: u32,
    pub block: Block,
}

/// A row of the matrix.
#[derive(Drop)]
pub(crate) struct Row {
    pub cells: Vec<Cell>,
}

impl Model for Row {
    ghost use Rattle.std.specs.Prelude.{List};
    ghost use Rattle.block_rows.specs.Stored.{Entry};

    ghost Value = { List Entry };

    ghost use Rattle.block_rows.specs.Calls.Cells.{short_entries};

    ghost view = { λ r. short_entries r.cells.items };
}

/// A row of sums.
#[derive(Drop)]
pub(crate) struct WideRow {
    cells: Vec<WideCell>,
}

impl Model for WideRow {
    ghost use Rattle.std.specs.Prelude.{List};
    ghost use Rattle.block_rows.specs.Stored.{Entry};

    ghost Value = { List Entry };

    ghost use Rattle.block_rows.specs.Calls.Cells.{wide_entries};

    ghost view = { λ r. wide_entries r.cells.items };
}

impl WideRow {
    // A row without a block.
    pub fn new(alloc: Global) -> Self
        ensures { result ≡ [] }
    {
        WideRow {
            cells: Vec::new(alloc),
        }
    }

    // The cells, in ascending columns.
    pub fn cells(&self) -> &[WideCell]
        ensures { wide_entries result.now ≡ self.now }
    {
        &self.cells
    }

    // Adds a block in its column. Where memory is wanting, the row stays.
    pub fn add(&mut self, column: u32, block: WideBlock) -> Result<(), AllocError>
        requires ascending { IsAscending self.old }
        requires small { IsSmall (2 ^ 125) self.old }
        requires block { AreWithin (2 ^ 125) (wide_matrix block) }
        ensures done { IfOk result (λ _.
            self.new ≡ with_entry column (wide_matrix block) self.old) }
        ensures kept { OnErr result (self.new ≡ self.old) }
    {
        match place_in(&self.cells, column) {
            Ok(at) => {
                let sum = sum_of_blocks(self.cells[at].block, block);
                self.cells[at] = WideCell { column, block: sum };
                Ok(())
            }
            Err(at) => Ok(self.cells.insert(at, WideCell { column, block })?),
        }
    }
}

// Where a column's cell stands, or where it would stand.
fn place_in(cells: &[WideCell], column: u32) -> Result<usize, usize>
    requires { IsAscending (wide_entries cells.now) }
    ensures found { IfOk result (IsPlaceOf cells.now column) }
    ensures absent { IfErr result (IsGapFor cells.now column) }
{
    cells.binary_search_by_key(&column, |cell| cell.column)
}
