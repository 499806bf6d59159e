//! Rows of the matrix: what is kept of rows of sums, and the product with a vector.
ghost use Rattle.std.specs.Prelude.{◌≡◌, pos, ◌+◌, ◌*◌, ◌^◌, ◌<◌, ◌≤◌, [], ◌∷◌, ◌++◌, IfOk, length, map, All, slice_index_or, unsigned_abs};
ghost use Rattle.space3.specs.Vectors.{Within};
ghost use Rattle.space3.specs.Wide.{unbounded};
ghost use Rattle.vec_q.specs.Matrices.{unit_times};
ghost use Rattle.vec_q.specs.Raws.{raws};
ghost use Rattle.vec_q.specs.Widths.{IsBelow};
ghost use Rattle.block_rows.specs.Tables.{diagonal_of, three_at};
ghost use Rattle.block_rows.specs.Calls.Cells.{short_entries, wide_entries, wide_entry};
ghost use Rattle.block_rows.specs.Calls.Entries.{free_row};
ghost use Rattle.block_rows.specs.Stored.{block_in, entry};
ghost use Rattle.block_rows.specs.Calls.Products.{entries_times};

use crate::block::Block;
use crate::cells::{Cell, Row, WideCell, WideRow};
use crate::wide::sum_of;
use num_q::Q;
use space3::{V3, W3};
use std::alloc::{AllocError, Global};
use vec_q::VecQ;

impl Row {
    // The row of the unit matrix.
    pub fn unit(alloc: Global, node: u32) -> Result<Self, AllocError>
        ensures { IfOk result (λ made. made ≡ entry node (unit_times (pos 1)) ∷ []) }
    {
        let mut cells = Vec::new(alloc);
        cells.push(Cell {
            column: node,
            block: Block::unit(),
        })?;
        Ok(Row { cells })
    }

    // What stays of a free node's row: blocks in columns of free nodes, cut.
    pub fn free(alloc: Global, sums: &WideRow, fixed: &[bool]) -> Result<Self, AllocError>
        requires { All (λ e. e.column < length fixed.now) sums.now }
        ensures { IfOk result (λ made. made ≡ free_row fixed.now sums.now) }
    {
        let cells = free_cells(alloc, sums.cells(), fixed)?;
        Ok(Row { cells })
    }

    // The product with a vector.
    pub fn times(&self, p: &[i64]) -> W3
        requires few { length self.now ≤ 16384 }
        requires small { All (λ x. unsigned_abs x < 2 ^ 44) p.now }
        requires inside { All (λ e. 3 * e.column + 2 < length p.now) self.now }
        ensures value { unbounded result ≡ entries_times p.now self.now }
        ensures bound { Within (2 ^ 122) (unbounded result) }
    {
        cells_times(&self.cells, p)
    }

    // The diagonal of the block in a column.
    pub fn diagonal(&self, column: u32) -> V3
        ensures value { result ≡ diagonal_of (block_in self.now column) }
        ensures small { IsBelow 62 result }
    {
        diagonal_in(&self.cells, column)
    }
}

fn free_cells(alloc: Global, sums: &[WideCell], fixed: &[bool]) -> Result<Vec<Cell>, AllocError>
    requires { All (λ cell. cell.column < length fixed.now) sums.now }
    ensures { IfOk result (λ made.
        short_entries made.items ≡ free_row fixed.now (wide_entries sums.now)) }
{
    let mut made = Vec::with_capacity(alloc, sums.len())?;
    for cell in sums {
        keep(&mut made, *cell, fixed)?;
    }
    Ok(made)
}

// Adds what stays of a cell.
fn keep(made: &mut Vec<Cell>, cell: WideCell, fixed: &[bool]) -> Result<(), AllocError>
    requires { cell.column < length fixed.now }
    ensures { IfOk result (λ _. short_entries made.new.items ≡
        short_entries made.old.items ++ free_row fixed.now (wide_entry cell ∷ [])) }
{
    if fixed[cell.column as usize] {
        return Ok(());
    }
    let block = Block::cut(cell.block);
    made.push(Cell {
        column: cell.column,
        block,
    })?;
    Ok(())
}

fn cells_times(cells: &[Cell], p: &[i64]) -> W3
    requires few { length cells.now ≤ 16384 }
    requires small { All (λ x. unsigned_abs x < 2 ^ 44) p.now }
    requires inside { All (λ cell. 3 * cell.column + 2 < length p.now) cells.now }
    ensures value { unbounded result ≡ entries_times p.now (short_entries cells.now) }
    ensures bound { Within (2 ^ 122) (unbounded result) }
{
    let mut sum = W3 { x: 0, y: 0, z: 0 };
    for cell in cells {
        let product = cell.block.times(three_at(p, cell.column));
        sum = sum_of(sum, product);
    }
    sum
}

// The three numbers of a node.
fn three_at(p: &[i64], node: u32) -> VecQ<0, 44>
    requires there { 3 * node + 2 < length p.now }
    requires small { All (λ x. unsigned_abs x < 2 ^ 44) p.now }
    ensures { raws result ≡ three_at p.now node }
{
    let first = 3 * node as usize;
    VecQ {
        x: number_at(p, first),
        y: number_at(p, first + 1),
        z: number_at(p, first + 2),
    }
}

fn number_at(p: &[i64], i: usize) -> Q<0, 44>
    requires there { i < length p.now }
    requires small { All (λ x. unsigned_abs x < 2 ^ 44) p.now }
    ensures { result.raw ≡ slice_index_or p.now i (pos 0) }
{
    Q::of_raw(p[i] as i128)
}

fn diagonal_in(cells: &[Cell], column: u32) -> V3
    ensures value { result ≡ diagonal_of (block_in (short_entries cells.now) column) }
    ensures small { IsBelow 62 result }
{
    for cell in cells {
        if cell.column == column {
            return cell.block.diagonal();
        }
    }
    V3 { x: 0, y: 0, z: 0 }
}
