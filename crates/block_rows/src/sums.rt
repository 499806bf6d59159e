//! Sums of blocks at pairs of nodes, added in any order.
ghost use Rattle.std.specs.Prelude.{◌≡◌, ◌^◌, ◌≤◌, ◌<◌, IfOk, OnErr, length, [], ◌+◌, replicate};
ghost use Rattle.vec_q.specs.Rows.{matrix_of};
ghost use Rattle.vec_q.specs.Widths.{AreBelow};
ghost use Rattle.block_rows.specs.declared.sums.TheConstants.{MOST_ADDED};
ghost use Rattle.block_rows.specs.Stored.{nodes_of, table_of};
ghost use Rattle.block_rows.specs.Tables.{cut_table, free_table, with_block, zeros};

use crate::cells::WideRow;
use crate::rows::Rows;
use crate::wide::wide_block;
use std::alloc::{AllocError, Global};
use std::marker::Model;

/// The most blocks that are added: with entries below 2^86, no sum is above 2^125 then.
pub const MOST_ADDED: u64 = 1 << 39;

/// Sums of blocks, with a row and a column for each node. In those of fixed nodes nothing is kept.
#[derive(Drop)]
pub struct Sums {
    rows: Vec<WideRow>,
    fixed: Vec<bool>,
    added: u64,
}

impl Model for Sums {
    ghost use Rattle.block_rows.specs.Stored.{StoredSums};

    ghost Value = { StoredSums };

    ghost use Rattle.block_rows.specs.Calls.Matrices.{AreSums};

    ghost view = { λ s. record { rows = s.rows.items; fixed = s.fixed.items; added = s.added } };

    ghost invariant = { λ s. AreSums s.fixed.items s.rows.items s.added };
}

impl Sums {
    /// Sums to which nothing was added, for at most 16384 nodes. A flag for each says whether it is fixed.
    pub fn open(alloc: Global, fixed: &[bool]) -> Result<Self, AllocError>
        requires { length fixed.now ≤ 16384 }
        ensures fixed { IfOk result (λ made. made.fixed ≡ fixed.now) }
        ensures nodes { IfOk result (λ made. nodes_of made.rows ≡ length fixed.now) }
        ensures table { IfOk result (λ made. table_of made.rows ≡ zeros) }
        ensures none { IfOk result (λ made. made.added ≡ 0) }
    {
        let rows = empty_rows(alloc, fixed.len())?;
        let fixed = fixed.to_vec(alloc)?;
        Ok(Sums {
            rows,
            fixed,
            added: 0,
        })
    }

    /// For each node, whether it is fixed.
    pub fn fixed(&self) -> &[bool]
        ensures value { result.now ≡ self.now.fixed }
        ensures each { length result.now ≡ nodes_of self.now.rows }
    {
        &self.fixed
    }

    /// Adds a block, given by its rows, in the row of node `i` and the column of node `j`; where one of them is fixed,
    /// it is counted alone, and takes no memory. Its entries are below 2^86 in absolute value, and fewer than
    /// [`MOST_ADDED`] blocks were added before. Where memory is wanting, the sums stay.
    pub fn add(&mut self, i: u32, j: u32, block: &[[i128; 3]; 3]) -> Result<(), AllocError>
        requires row { i < nodes_of self.old.rows }
        requires column { j < nodes_of self.old.rows }
        requires small { AreBelow 86 (matrix_of block.now) }
        requires room { self.old.added < MOST_ADDED }
        ensures nodes { IfOk result (λ _. nodes_of self.new.rows ≡ nodes_of self.old.rows) }
        ensures fixed { IfOk result (λ _. self.new.fixed ≡ self.old.fixed) }
        ensures table { IfOk result (λ _. table_of self.new.rows ≡ free_table self.old.fixed
            (with_block i j (matrix_of block.now) (table_of self.old.rows))) }
        ensures count { IfOk result (λ _. self.new.added ≡ self.old.added + 1) }
        ensures kept { OnErr result (self.new ≡ self.old) }
    {
        if self.fixed[i as usize] | self.fixed[j as usize] {
            self.added += 1;
            return Ok(());
        }
        let row = &mut self.rows[i as usize];
        row.add(j, wide_block(block))?;
        self.added += 1;
        Ok(())
    }

    /// The matrix of these sums: each entry cut to 62 bits, and rows and columns of fixed nodes those of the unit
    /// matrix.
    pub fn finish(&self, alloc: Global) -> Result<Rows, AllocError>
        ensures nodes { IfOk result (λ made. nodes_of made ≡ nodes_of self.now.rows) }
        ensures table { IfOk result (λ made.
            table_of made ≡ cut_table self.now.fixed (table_of self.now.rows)) }
    {
        Rows::of_sums(alloc, &self.rows, &self.fixed)
    }
}

// Rows without a block.
fn empty_rows(alloc: Global, nodes: usize) -> Result<Vec<WideRow>, AllocError>
    ensures { IfOk result (λ made. made.items ≡ replicate nodes []) }
{
    let mut made = Vec::with_capacity(alloc, nodes)?;
    for _ in 0..nodes {
        made.push(WideRow::new(alloc))?;
    }
    Ok(made)
}
