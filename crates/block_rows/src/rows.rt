//! The matrix as rows of blocks, its exact product with a vector, and its diagonal.
ghost use Rattle.std.specs.Prelude.{◌≡◌, ◌+◌, ◌*◌, ◌^◌, ◌≤◌, ◌<◌, IfOk, length, [], map, All, slice_index_or, slice_set, false, unsigned_abs};
ghost use Rattle.std.specs.List.{range_with_len};
ghost use Rattle.space3.specs.Vectors.{AtMost};
ghost use Rattle.vec_q.specs.Widths.{IsBelow};
ghost use Rattle.block_rows.specs.Tables.{IsVector, cut_table, diagonal_of, product};
ghost use Rattle.block_rows.specs.Stored.{nodes_of, table_of};
ghost use Rattle.block_rows.specs.Calls.Matrices.{AreRows, kept_row, kept_rows};

use crate::cells::{Row, WideRow};
use space3::{V3, W3};
use std::alloc::{AllocError, Global};
use std::marker::Model;

/// A sparse square matrix of 3x3 blocks, with a row of blocks for each node, sorted by column.
#[derive(Drop)]
pub struct Rows {
    rows: Vec<Row>,
}

impl Model for Rows {
    ghost use Rattle.std.specs.Prelude.{List};
    ghost use Rattle.block_rows.specs.Stored.{Entry};

    ghost Value = { List (List Entry) };

    ghost use Rattle.block_rows.specs.Calls.Matrices.{AreRows};

    ghost view = { λ r. r.rows.items };

    ghost invariant = { λ r. AreRows r.rows.items };
}

impl Rows {
    // The matrix of sums, cut, with fixed nodes.
    pub(crate) fn of_sums(
        alloc: Global,
        sums: &[WideRow],
        fixed: &[bool],
    ) -> Result<Self, AllocError>
        requires sums { AreRows sums.now }
        requires each { length fixed.now ≡ length sums.now }
        ensures nodes { IfOk result (λ made. nodes_of made ≡ nodes_of sums.now) }
        ensures table { IfOk result (λ made.
            table_of made ≡ cut_table fixed.now (table_of sums.now)) }
    {
        let rows = kept_rows(alloc, sums, fixed)?;
        Ok(Rows { rows })
    }

    /// How many nodes there are.
    pub fn nodes(&self) -> u32
        ensures count { result ≡ nodes_of self.now }
        ensures few { result ≤ 16384 }
    {
        self.rows.len() as u32
    }

    /// Writes the product with a vector, exactly. Both have three numbers for each node, and those of the vector are
    /// below 2^44 in absolute value. A number of the product is a sum over all nodes, and at most 2^122.
    pub fn times(&self, p: &[i64], out: &mut [i128])
        requires vector { IsVector (nodes_of self.now) p.now }
        requires room { length out.old ≡ 3 * nodes_of self.now }
        ensures product { out.new ≡ product (nodes_of self.now) (table_of self.now) p.now }
        ensures bound { All (AtMost (2 ^ 122)) out.new }
    {
        write_products(&self.rows, p, out);
    }

    /// The diagonal entries of a node, below 2^62 in absolute value.
    pub fn diagonal(&self, node: u32) -> V3
        requires there { node < nodes_of self.now }
        ensures value { result ≡ diagonal_of (table_of self.now node node) }
        ensures small { IsBelow 62 result }
    {
        let row = &self.rows[node as usize];
        row.diagonal(node)
    }
}

// What stays of each row.
fn kept_rows(alloc: Global, sums: &[WideRow], fixed: &[bool]) -> Result<Vec<Row>, AllocError>
    requires sums { AreRows sums.now }
    requires each { length fixed.now ≡ length sums.now }
    ensures { IfOk result (λ made. made.items ≡ kept_rows fixed.now sums.now) }
{
    let mut made = Vec::with_capacity(alloc, sums.len())?;
    for node in 0..sums.len() {
        made.push(kept_row(alloc, node as u32, &sums[node], fixed)?)?;
    }
    Ok(made)
}

// What stays of a node's row.
fn kept_row(alloc: Global, node: u32, sums: &WideRow, fixed: &[bool]) -> Result<Row, AllocError>
    requires there { node < length fixed.now }
    requires inside { All (λ e. e.column < length fixed.now) sums.now }
    ensures { IfOk result (λ made. made ≡ kept_row fixed.now node sums.now) }
{
    if fixed[node as usize] {
        Row::unit(alloc, node)
    } else {
        Row::free(alloc, sums, fixed)
    }
}

// Writes the product of each row with a vector.
fn write_products(rows: &[Row], p: &[i64], out: &mut [i128])
    requires rows { AreRows rows.now }
    requires vector { IsVector (length rows.now) p.now }
    requires room { length out.old ≡ 3 * length rows.now }
    ensures product { out.new ≡ product (length rows.now) (table_of rows.now) p.now }
    ensures bound { All (AtMost (2 ^ 122)) out.new }
{
    for node in 0..rows.len() {
        let sum = rows[node].times(p);
        write_three(out, 3 * node, sum);
    }
}

// Writes three numbers from a place on.
fn write_three(out: &mut [i128], first: usize, sum: W3)
    requires room { first + 2 < length out.old }
    ensures { out.new ≡ slice_set (slice_set (slice_set out.old first sum.x) (first + 1) sum.y)
        (first + 2) sum.z }
{
    out[first] = sum.x;
    out[first + 1] = sum.y;
    out[first + 2] = sum.z;
}
