//! The entries of a level's boxes, in buckets.
ghost use Rattle.std.specs.Prelude.{◌≡◌, ◌^◌, ◌<◌, ◌≤◌, ℕ, true, IfOk, length, All, slice_index_or};
ghost use Rattle.std.specs.List.Sorted.{IsNonDecreasingBy};
ghost use Rattle.box_grid.specs.declared.entries.Entry.{Entry};
ghost use Rattle.box_grid.specs.Near.{LiesInTheBox};
ghost use Rattle.box_grid.specs.Calls.Buckets.{IsPart, IsPartedAt, IsParted, IsLevel, bucket_of};
ghost use Rattle.box_grid.specs.Calls.Cells.{entry_key};

use crate::entries::{Entry, entries_of_boxes};
use crate::limits::{LEAST_SIDE, MOST_BUCKETS};
use crate::sizes::Level;
use space3::BoundingBox;
use std::alloc::{AllocError, Global};
use std::marker::Model;

/// Entries sorted by their keys, in buckets that have as many keys each, and where in the list each bucket begins. What
/// stands last is where the last one ends.
#[derive(Drop)]
pub(crate) struct Buckets {
    entries: Vec<Entry>,
    starts: Vec<usize>,
}

impl Model for Buckets {
    ghost use Rattle.box_grid.specs.Calls.Buckets.{Bucketed};

    ghost Value = { Bucketed };

    ghost view = { λ b. record { entries = b.entries.items; starts = b.starts.items } };
}

impl Buckets {
    /// The entries of the level's boxes, with about a bucket for each.
    pub fn of_boxes(alloc: Global, level: Level, boxes: &[BoundingBox]) -> Result<Self, AllocError>
        requires side { LEAST_SIDE ≤ level.side }
        requires few { length boxes.now < 2 ^ 32 }
        requires in_box { All LiesInTheBox boxes.now }
        ensures { IfOk result (IsLevel level boxes.now) }
    {
        let entries = entries_of_boxes(alloc, level, boxes)?;
        let count = (entries.len() as u64).min(MOST_BUCKETS - 1) + 1;
        let starts = starts_of(alloc, &entries, count)?;
        Ok(Buckets { entries, starts })
    }

    /// Whether there is no entry.
    pub fn is_empty(&self) -> bool
        ensures { result ≡ true → length self.now.entries ≡ 0 }
    {
        self.entries.is_empty()
    }

    /// The entries of the bucket that has this key.
    pub fn with_key(&self, key: u32) -> &[Entry]
        requires { IsParted self.now.entries self.now.starts }
        ensures { IsPart self.now.entries key result.now }
    {
        let count = self.starts.len() as u64 - 1;
        let bucket = bucket_of(count, key) as usize;
        let start = self.starts[bucket];
        let many = self.starts[bucket + 1] - start;
        let (_, rest) = self.entries.split_at(start);
        let (part, _) = rest.split_at(many);
        part
    }
}

// The bucket of a key: keys from the least on are shared out evenly.
#[tactic(auto, unfolding(crate::specs::Calls::Buckets::bucket_of))]
fn bucket_of(count: u64, key: u32) -> u64
    requires some { 0 < count }
    requires few { count ≤ MOST_BUCKETS }
    ensures value { result ≡ bucket_of count key }
    ensures bound { result < count }
{
    u64::from(key) * count / 4_294_967_296
}

// Where in the sorted entries each of so many buckets begins, and where the last one ends.
fn starts_of(alloc: Global, entries: &[Entry], count: u64) -> Result<Vec<usize>, AllocError>
    requires some { 0 < count }
    requires few { count ≤ MOST_BUCKETS }
    requires sorted { IsNonDecreasingBy entry_key entries.now }
    ensures { IfOk result (λ starts. IsParted entries.now starts.items) }
{
    let mut starts = Vec::with_capacity(alloc, count as usize + 1)?;
    let mut start = 0;
    for bucket in 0..count + 1 {
        start = first_from(entries, start, count, bucket);
        starts.push(start)?;
    }
    Ok(starts)
}

// Where the entries of this bucket begin, or those of later ones: from a place on before which there are none.
fn first_from(entries: &[Entry], start: usize, count: u64, bucket: u64) -> usize
    requires some { 0 < count }
    requires few { count ≤ MOST_BUCKETS }
    requires sorted { IsNonDecreasingBy entry_key entries.now }
    requires start { start ≤ length entries.now }
    requires below { (k : ℕ) (d : Entry) → k < start →
        bucket_of count (entry_key (slice_index_or entries.now k d)) < bucket }
    ensures { IsPartedAt entries.now count bucket result }
{
    for k in start..entries.len() {
        if bucket <= bucket_of(count, entries[k].key()) {
            return k;
        }
    }
    entries.len()
}
