//! The search for the boxes that touch another one, by the entries of the cells over that one.
ghost use Rattle.std.specs.Prelude.{◌≡◌, ◌+◌, ◌^◌, ◌<◌, ◌≤◌, ◌++◌, ◌∷◌, [], ◌&&◌, IfOk, length, map, filter, int_le, nat_le, if◌then◌else◌};
ghost use Rattle.std.specs.List.{range_with_len};
ghost use Rattle.space3.specs.Boxes.{are_within};
ghost use Rattle.box_grid.specs.Calls.Buckets.{HasKeys, IsParted};
ghost use Rattle.box_grid.specs.Calls.Cells.{AreCells, LiesByTheBox, cells_over, entry_item, is_below, keys_over, touches};

use crate::buckets::Buckets;
use crate::cells::{Cells, cells_over, keys_over};
use crate::entries::{Entry, bound_of};
use crate::limits::LEAST_SIDE;
use space3::{BoundingBox, V3};
use std::alloc::AllocError;

/// What is searched for: the boxes that touch `reached`, at positions from `from` on.
#[derive(Clone, Copy)]
pub(crate) struct Query {
    pub reached: BoundingBox,
    pub from: u32,
}

/// Appends the positions that are searched for of boxes with entries in the cells of this side over the reached one, in
/// any order and perhaps more than once. Answers how many entries were looked at.
pub(crate) fn append_touching_of_level(
    buckets: &Buckets,
    side: u64,
    query: &Query,
    keys: &mut Vec<u32>,
    found: &mut Vec<u32>,
) -> Result<u64, AllocError>
    requires side { LEAST_SIDE ≤ side }
    requires by_box { LiesByTheBox query.now.reached }
    requires parted { IsParted buckets.now.entries buckets.now.starts }
    ensures keys { IfOk result (λ _. HasKeys query.now buckets.now.entries
        (keys_over (cells_over side query.now.reached)) found.old.items found.new.items) }
    ensures tested { IfOk result (λ tested.
        length found.new.items ≤ length found.old.items + tested) }
{
    if buckets.is_empty() {
        return Ok(0);
    }
    let cells = cells_over(side, &query.reached);
    append_touching_over(buckets, &cells, query, keys, found)
}

/// The same for the entries in these cells.
pub(crate) fn append_touching_over(
    buckets: &Buckets,
    cells: &Cells,
    query: &Query,
    keys: &mut Vec<u32>,
    found: &mut Vec<u32>,
) -> Result<u64, AllocError>
    requires cells { AreCells cells.now }
    requires by_box { LiesByTheBox query.now.reached }
    requires parted { IsParted buckets.now.entries buckets.now.starts }
    ensures keys { IfOk result (λ _. HasKeys query.now buckets.now.entries
        (keys_over cells.now) found.old.items found.new.items) }
    ensures tested { IfOk result (λ tested.
        length found.new.items ≤ length found.old.items + tested) }
{
    keys_over(cells, keys)?;
    append_touching_with(buckets, keys, query, found)
}

// The same for the entries with these keys.
fn append_touching_with(
    buckets: &Buckets,
    keys: &[u32],
    query: &Query,
    found: &mut Vec<u32>,
) -> Result<u64, AllocError>
    requires by_box { LiesByTheBox query.now.reached }
    requires parted { IsParted buckets.now.entries buckets.now.starts }
    ensures keys { IfOk result (λ _. HasKeys query.now buckets.now.entries
        keys.now found.old.items found.new.items) }
    ensures tested { IfOk result (λ tested.
        length found.new.items ≤ length found.old.items + tested) }
{
    let mut tested = 0u64;
    for key in keys {
        let part = buckets.with_key(*key);
        append_below(part, &bound_of(query, *key), found)?;
        tested = tested.saturating_add(part.len() as u64);
    }
    Ok(tested)
}

/// Appends all positions that are searched for, in order. Answers how many boxes were looked at.
pub(crate) fn append_all_touching(
    boxes: &[BoundingBox],
    query: &Query,
    found: &mut Vec<u32>,
) -> Result<u64, AllocError>
    requires { length boxes.now < 2 ^ 32 }
    ensures found { IfOk result (λ _. found.new.items ≡ found.old.items
        ++ filter (touches query.now boxes.now) (range_with_len 0 (length boxes.now))) }
    ensures tested { IfOk result (λ tested.
        length found.new.items ≤ length found.old.items + tested) }
{
    for position in 0..boxes.len() {
        let wanted = is_wanted(query, position as u32, &boxes[position]);
        append_where(wanted, position as u32, found)?;
    }
    Ok(boxes.len() as u64)
}

// Appends the positions of those of the entries that are below the bound.
fn append_below(entries: &[Entry], bound: &Entry, found: &mut Vec<u32>) -> Result<(), AllocError>
    ensures items { IfOk result (λ _. found.new.items ≡ found.old.items
        ++ map entry_item (filter (is_below bound.now) entries.now)) }
    ensures tested { IfOk result (λ _.
        length found.new.items ≤ length found.old.items + length entries.now) }
{
    for entry in entries {
        append_where(entry.is_below(bound), entry.item(), found)?;
    }
    Ok(())
}

fn append_where(wanted: bool, position: u32, found: &mut Vec<u32>) -> Result<(), AllocError>
    ensures items { IfOk result (λ _. found.new.items ≡
        found.old.items ++ (if wanted then position ∷ [] else [])) }
    ensures one { IfOk result (λ _. length found.new.items ≤ length found.old.items + 1) }
{
    if wanted {
        found.push(position)?;
    }
    Ok(())
}

// Whether a box is searched for, with its position.
fn is_wanted(query: &Query, position: u32, around: &BoundingBox) -> bool
    ensures { result ≡ (nat_le query.now.from position && are_within 0 query.now.reached around.now) }
{
    query.from <= position && do_touch(&query.reached, around)
}

// Whether the two boxes have a common point.
fn do_touch(a: &BoundingBox, b: &BoundingBox) -> bool
    ensures { result ≡ are_within 0 a.now b.now }
{
    is_before(b.least, a.greatest) && is_before(a.least, b.greatest)
}

// Whether no component of `a` is greater than that of `b`.
fn is_before(a: V3, b: V3) -> bool
    ensures { result ≡ (int_le a.x b.x && int_le a.y b.y && int_le a.z b.z) }
{
    (a.x <= b.x) & (a.y <= b.y) & (a.z <= b.z)
}
