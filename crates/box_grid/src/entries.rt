//! Entries of the cells that boxes cover, sorted by the cells' keys.
ghost use Rattle.std.specs.Prelude.{◌≡◌, ◌+◌, ◌%◌, ◌^◌, ◌<◌, ◌≤◌, ◌++◌, IfOk, length, map, All};
ghost use Rattle.space3.specs.Vectors.{AtMost, Within};
ghost use Rattle.space3.specs.declared.places.TheConstants.{BOX_LIMIT};
ghost use Rattle.box_grid.specs.declared.entries.Entry.{Entry};
ghost use Rattle.box_grid.specs.declared.limits.TheConstants.{REACH_LIMIT};
ghost use Rattle.box_grid.specs.Near.{LiesInTheBox};
ghost use Rattle.box_grid.specs.Calls.Cells.{IsSortedForm, LiesByTheBox, bound_of, entries_of_boxes, entry_at, entry_item, entry_key, entry_of, is_below, number, numbers_in, numbers_of, numbers_of_boxes, short_item, short_key};

use crate::cells::{cells_over, keys_over};
use crate::limits::LEAST_SIDE;
use crate::search::Query;
use crate::sizes::{Level, has};
use space3::{BoundingBox, V3};
use std::alloc::{AllocError, Global};

/// A box, with its position, that covers the cell with a key; or the bound of a search, below which the entries are that
/// it finds. Eight numbers of 32 bits, which a processor compares at once.
#[derive(Clone, Copy)]
pub(crate) struct Entry {
    /// The components of the least corner.
    x: i32,
    y: i32,
    z: i32,
    /// The components of the greatest corner, with the other sign.
    far_x: i32,
    far_y: i32,
    far_z: i32,
    /// The position, taken from 2^31 - 1.
    item: i32,
    /// The key, less 2^31.
    key: i32,
}

impl Entry {
    /// The key of the cell.
    pub fn key(&self) -> u32
        ensures { result ≡ entry_key self.now }
    {
        (i64::from(self.key) + 2_147_483_648) as u32
    }

    /// The position of the box.
    pub fn item(&self) -> u32
        ensures { result ≡ entry_item self.now }
    {
        (2_147_483_647 - i64::from(self.item)) as u32
    }

    /// Whether no number is above that of the bound.
    pub fn is_below(&self, bound: &Entry) -> bool
        ensures { result ≡ is_below bound.now self.now }
    {
        let near = (self.x <= bound.x) & (self.y <= bound.y) & (self.z <= bound.z);
        let far = (self.far_x <= bound.far_x)
            & (self.far_y <= bound.far_y)
            & (self.far_z <= bound.far_z);
        (self.item <= bound.item) & (near & far) & (self.key <= bound.key)
    }
}

/// The bound of what is searched for among the entries with a key, and with lesser ones.
pub(crate) fn bound_of(query: &Query, key: u32) -> Entry
    requires { LiesByTheBox query.now.reached }
    ensures { result ≡ bound_of query.now key }
{
    let reached = &query.reached;
    numbers_of(&reached.greatest, &reached.least, query.from, key)
}

/// An entry for each cell of each box of the level, sorted by the keys.
pub(crate) fn entries_of_boxes(
    alloc: Global,
    level: Level,
    boxes: &[BoundingBox],
) -> Result<Vec<Entry>, AllocError>
    requires side { LEAST_SIDE ≤ level.side }
    requires few { length boxes.now < 2 ^ 32 }
    requires in_box { All LiesInTheBox boxes.now }
    ensures { IfOk result (λ entries.
        IsSortedForm (entries_of_boxes level boxes.now) entries.items) }
{
    let mut numbers = numbers_of_boxes(alloc, level, boxes)?;
    numbers.sort_unstable();
    entries_of_numbers(alloc, &numbers, boxes)
}

// A number for each cell of each box of the level, made of the cell's key and the box's position. Numbers are sorted at
// less cost than entries.
fn numbers_of_boxes(
    alloc: Global,
    level: Level,
    boxes: &[BoundingBox],
) -> Result<Vec<u64>, AllocError>
    requires side { LEAST_SIDE ≤ level.side }
    requires few { length boxes.now < 2 ^ 32 }
    requires in_box { All LiesInTheBox boxes.now }
    ensures { IfOk result (λ numbers. numbers.items ≡ numbers_of_boxes level boxes.now) }
{
    let mut numbers = Vec::new(alloc);
    let mut keys = Vec::new(alloc);
    for item in 0..boxes.len() {
        append_box(&mut numbers, &mut keys, level, item as u32, &boxes[item])?;
    }
    Ok(numbers)
}

// Appends a number for each cell of the box, where it is of the level.
fn append_box(
    numbers: &mut Vec<u64>,
    keys: &mut Vec<u32>,
    level: Level,
    item: u32,
    around: &BoundingBox,
) -> Result<(), AllocError>
    requires side { LEAST_SIDE ≤ level.side }
    requires in_box { LiesInTheBox around.now }
    ensures { IfOk result (λ _. numbers.new.items ≡
        numbers.old.items ++ numbers_in level around.now item) }
{
    if has(level, around) {
        keys_over(&cells_over(level.side, around), keys)?;
        append_numbers(numbers, item, keys)?;
    }
    Ok(())
}

// Appends a number for each of the keys.
fn append_numbers(numbers: &mut Vec<u64>, item: u32, keys: &[u32]) -> Result<(), AllocError>
    ensures { IfOk result (λ _. numbers.new.items ≡
        numbers.old.items ++ map (λ key. number key item) keys.now) }
{
    for key in keys {
        numbers.push(number(*key, item))?;
    }
    Ok(())
}

// The entries of these numbers.
fn entries_of_numbers(
    alloc: Global,
    numbers: &[u64],
    boxes: &[BoundingBox],
) -> Result<Vec<Entry>, AllocError>
    requires there { All (λ n. n % 4294967296 < length boxes.now) numbers.now }
    requires in_box { All LiesInTheBox boxes.now }
    ensures { IfOk result (λ entries. entries.items ≡ map (entry_of boxes.now) numbers.now) }
{
    let mut entries = Vec::with_capacity(alloc, numbers.len())?;
    for number in numbers {
        let key = (number / 4_294_967_296) as u32;
        let item = (number % 4_294_967_296) as u32;
        entries.push(entry_at(key, item, &boxes[item as usize]))?;
    }
    Ok(entries)
}

// A key and a position as one number.
fn number(key: u32, item: u32) -> u64
    ensures { result ≡ number key item }
{
    u64::from(key) * 4_294_967_296 + u64::from(item)
}

fn entry_at(key: u32, item: u32, around: &BoundingBox) -> Entry
    requires { LiesInTheBox around.now }
    ensures { result ≡ entry_at key item around.now }
{
    numbers_of(&around.least, &around.greatest, item, key)
}

// The numbers of one corner, those of another with the other sign, a position and a key.
fn numbers_of(near: &V3, far: &V3, item: u32, key: u32) -> Entry
    requires near { Within (BOX_LIMIT + REACH_LIMIT) near.now }
    requires far { Within (BOX_LIMIT + REACH_LIMIT) far.now }
    ensures { result ≡ numbers_of near.now far.now item key }
{
    Entry {
        x: short(near.x),
        y: short(near.y),
        z: short(near.z),
        far_x: -short(far.x),
        far_y: -short(far.y),
        far_z: -short(far.z),
        item: short_item(item),
        key: short_key(key),
    }
}

// The component of a corner in fewer bits.
fn short(v: i64) -> i32
    requires { AtMost (BOX_LIMIT + REACH_LIMIT) v }
    ensures { result ≡ v }
{
    v as i32
}

fn short_item(item: u32) -> i32
    ensures { result ≡ short_item item }
{
    (2_147_483_647 - i64::from(item)) as i32
}

fn short_key(key: u32) -> i32
    ensures { result ≡ short_key key }
{
    (i64::from(key) - 2_147_483_648) as i32
}
