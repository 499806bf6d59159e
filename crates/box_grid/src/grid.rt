//! Boxes that are sorted by the cells that they cover.
ghost use Rattle.std.specs.Prelude.{◌≡◌, ◌<◌, ◌≤◌, ◌^◌, [], IfOk, All, length};
ghost use Rattle.box_grid.specs.Near.{HasJust, LiesInTheBox, near_positions};

use crate::buckets::Buckets;
use crate::cells::{cell_count, cells_over, widened};
use crate::limits::{BOXES_A_CELL, REACH_LIMIT};
use crate::search::{Query, append_all_touching, append_touching_of_level, append_touching_over};
use crate::sizes::{Level, common_side, great_side};
use space3::BoundingBox;
use std::alloc::{AllocError, Global};
use std::marker::Model;

/// Room that searches are lent, so that they take no memory each: the positions that the last one found.
#[derive(Drop)]
pub struct Room {
    keys: Vec<u32>,
    found: Vec<u32>,
}

impl Model for Room {
    ghost use Rattle.std.specs.Prelude.{ℕ, List};

    ghost Value = { List ℕ };

    ghost view = { λ r. r.found.items };
}

impl Room {
    /// Room in which nothing was found.
    pub fn new(alloc: Global) -> Self
        ensures { result ≡ [] }
    {
        Room {
            keys: Vec::new(alloc),
            found: Vec::new(alloc),
        }
    }

    /// What the last search found.
    pub fn found(&self) -> &[u32]
        ensures { result.now ≡ self.now }
    {
        self.found.as_slice()
    }
}

/// Boxes in the box of places, and the cells that each covers.
#[derive(Drop)]
pub struct BoxGrid {
    boxes: Vec<BoundingBox>,
    side: u64,
    common: Buckets,
    great_side: u64,
    great: Buckets,
}

impl Model for BoxGrid {
    ghost use Rattle.std.specs.Prelude.{List};
    ghost use Rattle.space3.specs.declared.boxes.BoundingBox.{BoundingBox};
    ghost use Rattle.box_grid.specs.Calls.Buckets.{IsGrid};

    ghost Value = { List BoundingBox };

    ghost view = { λ g. g.boxes.items };

    ghost invariant = { λ g.
        IsGrid g.boxes.items g.side g.common g.great_side g.great };
}

impl BoxGrid {
    /// The grid of these boxes. The reach is one that is often asked for: it guides the size of cells alone.
    pub fn of_boxes(alloc: Global, boxes: Vec<BoundingBox>, reach: u32) -> Result<Self, AllocError>
        requires few { length boxes.items < 2 ^ 32 }
        requires in_box { All LiesInTheBox boxes.items }
        ensures { IfOk result (λ grid. grid ≡ boxes.items) }
    {
        let side = common_side(&boxes, reach);
        let great_side = great_side(&boxes, side);
        let common_level = Level {
            great: false,
            common: side,
            side,
        };
        let great_level = Level {
            great: true,
            common: side,
            side: great_side,
        };
        let common = Buckets::of_boxes(alloc, common_level, &boxes)?;
        let great = Buckets::of_boxes(alloc, great_level, &boxes)?;
        Ok(BoxGrid {
            boxes,
            side,
            common,
            great_side,
            great,
        })
    }

    /// The boxes, in order.
    pub fn boxes(&self) -> &[BoundingBox]
        ensures boxes { result.now ≡ self.now }
        ensures few { length self.now < 2 ^ 32 }
        ensures in_box { All LiesInTheBox self.now }
    {
        self.boxes.as_slice()
    }

    /// Finds the positions, from `from` on, of the boxes whose gap to `around` is at most `reach` grid units along each
    /// axis, in any order and perhaps more than once. The room may hold anything before. Answers how many boxes were
    /// looked at, at least one for each position that is there.
    pub fn near(
        &self,
        reach: u32,
        around: &BoundingBox,
        from: u32,
        room: &mut Room,
    ) -> Result<u64, AllocError>
        requires reach { reach ≤ REACH_LIMIT }
        requires in_box { LiesInTheBox around.now }
        ensures found { IfOk result (λ _. HasJust (near_positions reach around.now from self.now) room.new) }
        ensures counted { IfOk result (λ looked_at. length room.new ≤ looked_at) }
    {
        let query = Query {
            reached: widened(around, reach),
            from,
        };
        let cells = cells_over(self.side, &query.reached);
        room.found.clear();
        if cell_count(&cells) > self.boxes.len() as u64 / BOXES_A_CELL {
            return append_all_touching(&self.boxes, &query, &mut room.found);
        }
        let common = append_touching_over(
            &self.common,
            &cells,
            &query,
            &mut room.keys,
            &mut room.found,
        )?;
        let great = append_touching_of_level(
            &self.great,
            self.great_side,
            &query,
            &mut room.keys,
            &mut room.found,
        )?;
        Ok(common.saturating_add(great))
    }
}
