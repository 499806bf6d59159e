//! The walk over first parts, for each of which a grid gives the second parts that are near.
ghost use Rattle.std.specs.Prelude.{◌≡◌, ◌<◌, ◌≤◌, ◌+◌, ◌^◌, ◌++◌, ◌∷◌, [], IfOk, IfSome, All, List, ℕ, filter, length, map, not, if◌then◌else◌};
ghost use Rattle.std.specs.List.{Contains};
ghost use Rattle.std.specs.List.Sorted.{IsStrictlyIncreasing};
ghost use Rattle.space3.specs.Mesh.{HasNodes};
ghost use Rattle.boundary.specs.Pairs.{first_parts, pair_of, second_parts};
ghost use Rattle.box_grid.specs.Near.{LiesInTheBox};
ghost use Rattle.box_grid.specs.declared.limits.TheConstants.{REACH_LIMIT};
ghost use Rattle.broad_grid.specs.Calls.Counts.{HasCounted};
ghost use Rattle.broad_grid.specs.Calls.Rows.{AreFirst, HasAsMany, IsFirst, are_apart, is_apart_from, is_near_loose, least_second, wanted_row, near_rows, near_rows_of_kinds};
ghost use Rattle.broad_grid.specs.Calls.Walk.{wanted_pairs_of};

use crate::boxes::{PartBoxes, first_boxes, part_boxes, second_grid};
use crate::kept::are_close;
use crate::list::PairList;
use boundary::{Pair, PairKind, Surface, share_node};
use box_grid::{BoxGrid, Room};
use space3::{BoundingBox, Places};
use std::alloc::{AllocError, Global};
use std::slice::from_ref;

/// How many boxes were looked at in search of near ones. The number stays at the greatest of its type once it is there.
#[derive(Clone, Copy, Debug, PartialEq, Eq)]
pub struct BoxTests {
    pub n: u64,
}

/// A first part of a kind's pairs, by its position, and its box.
#[derive(Clone, Copy)]
pub(crate) struct FirstPart {
    pub kind: PairKind,
    pub a: u32,
    pub around: BoundingBox,
}

/// Room for what a search finds, and for those of the second parts that count.
#[derive(Drop)]
struct Search {
    room: Room,
    seconds: Vec<u32>,
}

/// The pairs of these kinds whose parts' boxes are within the reach, where each box holds the corners of its part at
/// both places. If there is a box of what isn't fixed, those are left out whose first part's box isn't within the reach
/// of it.
pub(crate) fn near_pairs(
    alloc: Global,
    surface: &Surface,
    x0: &Places,
    x1: &Places,
    kinds: &[PairKind],
    reach: u32,
    loose: Option<BoundingBox>,
    tests: &mut BoxTests,
) -> Result<PairList, AllocError>
    requires start { HasNodes x0.now surface.now.vertices }
    requires end { HasNodes x1.now surface.now.vertices }
    requires reach { reach ≤ REACH_LIMIT }
    requires loose { IfSome loose LiesInTheBox }
    ensures pairs { IfOk result (λ pairs. pairs ≡
        wanted_pairs_of loose reach surface.now x0.now x1.now kinds.now) }
    ensures tests { tests.old.n ≤ tests.new.n }
    ensures counted { IfOk result (λ pairs. HasCounted tests.old.n tests.new.n 0 (length pairs)) }
{
    let boxes = part_boxes(alloc, surface, x0, x1, reach)?;
    let mut pairs = Vec::new(alloc);
    let mut search = Search {
        room: Room::new(alloc),
        seconds: Vec::new(alloc),
    };
    append_kinds(
        surface,
        &boxes,
        kinds,
        reach,
        loose,
        &mut search,
        tests,
        &mut pairs,
    )?;
    Ok(PairList::of_vec(pairs))
}

// Appends the near pairs of these kinds.
fn append_kinds(
    surface: &Surface,
    boxes: &PartBoxes,
    kinds: &[PairKind],
    reach: u32,
    loose: Option<BoundingBox>,
    search: &mut Search,
    tests: &mut BoxTests,
    pairs: &mut Vec<Pair>,
) -> Result<(), AllocError>
    requires boxes { HasAsMany surface.now boxes.now }
    requires reach { reach ≤ REACH_LIMIT }
    requires loose { IfSome loose LiesInTheBox }
    ensures pairs { IfOk result (λ _. pairs.new.items ≡
        pairs.old.items ++ near_rows_of_kinds loose reach surface.now boxes.now kinds.now) }
    ensures tests { tests.old.n ≤ tests.new.n }
    ensures counted { IfOk result (λ _. HasCounted tests.old.n tests.new.n
        (length pairs.old.items) (length pairs.new.items)) }
{
    for kind in kinds {
        let firsts = first_boxes(boxes, *kind);
        let grid = second_grid(boxes, *kind);
        append_rows(
            surface, *kind, firsts, grid, reach, loose, search, tests, pairs,
        )?;
    }
    Ok(())
}

// Appends the near pairs of a kind.
fn append_rows(
    surface: &Surface,
    kind: PairKind,
    firsts: &[BoundingBox],
    grid: &BoxGrid,
    reach: u32,
    loose: Option<BoundingBox>,
    search: &mut Search,
    tests: &mut BoxTests,
    pairs: &mut Vec<Pair>,
) -> Result<(), AllocError>
    requires firsts { AreFirst surface.now kind firsts.now }
    requires seconds { length grid.now ≡ length (second_parts surface.now kind) }
    requires reach { reach ≤ REACH_LIMIT }
    requires loose { IfSome loose LiesInTheBox }
    ensures pairs { IfOk result (λ _. pairs.new.items ≡
        pairs.old.items ++ near_rows loose reach surface.now kind firsts.now grid.now) }
    ensures tests { tests.old.n ≤ tests.new.n }
    ensures counted { IfOk result (λ _. HasCounted tests.old.n tests.new.n
        (length pairs.old.items) (length pairs.new.items)) }
{
    for a in 0..firsts.len() {
        let first = FirstPart {
            kind,
            a: a as u32,
            around: firsts[a],
        };
        append_row(surface, first, grid, reach, loose, search, tests, pairs)?;
    }
    Ok(())
}

// Appends the near pairs of a first part.
fn append_row(
    surface: &Surface,
    first: FirstPart,
    grid: &BoxGrid,
    reach: u32,
    loose: Option<BoundingBox>,
    search: &mut Search,
    tests: &mut BoxTests,
    pairs: &mut Vec<Pair>,
) -> Result<(), AllocError>
    requires first { IsFirst surface.now first }
    requires seconds { length grid.now ≡ length (second_parts surface.now first.kind) }
    requires reach { reach ≤ REACH_LIMIT }
    requires loose { IfSome loose LiesInTheBox }
    ensures pairs { IfOk result (λ _. pairs.new.items ≡
        pairs.old.items ++ wanted_row loose reach surface.now first grid.now) }
    ensures tests { tests.old.n ≤ tests.new.n }
    ensures counted { IfOk result (λ _. HasCounted tests.old.n tests.new.n
        (length pairs.old.items) (length pairs.new.items)) }
{
    if !is_near_loose(reach, loose, &first.around) {
        return Ok(());
    }
    let looked_at = grid.near(reach, &first.around, least_second(first), &mut search.room)?;
    tests.n = tests.n.saturating_add(looked_at);
    search.seconds.clear();
    append_apart(surface, first, search.room.found(), &mut search.seconds)?;
    keep_ascending(&mut search.seconds);
    append_pairs(first, &search.seconds, pairs)
}

// Whether a box is within the reach of the box of what isn't fixed, if there is one.
fn is_near_loose(reach: u32, loose: Option<BoundingBox>, around: &BoundingBox) -> bool
    requires loose { IfSome loose LiesInTheBox }
    requires around { LiesInTheBox around.now }
    ensures { result ≡ is_near_loose reach loose around.now }
{
    match loose {
        Some(loose) => are_close(reach, &loose, around),
        None => true,
    }
}

// Below this position no second part counts with this first one: of two edges the lower one is first.
fn least_second(first: FirstPart) -> u32
    requires { first.a + 1 < 2 ^ 32 }
    ensures { result ≡ least_second first.kind first.a }
{
    match first.kind {
        PairKind::EE => first.a + 1,
        PairKind::VE | PairKind::VT | PairKind::ET => 0,
    }
}

// Appends those of the second parts found that have no node of the first part.
fn append_apart(
    surface: &Surface,
    first: FirstPart,
    found: &[u32],
    seconds: &mut Vec<u32>,
) -> Result<(), AllocError>
    requires first { IsFirst surface.now first }
    requires there { All (λ b. b < length (second_parts surface.now first.kind)) found.now }
    ensures seconds { IfOk result (λ _. seconds.new.items ≡ seconds.old.items
        ++ filter (are_apart surface.now first.kind first.a) found.now) }
    ensures no_more { IfOk result (λ _.
        length seconds.new.items ≤ length seconds.old.items + length found.now) }
{
    let a = first.a as usize;
    match first.kind {
        PairKind::VE => append_apart_from(
            from_ref(&surface.vertices()[a]),
            surface.edges(),
            found,
            seconds,
        ),
        PairKind::VT => append_apart_from(
            from_ref(&surface.vertices()[a]),
            surface.triangles(),
            found,
            seconds,
        ),
        PairKind::EE => append_apart_from(&surface.edges()[a], surface.edges(), found, seconds),
        PairKind::ET => append_apart_from(&surface.edges()[a], surface.triangles(), found, seconds),
    }
}

// The same of parts of one kind, by their nodes.
fn append_apart_from<const N: usize>(
    nodes: &[u32],
    parts: &[[u32; N]],
    found: &[u32],
    seconds: &mut Vec<u32>,
) -> Result<(), AllocError>
    requires { All (λ b. b < length parts.now) found.now }
    ensures seconds { IfOk result (λ _. seconds.new.items ≡ seconds.old.items
        ++ filter (is_apart_from parts.now nodes.now) found.now) }
    ensures no_more { IfOk result (λ _.
        length seconds.new.items ≤ length seconds.old.items + length found.now) }
{
    for b in found {
        let apart = !share_node(nodes, &parts[*b as usize]);
        append_where(apart, *b, seconds)?;
    }
    Ok(())
}

// Sorts the positions and keeps each once.
fn keep_ascending(positions: &mut Vec<u32>)
    ensures rises { IsStrictlyIncreasing positions.new.items }
    ensures keeps { (x : ℕ) → Contains positions.old.items x → Contains positions.new.items x }
    ensures adds_none { (x : ℕ) → Contains positions.new.items x → Contains positions.old.items x }
    ensures no_more { length positions.new.items ≤ length positions.old.items }
{
    positions.sort_unstable();
    positions.dedup();
}

// Appends the pairs of a first part with these second parts.
fn append_pairs(first: FirstPart, seconds: &[u32], pairs: &mut Vec<Pair>) -> Result<(), AllocError>
    ensures { IfOk result (λ _. pairs.new.items ≡
        pairs.old.items ++ map (pair_of first.kind first.a) seconds.now) }
{
    for b in seconds {
        pairs.push(Pair {
            kind: first.kind,
            a: first.a,
            b: *b,
        })?;
    }
    Ok(())
}

/// Appends an item where it is wanted.
pub(crate) fn append_where<T: Copy>(
    wanted: bool,
    item: T,
    list: &mut Vec<T>,
) -> Result<(), AllocError>
    ensures list { IfOk result (λ _. list.new.items ≡
        list.old.items ++ (if wanted then item ∷ [] else [])) }
    ensures one { IfOk result (λ _. length list.new.items ≤ length list.old.items + 1) }
{
    if wanted {
        list.push(item)?;
    }
    Ok(())
}
