//! The pairs that touch in a motion, and those that are close at one moment.
ghost use Rattle.std.specs.Prelude.{◌≡◌, ◌+◌, ◌-◌, ◌^◌, ◌≤◌, IfOk, length, min};
ghost use Rattle.space3.specs.Mesh.{HasNodes};
ghost use Rattle.box_grid.specs.declared.limits.TheConstants.{REACH_LIMIT};
ghost use Rattle.broad_grid.specs.NearPairs.{close_pairs_of, swept_pairs_of};

use crate::list::PairList;
use crate::near::{BoxTests, near_pairs};
use boundary::{KINDS, PairKind, Surface};
use space3::Places;
use std::alloc::{AllocError, Global};

/// The kinds whose pairs have a distance of their own: a vertex and a triangle, and two edges.
pub(crate) const CLOSE_KINDS: [PairKind; 2] = [PairKind::VT, PairKind::EE];

/// The pairs of the surface, in the pair order, whose parts' boxes touch: each part's box holds its corners at the
/// start and at the end of a motion. Each vertex has a place in both lists.
pub fn swept_pairs(
    alloc: Global,
    surface: &Surface,
    x0: &Places,
    x1: &Places,
) -> Result<PairList, AllocError>
    requires start { HasNodes x0.now surface.now.vertices }
    requires end { HasNodes x1.now surface.now.vertices }
    ensures { IfOk result (λ pairs. pairs ≡ swept_pairs_of surface.now x0.now x1.now) }
{
    let mut tests = BoxTests { n: 0 };
    swept_pairs_counted(alloc, surface, x0, x1, &mut tests)
}

/// The same pairs. The boxes that were looked at are added to `tests`, one or more for each pair of the answer; at the end
/// of its type the number stands still.
pub fn swept_pairs_counted(
    alloc: Global,
    surface: &Surface,
    x0: &Places,
    x1: &Places,
    tests: &mut BoxTests,
) -> Result<PairList, AllocError>
    requires start { HasNodes x0.now surface.now.vertices }
    requires end { HasNodes x1.now surface.now.vertices }
    ensures pairs { IfOk result (λ pairs. pairs ≡ swept_pairs_of surface.now x0.now x1.now) }
    ensures tests { tests.old.n ≤ tests.new.n }
    ensures counted { IfOk result (λ pairs.
        min (tests.old.n + length pairs) (2 ^ 64 - 1) ≤ tests.new.n) }
{
    near_pairs(alloc, surface, x0, x1, &KINDS, 0, None, tests)
}

/// The pairs of a vertex and a triangle and those of two edges, in the pair order, whose parts' boxes have a gap of at
/// most `reach` grid units along each axis. Each vertex has a place.
pub fn close_pairs(
    alloc: Global,
    surface: &Surface,
    x: &Places,
    reach: u32,
) -> Result<PairList, AllocError>
    requires placed { HasNodes x.now surface.now.vertices }
    requires reach { reach ≤ REACH_LIMIT }
    ensures { IfOk result (λ pairs. pairs ≡ close_pairs_of reach surface.now x.now) }
{
    let mut tests = BoxTests { n: 0 };
    near_pairs(alloc, surface, x, x, &CLOSE_KINDS, reach, None, &mut tests)
}
