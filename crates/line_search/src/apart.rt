//! Whether the pairs of parts that must not meet are certified to stay apart.
ghost use Rattle.std.specs.Prelude.{◌↔◌, ◌*◌, IfOk, IsTrue, All, length};
ghost use Rattle.boundary.specs.Pairs.{IsPair, part_pair};
ghost use Rattle.pair_cert.specs.Tallies.{RisesAtMost, intervals_within};
ghost use Rattle.safe_motion.specs.declared.depth.TheConstants.{DEPTH};
ghost use Rattle.surface_mesh.specs.Safety.{IsSafeAt, part_pairs};
ghost use Rattle.surface_mesh.specs.Setup.{IsSetup};
ghost use Rattle.line_search.specs.Calls.PairCertificates.{ArePlaced, IsApart};
ghost use Rattle.line_search.specs.Decisions.{most_decisions};

use boundary::{Pair, Surface};
use broad_grid::moving_pairs;
use pair_cert::certify_pair;
use plane_cut::Tally;
use space3::Places;
use std::alloc::{AllocError, Global};
use surface_mesh::Setup;

// Whether each pair of parts that must not meet is certified to stay apart on the way from x to y. Only pairs whose
// boxes touch and of which some node moves are looked at: the others are certified by their boxes, or by standing apart
// at x. The tally counts plane decisions.
pub(crate) fn are_pairs_apart(
    alloc: Global,
    setup: &Setup,
    x: &Places,
    y: &Places,
    tally: &mut Tally,
) -> Result<bool, AllocError>
    requires built { IsSetup setup.now }
    requires safe { IsSafeAt setup.now x.now }
    requires placed { ArePlaced setup.now.surface x.now y.now }
    ensures apart { IfOk result (λ apart.
        IsTrue apart ↔ All (IsApart x.now y.now) (part_pairs setup.now)) }
    ensures tally { RisesAtMost (most_decisions setup.now x.now y.now) tally.old.n tally.new.n }
{
    // Once it is read, the count is known to be one of its type.
    let _count = tally.n;
    let moving = moving_pairs(alloc, &setup.surface, x, y)?;
    Ok(are_apart(&setup.surface, x, y, moving.items(), tally))
}

// Whether each of these pairs is.
fn are_apart(surface: &Surface, x: &Places, y: &Places, pairs: &[Pair], tally: &mut Tally) -> bool
    requires pairs { All (IsPair surface.now) pairs.now }
    requires placed { ArePlaced surface.now x.now y.now }
    ensures apart { IsTrue result
        ↔ All (λ pair. IsApart x.now y.now (part_pair surface.now pair)) pairs.now }
    ensures tally { RisesAtMost (intervals_within DEPTH * length pairs.now) tally.old.n tally.new.n }
{
    let _count = tally.n;
    for pair in pairs {
        if !is_apart(surface, x, y, *pair, tally) {
            return false;
        }
    }
    true
}

// Whether a pair is.
fn is_apart(surface: &Surface, x: &Places, y: &Places, pair: Pair, tally: &mut Tally) -> bool
    requires pair { IsPair surface.now pair }
    requires placed { ArePlaced surface.now x.now y.now }
    ensures apart { IsTrue result ↔ IsApart x.now y.now (part_pair surface.now pair) }
    ensures tally { RisesAtMost (intervals_within DEPTH) tally.old.n tally.new.n }
{
    let parts = surface.parts(x, y, pair);
    certify_pair(&parts.a, &parts.b, tally)
}
