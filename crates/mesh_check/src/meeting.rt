//! The first pair whose parts meet where the mesh stands.
ghost use Rattle.std.specs.Prelude.{◌↔◌, IfOk, IfNone, IfSome, IsTrue, All};
ghost use Rattle.list_laws.specs.Firsts.{IsFirstOf};
ghost use Rattle.boundary.specs.Pairs.{IsPair, pairs_of};
ghost use Rattle.surface_mesh.specs.Setup.{IsSetup};
ghost use Rattle.mesh_check.specs.Defects.{PartsMeet};

use boundary::Pair;
use broad_grid::swept_pairs;
use plane_cut::{Tally, meets};
use std::alloc::{AllocError, Global};
use surface_mesh::Setup;

/// The first pair, in the pair order, whose parts meet where the mesh stands. Only pairs whose boxes touch are looked
/// at: the others don't meet.
pub(crate) fn first_meeting(alloc: Global, setup: &Setup) -> Result<Option<Pair>, AllocError>
    requires { IsSetup setup.now }
    ensures first { IfOk result (λ found.
        IfSome found (IsFirstOf (PartsMeet setup.now) (pairs_of setup.now.surface))) }
    ensures none { IfOk result (λ found.
        IfNone found (All (λ pair. ¬ PartsMeet setup.now pair) (pairs_of setup.now.surface))) }
{
    let places = &setup.mesh.places;
    let touching = swept_pairs(alloc, &setup.surface, places, places)?;
    Ok(first_meeting_of(setup, touching.items()))
}

// The first of these pairs whose parts meet.
fn first_meeting_of(setup: &Setup, pairs: &[Pair]) -> Option<Pair>
    requires built { IsSetup setup.now }
    requires pairs { All (IsPair setup.now.surface) pairs.now }
    ensures first { IfSome result (IsFirstOf (PartsMeet setup.now) pairs.now) }
    ensures none { IfNone result (All (λ pair. ¬ PartsMeet setup.now pair) pairs.now) }
{
    let mut tally = Tally { n: 0 };
    for pair in pairs {
        if do_parts_meet(setup, *pair, &mut tally) {
            return Some(*pair);
        }
    }
    None
}

// Whether the parts of a pair meet.
fn do_parts_meet(setup: &Setup, pair: Pair, tally: &mut Tally) -> bool
    requires built { IsSetup setup.now }
    requires pair { IsPair setup.now.surface pair }
    ensures { IsTrue result ↔ PartsMeet setup.now pair }
{
    let places = &setup.mesh.places;
    let parts = setup.surface.parts(places, places, pair);
    meets(&parts.a.start, &parts.b.start, tally)
}
