//! The contacts of a frame.
ghost use Rattle.std.specs.Prelude.{◌≡◌, ◌<◌, ◌++◌, [], ◌∷◌, map, nat_lt, unsigned_abs, All, IfOk, OnOk, if◌then◌else◌};
ghost use Rattle.space3.specs.Box.{IsInTheBox};
ghost use Rattle.broad_grid.specs.NearPairs.{close_pairs_of};
ghost use Rattle.near_pair.specs.Answers.{IsBounded, IsOn, squared_distance};
ghost use Rattle.barrier_term.specs.Barrier.{barrier_slope, reach_of};
ghost use Rattle.friction_lag.specs.Contacts.{contact_of};
ghost use Rattle.friction_lag.specs.Lagged.{lagged_in};
ghost use Rattle.surface_mesh.specs.Materials.{AreNumbers};
ghost use Rattle.surface_mesh.specs.Setup.{IsSetup};
ghost use Rattle.potential_sum.specs.Calls.Barriers.{MayPush, parts_in};
ghost use Rattle.potential_sum.specs.Contacts.{contact_at, contacts_of, is_active};
ghost use Rattle.potential_sum.specs.Upright.{IsUpright};

use crate::barriers::{Nearest, TwoParts, parts_of};
use barrier_term::{barrier_slope, reach_of};
use boundary::Pair;
use friction_lag::{Contact, contact};
use near_pair::Near;
use space3::Places;
use std::alloc::{AllocError, Global};
use surface_mesh::{Numbers, Setup};

/// The most close pairs of a surface: of at most 98304 vertices and edges and 32768 triangles, a vertex with each
/// triangle, and each two edges once.
pub const MOST_CLOSE: u64 = 8_053_063_680;

// The contacts of a frame that begins at the places `now`, where these are the close pairs.
pub(crate) fn contacts_at(
    alloc: Global,
    setup: &Setup,
    pairs: &[Pair],
    now: &Places,
) -> Result<Vec<Contact>, AllocError>
    requires built { IsSetup setup.now }
    requires pose { IsUpright setup.now now.now }
    requires close { pairs.now ≡
        close_pairs_of (unsigned_abs setup.now.numbers.dhat) setup.now.surface now.now }
    ensures { IfOk result (λ made. map lagged_in made.items ≡ contacts_of setup.now now.now) }
{
    let mut made = Vec::new(alloc);
    for pair in pairs {
        let parts = parts_of(&setup.surface, *pair);
        push_if_active(&mut made, &setup.numbers, now, parts)?;
    }
    Ok(made)
}

// Pushes the contact of two parts where they are nearer than dhat.
fn push_if_active(
    made: &mut Vec<Contact>,
    numbers: &Numbers,
    now: &Places,
    parts: TwoParts,
) -> Result<(), AllocError>
    requires numbers { AreNumbers numbers.now }
    requires close { MayPush now.now (parts_in parts) }
    ensures { OnOk result (map lagged_in made.new.items ≡ map lagged_in made.old.items
        ++ (if is_active numbers.now now.now (parts_in parts)
        then contact_at numbers.now now.now (parts_in parts) ∷ [] else [])) }
{
    let found = parts.nearest(now);
    if !is_active(numbers, &found.near) {
        return Ok(());
    }
    made.push(contact_of(numbers, parts, &found))?;
    Ok(())
}

// The contact of two parts by their nearest points.
fn contact_of(numbers: &Numbers, parts: TwoParts, found: &Nearest) -> Contact
    requires numbers { AreNumbers numbers.now }
    requires bounded { IsBounded found.now.near }
    requires on { IsOn parts.split found.now.points found.now.near }
    requires placed { All IsInTheBox found.now.points }
    requires active { squared_distance found.now.near < reach_of numbers.now.dhat }
    ensures { lagged_in result ≡ contact_of found.now.near
        (barrier_slope numbers.now.kappa numbers.now.dhat found.now.near)
        parts.split parts.nodes found.now.points }
{
    let slope = barrier_slope(numbers.kappa, numbers.dhat, &found.near);
    contact(&found.near, slope, parts.split, parts.nodes, found.points)
}

// Whether the nearest points are nearer than dhat.
fn is_active(numbers: &Numbers, near: &Near) -> bool
    requires numbers { AreNumbers numbers.now }
    requires bounded { IsBounded near.now }
    ensures { result ≡ nat_lt (squared_distance near.now) (reach_of numbers.now.dhat) }
{
    near.squared_distance() < reach_of(numbers.dhat)
}
