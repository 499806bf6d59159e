//! The halvings of a direction.
ghost use Rattle.std.specs.Prelude.{◌≡◌, ◌≤◌, ◌↔◌, IfOk, IfSome, IsSome, IfNone, IsTrue, Any};
ghost use Rattle.space3.specs.declared.ways.TheConstants.{HALVING_LIMIT};
ghost use Rattle.potential_sum.specs.Potential.{potential};
ghost use Rattle.line_search.specs.Accepted.{HasNoAccepted, IsAccepted};
ghost use Rattle.line_search.specs.Calls.Halvings.{CountsHalving, IsFirstHalving, IsHalving, Moves};
ghost use Rattle.line_search.specs.Decisions.{RisesByHalvings};
ghost use Rattle.line_search.specs.Steps.{AreReady, IsDirection};

use crate::allowed::lower_if_allowed;
use plane_cut::Tally;
use potential_sum::Terms;
use space3::{HALVING_LIMIT, Places, V3, halved};
use std::alloc::{AllocError, Global};
use surface_mesh::Setup;

const ORIGIN: V3 = V3 { x: 0, y: 0, z: 0 };

// Where a halving of a direction leads.
#[derive(Drop)]
pub(crate) struct Halving {
    pub half: u8,
    pub places: Places,
    // The potential at the places.
    pub lower: i128,
}

// The least accepted halving of a direction, or None exactly where none is accepted. The potential at x is `upper`. The
// tally counts plane decisions.
pub(crate) fn first_halving(
    alloc: Global,
    setup: &Setup,
    terms: &Terms,
    x: &Places,
    direction: &[V3],
    upper: i128,
    tally: &mut Tally,
) -> Result<Option<Halving>, AllocError>
    requires ready { AreReady setup.now terms.now x.now }
    requires direction { IsDirection x.now direction.now }
    requires upper { upper ≡ potential setup.now terms.now.frame x.now }
    ensures first { IfOk result (λ found.
        IfSome found (IsFirstHalving setup.now terms.now.frame x.now direction.now)) }
    ensures exhausted { IfOk result (λ found.
        IfNone found (HasNoAccepted setup.now terms.now.frame x.now direction.now)) }
    ensures tally { RisesByHalvings setup.now terms.now.frame x.now direction.now tally.old.n tally.new.n }
{
    let _count = tally.n;
    for half in 0..HALVING_LIMIT + 1 {
        let found = accepted_halving(alloc, setup, terms, x, direction, half, upper, tally)?;
        if let Some(halving) = found {
            return Ok(Some(halving));
        }
    }
    Ok(None)
}

// A halving, or None exactly where it isn't accepted. The potential at x is `upper`. The tally counts plane decisions.
fn accepted_halving(
    alloc: Global,
    setup: &Setup,
    terms: &Terms,
    x: &Places,
    direction: &[V3],
    half: u8,
    upper: i128,
    tally: &mut Tally,
) -> Result<Option<Halving>, AllocError>
    requires ready { AreReady setup.now terms.now x.now }
    requires direction { IsDirection x.now direction.now }
    requires few { half ≤ HALVING_LIMIT }
    requires upper { upper ≡ potential setup.now terms.now.frame x.now }
    ensures accepted { IfOk result (λ found.
        IsSome found ↔ IsAccepted setup.now terms.now.frame x.now direction.now half) }
    ensures halving { IfOk result (λ found.
        IfSome found (IsHalving setup.now terms.now.frame x.now direction.now half)) }
    ensures tally { CountsHalving setup.now x.now direction.now half tally.old.n tally.new.n }
{
    if !moves(direction, half) {
        return Ok(None);
    }
    let Some(y) = x.moved(alloc, direction, half)? else {
        return Ok(None);
    };
    let Some(lower) = lower_if_allowed(alloc, setup, terms, x, &y, upper, tally)? else {
        return Ok(None);
    };
    Ok(Some(Halving {
        half,
        places: y,
        lower,
    }))
}

// Whether the halved direction moves some node.
fn moves(direction: &[V3], half: u8) -> bool
    requires { half ≤ HALVING_LIMIT }
    ensures { IsTrue result ↔ Any (Moves half) direction.now }
{
    direction.iter().any(|d| is_moved(*d, half))
}

// Whether the halved direction moves a node.
fn is_moved(d: V3, half: u8) -> bool
    requires { half ≤ HALVING_LIMIT }
    ensures { IsTrue result ↔ Moves half d }
{
    halved(d, half) != ORIGIN
}
