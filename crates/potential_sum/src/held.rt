//! The energy of the tetrahedra and of the close pairs of which each node is fixed. No free node changes it, so it is
//! summed once.
ghost use Rattle.std.specs.Prelude.{◌≡◌, ◌^◌, IfOk, All, filter, length, not, unsigned_abs};
ghost use Rattle.space3.specs.Vectors.{AtMost};
ghost use Rattle.boundary.specs.Pairs.{IsPair};
ghost use Rattle.broad_grid.specs.Held.{is_loose};
ghost use Rattle.broad_grid.specs.NearPairs.{close_pairs_of};
ghost use Rattle.surface_mesh.specs.Setup.{IsSetup};
ghost use Rattle.surface_mesh.specs.Sturdy.{IsSturdy};
ghost use Rattle.potential_sum.specs.Calls.Held.{have_fixed_stayed};
ghost use Rattle.potential_sum.specs.Held.{IsHeldEnergy, held_energy};
ghost use Rattle.potential_sum.specs.Upright.{IsUpright};

use crate::barriers::{barrier_energy_of, close_pairs_at};
use crate::bodies::{bodies_of, elastic_energy};
use boundary::{Pair, Surface};
use broad_grid::{is_loose, is_same};
use space3::Places;
use std::alloc::{AllocError, Global};
use std::marker::Model;
use surface_mesh::Setup;

/// The energy of the tetrahedra and of the close pairs of which each node is fixed, and where the nodes stood as it was
/// summed.
#[derive(Drop)]
pub(crate) struct HeldEnergy {
    places: Places,
    energy: i128,
}

impl Model for HeldEnergy {
    ghost use Rattle.potential_sum.specs.Held.{HeldSum};

    ghost Value = { HeldSum };

    ghost view = { λ h. record {
      places = h.places;
      energy = h.energy;
    } };
}

impl HeldEnergy {
    // The energy at the places `now`, where these are the close pairs.
    pub fn open(
        alloc: Global,
        setup: &Setup,
        pairs: &[Pair],
        now: &Places,
    ) -> Result<Self, AllocError>
        requires built { IsSetup setup.now }
        requires sturdy { IsSturdy setup.now }
        requires pose { IsUpright setup.now now.now }
        requires close { pairs.now ≡
            close_pairs_of (unsigned_abs setup.now.numbers.dhat) setup.now.surface now.now }
        ensures { IfOk result (IsHeldEnergy setup.now) }
    {
        let energy = held_energy(alloc, setup, pairs, now)?;
        let places = now.copy(alloc)?;
        Ok(HeldEnergy { places, energy })
    }

    // The energy where the nodes stand at x: what was summed, where no fixed node has moved since, or else a new sum.
    pub fn at(&self, alloc: Global, setup: &Setup, x: &Places) -> Result<i128, AllocError>
        requires built { IsSetup setup.now }
        requires sturdy { IsSturdy setup.now }
        requires held { IsHeldEnergy setup.now self.now }
        requires pose { IsUpright setup.now x.now }
        ensures value { IfOk result (λ energy. energy ≡ held_energy setup.now x.now) }
        ensures small { IfOk result (λ energy. AtMost (2 ^ 124) energy) }
    {
        if have_fixed_stayed(setup.fixed.items(), &self.places, x) {
            return Ok(self.energy);
        }
        let pairs = close_pairs_at(alloc, setup, x)?;
        held_energy(alloc, setup, pairs.items(), x)
    }
}

// Whether each fixed node stands where it stood.
fn have_fixed_stayed(fixed: &[bool], before: &Places, now: &Places) -> bool
    ensures { result ≡ have_fixed_stayed fixed.now before.now now.now }
{
    fixed
        .iter()
        .zip(before.items())
        .zip(now.items())
        .all(|((flag, p), q)| !*flag | is_same(*p, *q))
}

// The energy at x of the tetrahedra, and of those of the pairs, of which each node is fixed.
fn held_energy(alloc: Global, setup: &Setup, pairs: &[Pair], x: &Places) -> Result<i128, AllocError>
    requires built { IsSetup setup.now }
    requires sturdy { IsSturdy setup.now }
    requires pose { IsUpright setup.now x.now }
    requires close { pairs.now ≡
        close_pairs_of (unsigned_abs setup.now.numbers.dhat) setup.now.surface x.now }
    ensures value { IfOk result (λ energy. energy ≡ held_energy setup.now x.now) }
    ensures small { IfOk result (λ energy. AtMost (2 ^ 124) energy) }
{
    let bodies = bodies_of(alloc, setup, true)?;
    let pairs = held_among(alloc, &setup.surface, setup.fixed.items(), pairs)?;
    let elastic = elastic_energy(bodies.as_slice(), x);
    let barriers = barrier_energy_of(setup, x, pairs.as_slice());
    Ok(elastic + barriers)
}

// Those of the pairs of which each node is fixed.
fn held_among(
    alloc: Global,
    surface: &Surface,
    fixed: &[bool],
    pairs: &[Pair],
) -> Result<Vec<Pair>, AllocError>
    requires { All (IsPair surface.now) pairs.now }
    ensures { IfOk result (λ held.
        held.items ≡ filter (λ p. not (is_loose fixed.now surface.now p)) pairs.now) }
{
    let mut held = Vec::new(alloc);
    for pair in pairs {
        if !is_loose(surface, fixed, *pair) {
            held.push(*pair)?;
        }
    }
    Ok(held)
}
