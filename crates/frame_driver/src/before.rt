//! The places before a frame.
ghost use Rattle.std.specs.Prelude.{◌≡◌, IfOk, All, length};
ghost use Rattle.space3.specs.Vectors.{Within};
ghost use Rattle.surface_mesh.specs.declared.ranges.TheConstants.{FARTHEST_BEFORE, FASTEST};
ghost use Rattle.frame_driver.specs.Paths.{less_velocities};

use space3::{Places, V3, sub};
use std::alloc::{AllocError, Global};

/// The same places as a list.
pub(crate) fn list_of(alloc: Global, places: &Places) -> Result<Vec<V3>, AllocError>
    ensures same { IfOk result (λ list. list.items ≡ places.now) }
    ensures near { IfOk result (λ list. All (Within FARTHEST_BEFORE) list.items) }
{
    let mut list = Vec::with_capacity(alloc, places.len() as usize)?;
    for node in 0..places.len() {
        list.push(places.get(node))?;
    }
    Ok(list)
}

/// The places less the velocities, in grid units. One velocity per place, each component at most [`FASTEST`](surface_mesh::FASTEST)
/// in absolute value.
pub(crate) fn places_before(
    alloc: Global,
    places: &Places,
    velocity: &[V3],
) -> Result<Vec<V3>, AllocError>
    requires as_many { length velocity.now ≡ length places.now }
    requires slow { All (Within FASTEST) velocity.now }
    ensures value { IfOk result (λ list. list.items ≡ less_velocities places.now velocity.now) }
    ensures near { IfOk result (λ list. All (Within FARTHEST_BEFORE) list.items) }
{
    let mut list = Vec::with_capacity(alloc, velocity.len())?;
    for node in 0..places.len() {
        list.push(sub(places.get(node), velocity[node as usize]))?;
    }
    Ok(list)
}
