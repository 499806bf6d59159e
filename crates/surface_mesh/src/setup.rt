//! The bodies of a scene, ready to move.
ghost use Rattle.std.specs.Prelude.{◌≡◌, IfOk, map};
ghost use Rattle.space3.specs.Mesh.{IsSound};
ghost use Rattle.surface_mesh.specs.Materials.{AreNumbers};
ghost use Rattle.surface_mesh.specs.Setup.{HasSurface, IsSetup, node_positions, rest_of, setup_of};
ghost use Rattle.surface_mesh.specs.Calls.Shares.{share_at};

use crate::lists::{FixedList, MassList, RestList, VelocityList};
use crate::materials::Numbers;
use crate::shares::{Share, add_share, fixed_flags, masses, velocities};
use boundary::Surface;
use space3::{Mesh, rest_det};
use std::alloc::{AllocError, Global};

/// A mesh with its surface and a scene's numbers, and what they give each tetrahedron and each node.
#[derive(Drop)]
pub struct Setup {
    pub mesh: Mesh,
    pub surface: Surface,
    pub numbers: Numbers,
    /// One rest determinant per tetrahedron.
    pub rest: RestList,
    /// One mass per node.
    pub mass: MassList,
    /// One flag per node.
    pub fixed: FixedList,
    /// One velocity per node.
    pub velocity: VelocityList,
}

impl Setup {
    /// The bodies of a mesh with its surface, under these numbers. Where memory is wanting, all three are given up.
    pub fn build(
        alloc: Global,
        mesh: Mesh,
        surface: Surface,
        numbers: Numbers,
    ) -> Result<Self, AllocError>
        requires sound { IsSound mesh }
        requires surface { HasSurface mesh surface }
        requires in_range { AreNumbers numbers }
        ensures built { IfOk result (λ setup. setup ≡ setup_of mesh surface numbers) }
        ensures setup { IfOk result IsSetup }
    {
        let (rest, shares) = sums_of(alloc, &mesh, &numbers)?;
        let mass = masses(alloc, &shares)?;
        let fixed = fixed_flags(alloc, &shares)?;
        let velocity = velocities(alloc, &shares)?;
        Ok(Setup {
            mesh,
            surface,
            numbers,
            rest: RestList::of_vec(rest),
            mass: MassList::of_vec(mass),
            fixed: FixedList::of_vec(fixed),
            velocity: VelocityList::of_vec(velocity),
        })
    }
}

// One rest determinant for each tetrahedron, and one share for each node.
fn sums_of(
    alloc: Global,
    mesh: &Mesh,
    numbers: &Numbers,
) -> Result<(Vec<i128>, Vec<Share>), AllocError>
    requires sound { IsSound mesh.now }
    requires in_range { AreNumbers numbers.now }
    ensures rest { IfOk result (λ sums. sums.0.items ≡ map (rest_of mesh.now) mesh.now.tets) }
    ensures shares { IfOk result (λ sums.
        sums.1.items ≡ map (share_at mesh.now numbers.now) (node_positions mesh.now)) }
{
    let tets = mesh.tets.items();
    let mut rest = Vec::with_capacity(alloc, tets.len())?;
    let mut shares = vec![in alloc; Share::NOTHING; mesh.numbers.items().len()]?;
    for tet in tets {
        let rest_of_tet = rest_det(&mesh.places, tet);
        let share = Share::of(numbers.material_of(tet), rest_of_tet);
        rest.push(rest_of_tet)?;
        add_share(&mut shares, &tet.nodes, share);
    }
    Ok((rest, shares))
}
