//! The tetrahedra of bodies, made ready for many calls.
ghost use Rattle.std.specs.Prelude.{◌≡◌, ◌≤◌, ◌<◌, ◌^◌, IfOk, All, map, length, slice_index_or, if◌then◌else◌};
ghost use Rattle.std.specs.List.Sorted.{IsPermutation};
ghost use Rattle.list_laws.specs.Sums.{total};
ghost use Rattle.space3.specs.Box.{IsInTheBox};
ghost use Rattle.space3.specs.declared.lists.Tet.{Tet};
ghost use Rattle.space3.specs.Mesh.{HasNodes};
ghost use Rattle.space3.specs.Vectors.{AtMost};
ghost use Rattle.surface_mesh.specs.Setup.{IsSetup};
ghost use Rattle.surface_mesh.specs.Sturdy.{IsSturdy};
ghost use Rattle.surface_mesh.specs.Materials.{IsMaterial, material_of};
ghost use Rattle.vec_q.specs.Rows.{components};
ghost use Rattle.neo_hooke.specs.Block.{elastic_block};
ghost use Rattle.neo_hooke.specs.Rest.{CanRest, CanStand};
ghost use Rattle.potential_sum.specs.Bodies.{corners_at, elastic_of};
ghost use Rattle.potential_sum.specs.Calls.Kept.{MayStand, elastic_in};
ghost use Rattle.potential_sum.specs.Calls.Stiffness.{sixteen_of};
ghost use Rattle.potential_sum.specs.Calls.Sums.{AreLight, pulls_of, with_parts};
ghost use Rattle.potential_sum.specs.Contributions.{elastic_contribution};
ghost use Rattle.potential_sum.specs.Held.{held_tets, loose_tets};

use crate::blocks::Block;
use crate::pulls::{Pull, add_pulls, pull_at};
use crate::turns::{Turn, turns_of};
use neo_hooke::{Element, rest_tet};
use space3::{Places, Tet, V3, W3};
use std::alloc::{AllocError, Global};
use surface_mesh::Setup;

/// A tetrahedron: its nodes, its shape at rest and its material.
#[derive(Clone, Copy)]
pub(crate) struct Body {
    pub nodes: [u32; 4],
    pub element: Element,
}

// The tetrahedra of a setup of which each node is fixed, where `held`, or else those of which some node isn't, in the
// order of a curve through space.
pub(crate) fn bodies_of(alloc: Global, setup: &Setup, held: bool) -> Result<Vec<Body>, AllocError>
    requires built { IsSetup setup.now }
    requires sturdy { IsSturdy setup.now }
    ensures { IfOk result (λ made. IsPermutation
        (if held then held_tets setup.now else loose_tets setup.now) (map elastic_in made.items)) }
{
    let mesh = &setup.mesh;
    let turns = turns_of(
        alloc,
        &mesh.places,
        mesh.tets.items(),
        setup.fixed.items(),
        held,
    )?;
    bodies_in_turns(alloc, setup, turns.as_slice())
}

// The tetrahedra in these turns.
fn bodies_in_turns(alloc: Global, setup: &Setup, turns: &[Turn]) -> Result<Vec<Body>, AllocError>
    requires built { IsSetup setup.now }
    requires sturdy { IsSturdy setup.now }
    requires there { All (λ turn. turn.tet < length setup.now.mesh.tets) turns.now }
    ensures { IfOk result (λ made. (d : Tet) → map elastic_in made.items ≡
        map (λ turn. elastic_of setup.now (slice_index_or setup.now.mesh.tets turn.tet d)) turns.now) }
{
    let tets = setup.mesh.tets.items();
    let mut made = Vec::with_capacity(alloc, turns.len())?;
    for turn in turns {
        made.push(body_of(setup, &tets[turn.tet as usize]))?;
    }
    Ok(made)
}

fn body_of(setup: &Setup, tet: &Tet) -> Body
    requires there { HasNodes setup.now.mesh.places tet.now.nodes }
    requires rest { CanRest (corners_at setup.now.mesh.places tet.now.nodes) }
    requires material { IsMaterial (material_of setup.now.numbers tet.now) }
    ensures { elastic_in result ≡ elastic_of setup.now tet.now }
{
    let material = setup.numbers.material_of(tet);
    let rest = rest_tet(&corners_at(&setup.mesh.places, &tet.nodes));
    Body {
        nodes: tet.nodes,
        element: Element::of(&rest, material.mu, material.lambda),
    }
}

/// Where four nodes stand.
pub(crate) fn corners_at(places: &Places, nodes: &[u32; 4]) -> [V3; 4]
    requires { HasNodes places.now nodes.now }
    ensures value { result ≡ corners_at places.now nodes.now }
    ensures placed { All IsInTheBox result }
{
    [
        places.get(nodes[0]),
        places.get(nodes[1]),
        places.get(nodes[2]),
        places.get(nodes[3]),
    ]
}

impl Body {
    // The elastic energy at these places.
    fn energy(&self, x: &Places) -> i128
        requires { MayStand x.now (elastic_in self.now) }
        ensures { result ≡ (elastic_contribution x.now (elastic_in self.now)).energy }
    {
        self.element.energy(&corners_at(x, &self.nodes))
    }

    // What pulls at the four nodes.
    fn pulls(&self, x: &Places) -> [Pull; 4]
        requires { MayStand x.now (elastic_in self.now) }
        ensures { result ≡
            pulls_of (elastic_contribution x.now (elastic_in self.now)) }
    {
        let pulls = self.element.gradient(&corners_at(x, &self.nodes));
        [
            pull_at(self.nodes[0], pulls[0]),
            pull_at(self.nodes[1], pulls[1]),
            pull_at(self.nodes[2], pulls[2]),
            pull_at(self.nodes[3], pulls[3]),
        ]
    }

    // The blocks of its nodes.
    pub fn blocks(&self, x: &Places) -> [[Block; 4]; 4]
        requires { MayStand x.now (elastic_in self.now) }
        ensures { result ≡ sixteen_of (elastic_contribution x.now (elastic_in self.now)) }
    {
        self.element.blocks(&corners_at(x, &self.nodes))
    }
}

// The elastic energy of all tetrahedra.
pub(crate) fn elastic_energy(bodies: &[Body], x: &Places) -> i128
    requires few { length bodies.now ≤ 65536 }
    requires stand { All (λ body. MayStand x.now (elastic_in body)) bodies.now }
    ensures value { result ≡
        total (map (λ body. (elastic_contribution x.now (elastic_in body)).energy) bodies.now) }
    ensures small { AtMost (2 ^ 106) result }
{
    let mut sum = 0;
    for body in bodies {
        sum += body.energy(x);
    }
    sum
}

// Adds what elasticity gives at each node.
pub(crate) fn add_elastic_pulls(sums: &mut [W3], bodies: &[Body], x: &Places)
    requires nodes { length sums.old ≡ length x.now }
    requires few { length bodies.now ≤ 65536 }
    requires stand { All (λ body. MayStand x.now (elastic_in body)) bodies.now }
    requires small { AreLight (2 ^ 118) sums.old }
    ensures { sums.new ≡ with_parts sums.old
        (map (λ body. elastic_contribution x.now (elastic_in body)) bodies.now) }
{
    for body in bodies {
        add_pulls(sums, &body.pulls(x));
    }
}
