//! Defects of a setup, in the order in which they are looked for.
ghost use Rattle.std.specs.Prelude.{◌≡◌, ◌^◌, ◌<◌, pos, not, int_lt, int_le, position, All, IfOk, IfNone, IfSome};
ghost use Rattle.space3.specs.Mesh.{HasNodes};
ghost use Rattle.surface_mesh.specs.declared.sturdy.TheConstants.{LEAST_REST, LONGEST_REST, MOST_MASS};
ghost use Rattle.surface_mesh.specs.Edges.{has_edges_within};
ghost use Rattle.surface_mesh.specs.Setup.{IsSetup};
ghost use Rattle.surface_mesh.specs.Sturdy.{IsFit, IsSturdy};
ghost use Rattle.mesh_check.specs.Defects.{HasPair, IsFirstDefect, first_flaw};

use crate::meeting::first_meeting;
use boundary::Pair;
use space3::{Places, Tet};
use std::alloc::{AllocError, Global};
use surface_mesh::{LEAST_REST, LONGEST_REST, MOST_MASS, Setup, has_edges_within};

/// Why a mesh is no start. Tetrahedra and nodes are positions in the mesh's lists, a pair is one of its surface.
#[derive(Clone, Copy, PartialEq, Eq, Debug)]
pub enum Defect {
    /// The rest determinant is 0 or less.
    NotPositive { tet: u32 },
    /// The rest determinant is from 1 to 262143.
    Thin { tet: u32 },
    /// A component of one of the six edges is above 16384 in absolute value.
    Long { tet: u32 },
    /// The mass is above 2^58.
    TooHeavy { node: u32 },
    /// The two parts of a pair have a common point.
    Meets { pair: Pair },
}

/// The first defect: the first tetrahedron that isn't positive, else the first thin one, else the first long one,
/// else the first node that is too heavy, else the first pair, in the pair order, whose parts meet where the mesh
/// stands. Where there is none, the bodies are fit to start.
pub fn first_defect(alloc: Global, setup: &Setup) -> Result<Option<Defect>, AllocError>
    requires { IsSetup setup.now }
    ensures first { IfOk result (IsFirstDefect setup.now) }
    ensures fit { IfOk result (λ found. IfNone found (IsFit setup.now)) }
    ensures pair { IfOk result (λ found. IfSome found (HasPair setup.now.surface)) }
{
    if let Some(flaw) = first_flaw(setup) {
        return Ok(Some(flaw));
    }
    match first_meeting(alloc, setup)? {
        Some(pair) => Ok(Some(Defect::Meets { pair })),
        None => Ok(None),
    }
}

// The first defect of a tetrahedron or a node.
fn first_flaw(setup: &Setup) -> Option<Defect>
    requires { IsSetup setup.now }
    ensures first { result ≡ first_flaw setup.now }
    ensures sturdy { IfNone result (IsSturdy setup.now) }
    ensures pair { IfSome result (HasPair setup.now.surface) }
{
    let rest = setup.rest.items();
    if let Some(tet) = short_position(first_not_positive(rest)) {
        return Some(Defect::NotPositive { tet });
    }
    if let Some(tet) = short_position(first_thin(rest)) {
        return Some(Defect::Thin { tet });
    }
    let mesh = &setup.mesh;
    if let Some(tet) = short_position(first_long(&mesh.places, mesh.tets.items())) {
        return Some(Defect::Long { tet });
    }
    if let Some(node) = short_position(first_heavy(setup.mass.items())) {
        return Some(Defect::TooHeavy { node });
    }
    None
}

fn first_not_positive(rest: &[i128]) -> Option<usize>
    ensures { result ≡ position (λ rest. int_le rest (pos 0)) rest.now }
{
    rest.iter().position(|rest| *rest <= 0)
}

fn first_thin(rest: &[i128]) -> Option<usize>
    ensures { result ≡ position (λ rest. int_lt rest LEAST_REST) rest.now }
{
    rest.iter().position(|rest| *rest < LEAST_REST)
}

fn first_long(places: &Places, tets: &[Tet]) -> Option<usize>
    requires { All (λ tet. HasNodes places.now tet.nodes) tets.now }
    ensures { result ≡
        position (λ tet. not (has_edges_within LONGEST_REST places.now tet.nodes)) tets.now }
{
    tets.iter()
        .position(|tet| !has_edges_within(places, tet, LONGEST_REST))
}

fn first_heavy(mass: &[i128]) -> Option<usize>
    ensures { result ≡ position (λ mass. int_lt MOST_MASS mass) mass.now }
{
    mass.iter().position(|mass| MOST_MASS < *mass)
}

// A position that was found, in fewer bits.
fn short_position(found: Option<usize>) -> Option<u32>
    requires { IfSome found (λ i. i < 2 ^ 32) }
    ensures { result ≡ found }
{
    match found {
        Some(i) => Some(i as u32),
        None => None,
    }
}
