//! What tetrahedra give their nodes: shares, which add up.
ghost use Rattle.std.specs.Prelude.{◌≡◌, ◌^◌, ◌<◌, ◌≤◌, ◌+ℤ◌, ◌*ℤ◌, map, length, All, IfOk};
ghost use Rattle.space3.specs.Vectors.{AtMost};
ghost use Rattle.surface_mesh.specs.Materials.{IsMaterial};
ghost use Rattle.surface_mesh.specs.Calls.Shares.{with_share, share_sum, share_of, start_velocity, stays};

use crate::materials::Material;
use space3::V3;
use std::alloc::{AllocError, Global};

/// What tetrahedra give a node together.
#[derive(Clone, Copy, PartialEq, Eq, Debug)]
pub(crate) struct Share {
    /// The sum of density times rest determinant.
    pub mass: i128,
    /// Whether one of them has a fixed material.
    pub fixed: bool,
    /// The velocity of the first, or None where there is none.
    pub velocity: Option<V3>,
}

fn product(density: i64, rest: i128) -> i128
    requires density { AtMost 1024 density }
    requires rest { AtMost (2 ^ 66) rest }
    ensures value { result ≡ density *ℤ rest }
    ensures bound { AtMost (2 ^ 76) result }
{
    density as i128 * rest
}

fn sum(a: i128, b: i128) -> i128
    requires left { AtMost (2 ^ 125) a }
    requires right { AtMost (2 ^ 125) b }
    ensures { result ≡ a +ℤ b }
{
    a + b
}

impl Share {
    /// The share of a node of no tetrahedron.
    pub(crate) const NOTHING: Share = Share {
        mass: 0,
        fixed: false,
        velocity: None,
    };

    /// What a tetrahedron of this material and rest determinant gives each of its nodes.
    pub(crate) fn of(material: Material, rest: i128) -> Share
        requires material { IsMaterial material }
        requires rest { AtMost (2 ^ 66) rest }
        ensures value { result ≡ share_of material rest }
        ensures bound { AtMost (2 ^ 76) result.mass }
    {
        Share {
            mass: product(material.density, rest),
            fixed: material.fixed,
            velocity: Some(material.velocity),
        }
    }

    /// Both shares together.
    pub(crate) fn plus(self, other: Share) -> Share
        requires left { AtMost (2 ^ 125) self.mass }
        requires right { AtMost (2 ^ 125) other.mass }
        ensures { result ≡ share_sum self other }
    {
        Share {
            mass: sum(self.mass, other.mass),
            fixed: self.fixed || other.fixed,
            velocity: self.velocity.or(other.velocity),
        }
    }

    /// Whether the node stays where it is.
    pub(crate) fn stays(&self) -> bool
        ensures { result ≡ stays self.now }
    {
        self.velocity.is_none() || self.fixed
    }

    /// The velocity at the start.
    pub(crate) fn velocity(&self) -> V3
        ensures { result ≡ start_velocity self.now }
    {
        if self.stays() {
            V3 { x: 0, y: 0, z: 0 }
        } else {
            self.velocity.unwrap_or(V3 { x: 0, y: 0, z: 0 })
        }
    }
}

/// Gives each of these nodes a share more.
pub(crate) fn add_share(shares: &mut [Share], nodes: &[u32], share: Share)
    requires few { length nodes.now ≤ 4 }
    requires there { All (λ node. node < length shares.old) nodes.now }
    requires small { All (λ s. AtMost (2 ^ 120) s.mass) shares.old }
    requires share { AtMost (2 ^ 76) share.mass }
    ensures { shares.new ≡ with_share share shares.old nodes.now }
{
    for node in nodes {
        let i = *node as usize;
        shares[i] = shares[i].plus(share);
    }
}

/// The masses of nodes.
pub(crate) fn masses(alloc: Global, shares: &[Share]) -> Result<Vec<i128>, AllocError>
    ensures { IfOk result (λ v. v.items ≡ map (λ share. share.mass) shares.now) }
{
    shares.iter().map(|share| share.mass).collect(alloc)
}

/// Whether each node stays where it is.
pub(crate) fn fixed_flags(alloc: Global, shares: &[Share]) -> Result<Vec<bool>, AllocError>
    ensures { IfOk result (λ v. v.items ≡ map stays shares.now) }
{
    shares.iter().map(|share| share.stays()).collect(alloc)
}

/// The velocities of nodes at the start.
pub(crate) fn velocities(alloc: Global, shares: &[Share]) -> Result<Vec<V3>, AllocError>
    ensures { IfOk result (λ v. v.items ≡ map start_velocity shares.now) }
{
    shares.iter().map(|share| share.velocity()).collect(alloc)
}
