//! Materials, and the numbers of a scene.
ghost use Rattle.std.specs.Prelude.{◌≡◌, find};
ghost use Rattle.std.specs.Ordering.{int_eq};
ghost use Rattle.surface_mesh.specs.Materials.{material_of, physical_tag};

use space3::{Tet, V3};
use std::marker::Model;

/// What a body is made of.
#[derive(Clone, Copy, PartialEq, Eq, Debug)]
pub struct Material {
    /// Mass by volume, 1 to 1024.
    pub density: i64,
    /// The shear modulus, the second Lamé constant, 0 to 2^30.
    pub mu: i64,
    /// The first Lamé constant, 0 to 2^30.
    pub lambda: i64,
    /// Whether the nodes stay where they are.
    pub fixed: bool,
    /// The velocity at the start, in grid units per frame, each component at most 65536 in absolute value.
    pub velocity: V3,
}

/// Materials by physical tag, each with its tag.
#[derive(Drop)]
pub struct PartList {
    list: Vec<(i32, Material)>,
}

impl Model for PartList {
    ghost use Rattle.std.specs.Prelude.{List, ℤ};
    ghost use Rattle.surface_mesh.specs.declared.materials.Material.{Material};

    ghost Value = { List (ℤ × Material) };

    ghost view = { λ p. p.list.items };
}

impl PartList {
    /// The list of these parts.
    pub fn of_vec(items: Vec<(i32, Material)>) -> Self
        ensures { result ≡ items.items }
    {
        PartList { list: items }
    }

    /// The parts, in order.
    pub fn items(&self) -> &[(i32, Material)]
        ensures { result.now ≡ self.now }
    {
        self.list.as_slice()
    }
}

/// The numbers of a scene.
#[derive(Drop)]
pub struct Numbers {
    /// The material of each tetrahedron whose tag is no part's.
    pub base: Material,
    /// At most 64 materials by physical tag. Where a tag stands twice, the first counts.
    pub parts: PartList,
    /// The stiffness of contact, 1 to 2^40.
    pub kappa: i64,
    /// The distance from which contact acts, 2 to 1024 grid units.
    pub dhat: i64,
    /// The coefficient of friction, 0 to 1024, in 256ths.
    pub friction: i64,
    /// The slide below which friction is smooth, 1 to 1024 grid units per frame.
    pub slip: i64,
    /// Gravity in 1/256 grid unit per frame and frame, each component at most 2^20 in absolute value.
    pub gravity: V3,
}

// The first tag of a tetrahedron, or 0.
fn physical_tag(tet: &Tet) -> i32
    ensures { result ≡ physical_tag tet.now }
{
    tet.tags.items().first().copied().unwrap_or(0)
}

// The first part of a tag.
fn part_of(parts: &[(i32, Material)], tag: i32) -> Option<(i32, Material)>
    ensures { result ≡ find (λ part. int_eq part.0 tag) parts.now }
{
    parts.iter().copied().find(|part| part.0 == tag)
}

impl Numbers {
    /// The material of a tetrahedron: that of the first part with its physical tag, else the base material. The
    /// physical tag is the first tag, or 0 where there is none.
    pub fn material_of(&self, tet: &Tet) -> Material
        ensures { result ≡ material_of self.now tet.now }
    {
        match part_of(self.parts.items(), physical_tag(tet)) {
            Some((_, material)) => material,
            None => self.base,
        }
    }
}
