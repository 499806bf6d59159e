//! Lists of tetrahedra and nodes, each seen as the list that it holds.
ghost use Rattle.std.specs.Prelude.{◌≡◌};

use space3::V3;
use std::marker::Model;

/// The rest determinants of tetrahedra, in cubed grid units, in the mesh's order.
#[derive(Drop)]
pub struct RestList {
    list: Vec<i128>,
}

impl Model for RestList {
    ghost use Rattle.std.specs.Prelude.{List, ℤ};

    ghost Value = { List ℤ };

    ghost view = { λ l. l.list.items };
}

impl RestList {
    /// The list of these determinants.
    pub fn of_vec(items: Vec<i128>) -> Self
        ensures { result ≡ items.items }
    {
        RestList { list: items }
    }

    /// The determinants, in order.
    pub fn items(&self) -> &[i128]
        ensures { result.now ≡ self.now }
    {
        self.list.as_slice()
    }
}

/// The masses of nodes, each the sum of density times rest determinant over its tetrahedra.
#[derive(Drop)]
pub struct MassList {
    list: Vec<i128>,
}

impl Model for MassList {
    ghost use Rattle.std.specs.Prelude.{List, ℤ};

    ghost Value = { List ℤ };

    ghost view = { λ l. l.list.items };
}

impl MassList {
    /// The list of these masses.
    pub fn of_vec(items: Vec<i128>) -> Self
        ensures { result ≡ items.items }
    {
        MassList { list: items }
    }

    /// The masses, in order.
    pub fn items(&self) -> &[i128]
        ensures { result.now ≡ self.now }
    {
        self.list.as_slice()
    }
}

/// Whether each node stays where it is.
#[derive(Drop)]
pub struct FixedList {
    list: Vec<bool>,
}

impl Model for FixedList {
    ghost use Rattle.std.specs.Prelude.{List, Bool};

    ghost Value = { List Bool };

    ghost view = { λ l. l.list.items };
}

impl FixedList {
    /// The list of these flags.
    pub fn of_vec(items: Vec<bool>) -> Self
        ensures { result ≡ items.items }
    {
        FixedList { list: items }
    }

    /// The flags, in order.
    pub fn items(&self) -> &[bool]
        ensures { result.now ≡ self.now }
    {
        self.list.as_slice()
    }
}

/// The velocities of nodes at the start, in grid units per frame.
#[derive(Drop)]
pub struct VelocityList {
    list: Vec<V3>,
}

impl Model for VelocityList {
    ghost use Rattle.std.specs.Prelude.{List};
    ghost use Rattle.space3.specs.declared.vectors.V3.{V3};

    ghost Value = { List V3 };

    ghost view = { λ l. l.list.items };
}

impl VelocityList {
    /// The list of these velocities.
    pub fn of_vec(items: Vec<V3>) -> Self
        ensures { result ≡ items.items }
    {
        VelocityList { list: items }
    }

    /// The velocities, in order.
    pub fn items(&self) -> &[V3]
        ensures { result.now ≡ self.now }
    {
        self.list.as_slice()
    }
}

/// The direction of a step, before it is halved: one vector per node, in grid units.
#[derive(Drop)]
pub struct DirList {
    list: Vec<V3>,
}

impl Model for DirList {
    ghost use Rattle.std.specs.Prelude.{List};
    ghost use Rattle.space3.specs.declared.vectors.V3.{V3};

    ghost Value = { List V3 };

    ghost view = { λ l. l.list.items };
}

impl DirList {
    /// The list of these vectors.
    pub fn of_vec(items: Vec<V3>) -> Self
        ensures { result ≡ items.items }
    {
        DirList { list: items }
    }

    /// The vectors, in order.
    pub fn items(&self) -> &[V3]
        ensures { result.now ≡ self.now }
    {
        self.list.as_slice()
    }
}
