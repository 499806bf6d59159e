//! The terms of a frame.
ghost use Rattle.std.specs.Prelude.{◌≡◌, ◌≤◌, ◌^◌, IfOk, IsTrue, OnErr, OnOk, All, ◌*◌, length, map, ◌++◌};
ghost use Rattle.std.specs.List.{range_with_len};
ghost use Rattle.surface_mesh.specs.declared.ranges.TheConstants.{FARTHEST_BEFORE};
ghost use Rattle.space3.specs.Vectors.{AtMost, Within};
ghost use Rattle.friction_lag.specs.Lagged.{lagged_in};
ghost use Rattle.surface_mesh.specs.Setup.{IsSetup};
ghost use Rattle.surface_mesh.specs.Sturdy.{IsSturdy};
ghost use Rattle.potential_sum.specs.Calls.Inertia.{AreMovers, part_at};
ghost use Rattle.potential_sum.specs.Calls.Kept.{MayStand, elastic_in};
ghost use Rattle.potential_sum.specs.Calls.Sums.{AreLight, node_sums};
ghost use Rattle.potential_sum.specs.Contributions.{elastic_contribution};
ghost use Rattle.potential_sum.specs.Upright.{IsUpright};
ghost use Rattle.broad_grid.specs.Kept.{have_stayed};
ghost use Rattle.block_rows.specs.Stored.{nodes_of, table_of};
ghost use Rattle.potential_sum.specs.Matrix.{matrix};
ghost use Rattle.potential_sum.specs.Potential.{gradient, potential};
ghost use Rattle.potential_sum.specs.Terms.{StandFor, terms_of};

use crate::barriers::{
    add_barrier_pulls, barrier_energy_of, close_pairs_at, keep_near_pairs, loose_pairs_at,
};
use crate::bodies::{Body, add_elastic_pulls, bodies_of, elastic_energy};
use crate::contacts::contacts_at;
use crate::friction::{add_friction_pulls, friction_energy_of};
use crate::held::HeldEnergy;
use crate::inertia::{add_inertia_pulls, inertia_energy_of, targets_of};
use crate::matrix::block_sums;
use crate::pulls::node_numbers;
use block_rows::Rows;
use broad_grid::Kept;
use friction_lag::Contact;
use space3::{Places, V3, W3};
use std::alloc::{AllocError, Global};
use std::marker::Model;
use surface_mesh::Setup;

const NOTHING: W3 = W3 { x: 0, y: 0, z: 0 };

/// What the potential of a frame is made of beside its bodies: one target per node, and the contacts where it begins;
/// and what is kept of the bodies, of the energy that no free node changes, and of the pairs that are near where it
/// begins, so that it isn't computed at each call.
#[derive(Drop)]
pub struct Terms {
    targets: Vec<V3>,
    contacts: Vec<Contact>,
    bodies: Vec<Body>,
    held: HeldEnergy,
    kept: Kept,
}

impl Model for Terms {
    ghost use Rattle.std.specs.Prelude.{map};
    ghost use Rattle.friction_lag.specs.Lagged.{lagged_in};
    ghost use Rattle.potential_sum.specs.Calls.Kept.{elastic_in};
    ghost use Rattle.potential_sum.specs.Terms.{KeptTerms};

    ghost Value = { KeptTerms };

    ghost view = { λ t. record {
      frame = record { targets = t.targets.items; contacts = map lagged_in t.contacts.items };
      elastic = map elastic_in t.bodies.items;
      held = t.held;
      near_pairs = t.kept;
    } };
}

impl Terms {
    /// The terms of a frame that begins at the places `now` after the places `before`, which are at most 1114112
    /// in absolute value, in grid units. The places `now` are as for [`Terms::energy`], with one place before per node.
    /// The setup has no defect. Contacts are those of all parts that are nearer than dhat at `now`.
    pub fn open(
        alloc: Global,
        setup: &Setup,
        now: &Places,
        before: &[V3],
    ) -> Result<Self, AllocError>
        requires built { IsSetup setup.now }
        requires sturdy { IsSturdy setup.now }
        requires pose { IsUpright setup.now now.now }
        requires each_before { length before.now ≡ length setup.now.mesh.numbers }
        requires near { All (Within FARTHEST_BEFORE) before.now }
        ensures terms { IfOk result (λ terms. terms.frame ≡ terms_of setup.now now.now before.now) }
        ensures stand { IfOk result (StandFor setup.now) }
    {
        let targets = targets_of(alloc, setup.numbers.gravity, now, before)?;
        let kept = keep_near_pairs(alloc, setup, now)?;
        let close = close_pairs_at(alloc, setup, now)?;
        let contacts = contacts_at(alloc, setup, close.items(), now)?;
        let bodies = bodies_of(alloc, setup, false)?;
        let held = HeldEnergy::open(alloc, setup, close.items(), now)?;
        Ok(Terms {
            targets,
            contacts,
            bodies,
            held,
            kept,
        })
    }

    /// The targets, one per node, in 1/256 grid unit.
    pub fn targets(&self) -> &[V3]
        ensures { result.now ≡ self.now.frame.targets }
    {
        self.targets.as_slice()
    }

    /// The contacts where the frame begins, in the order of the close pairs.
    pub fn contacts(&self) -> &[Contact]
        ensures { map lagged_in result.now ≡ self.now.frame.contacts }
    {
        self.contacts.as_slice()
    }

    /// Goes on where the nodes stand at `x`, as for [`Terms::energy`]: where one has moved by more than dhat from its
    /// kept place, the near pairs at `x` are kept from now on, so that the close pairs there are found among the kept
    /// ones. Nothing else changes.
    pub fn follow(&mut self, alloc: Global, setup: &Setup, x: &Places) -> Result<(), AllocError>
        requires built { IsSetup setup.now }
        requires stand { StandFor setup.now self.old }
        requires pose { IsUpright setup.now x.now }
        ensures frame { self.new.frame ≡ self.old.frame }
        ensures stand { StandFor setup.now self.new }
        ensures stayed { IfOk result (λ _. IsTrue
            (have_stayed self.new.near_pairs.margin self.new.near_pairs.places x.now)) }
    {
        if !self.kept.have_stayed(x) {
            self.kept = keep_near_pairs(alloc, setup, x)?;
        }
        Ok(())
    }

    /// The potential where the nodes stand at `x`: one place per node, with positive volumes and no edge component above
    /// 65536.
    pub fn energy(&self, alloc: Global, setup: &Setup, x: &Places) -> Result<i128, AllocError>
        requires built { IsSetup setup.now }
        requires sturdy { IsSturdy setup.now }
        requires stand { StandFor setup.now self.now }
        requires pose { IsUpright setup.now x.now }
        ensures { IfOk result (λ energy. energy ≡ potential setup.now self.now.frame x.now) }
    {
        let pairs = loose_pairs_at(alloc, setup, &self.kept, x)?;
        let inertia = inertia_energy_of(setup.mass.items(), self.targets.as_slice(), x);
        let elastic = elastic_energy(self.bodies.as_slice(), x);
        let barriers = barrier_energy_of(setup, x, pairs.items());
        let friction = friction_energy_of(&setup.numbers, self.contacts.as_slice(), x);
        let held = self.held.at(alloc, setup, x)?;
        Ok(inertia + elastic + barriers + friction + held)
    }

    /// The gradient where the nodes stand at `x`, as for [`Terms::energy`]: three numbers per node in grid units times
    /// mass, 0 for fixed nodes. It replaces what `out` holds, and leaves it where memory is wanting.
    pub fn gradient(
        &self,
        alloc: Global,
        setup: &Setup,
        x: &Places,
        out: &mut Vec<i128>,
    ) -> Result<(), AllocError>
        requires built { IsSetup setup.now }
        requires sturdy { IsSturdy setup.now }
        requires stand { StandFor setup.now self.now }
        requires pose { IsUpright setup.now x.now }
        ensures gradient { OnOk result (out.new.items ≡ gradient setup.now self.now.frame x.now) }
        ensures each { OnOk result (length out.new.items ≡ 3 * length setup.now.mesh.numbers) }
        ensures small { OnOk result (All (AtMost (2 ^ 124)) out.new.items) }
        ensures unchanged { OnErr result (out.new.items ≡ out.old.items) }
    {
        *out = self.slopes(alloc, setup, x)?;
        Ok(())
    }

    /// The matrix where the nodes stand at `x`, as for [`Terms::energy`]: a row and a column of blocks for each node,
    /// those of the unit matrix for fixed nodes, and each entry cut to 62 bits.
    pub fn matrix(&self, alloc: Global, setup: &Setup, x: &Places) -> Result<Rows, AllocError>
        requires built { IsSetup setup.now }
        requires sturdy { IsSturdy setup.now }
        requires stand { StandFor setup.now self.now }
        requires pose { IsUpright setup.now x.now }
        ensures nodes { IfOk result (λ rows. nodes_of rows ≡ length setup.now.mesh.numbers) }
        ensures table { IfOk result (λ rows.
            table_of rows ≡ matrix setup.now self.now.frame x.now) }
    {
        let pairs = loose_pairs_at(alloc, setup, &self.kept, x)?;
        let sums = block_sums(
            alloc,
            setup,
            self.bodies.as_slice(),
            pairs.items(),
            self.contacts.as_slice(),
            x,
        )?;
        let rows = sums.finish(alloc)?;
        Ok(rows)
    }

    // The gradient.
    fn slopes(&self, alloc: Global, setup: &Setup, x: &Places) -> Result<Vec<i128>, AllocError>
        requires built { IsSetup setup.now }
        requires sturdy { IsSturdy setup.now }
        requires stand { StandFor setup.now self.now }
        requires pose { IsUpright setup.now x.now }
        ensures { IfOk result (λ made. made.items ≡ gradient setup.now self.now.frame x.now) }
    {
        let pairs = loose_pairs_at(alloc, setup, &self.kept, x)?;
        let mut sums = body_sums(
            alloc,
            setup.mass.items(),
            self.targets.as_slice(),
            self.bodies.as_slice(),
            x,
        )?;
        add_barrier_pulls(&mut sums, setup, x, pairs.items());
        add_friction_pulls(&mut sums, &setup.numbers, self.contacts.as_slice(), x);
        let made = node_numbers(alloc, sums.as_slice(), setup.fixed.items())?;
        Ok(made)
    }
}

// What inertia and elasticity add up to at each node.
fn body_sums(
    alloc: Global,
    masses: &[i128],
    targets: &[V3],
    bodies: &[Body],
    x: &Places,
) -> Result<Vec<W3>, AllocError>
    requires nodes { AreMovers masses.now targets.now x.now }
    requires few_nodes { length x.now ≤ 16384 }
    requires few_bodies { length bodies.now ≤ 65536 }
    requires stand { All (λ body. MayStand x.now (elastic_in body)) bodies.now }
    ensures sums { IfOk result (λ made. made.items ≡ node_sums (length x.now)
        (map (part_at masses.now targets.now x.now) (range_with_len 0 (length x.now)) ++
        map (λ body. elastic_contribution x.now (elastic_in body)) bodies.now)) }
    ensures small { IfOk result (λ made. AreLight (2 ^ 120) made.items) }
{
    let mut sums = vec![in alloc; NOTHING; x.len() as usize]?;
    add_inertia_pulls(&mut sums, masses, targets, x);
    add_elastic_pulls(&mut sums, bodies, x);
    Ok(sums)
}
