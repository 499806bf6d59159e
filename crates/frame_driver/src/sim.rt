//! A simulation, frame by frame.
ghost use Rattle.std.specs.Prelude.{◌≡◌, length, IfOk, OnErr, OnOk};
ghost use Rattle.surface_mesh.specs.Setup.{IsSetup};
ghost use Rattle.surface_mesh.specs.Sturdy.{IsFit};
ghost use Rattle.frame_driver.specs.Sims.{Advances, start_of};

use crate::before::{list_of, places_before};
use crate::frame::descend;
use line_search::{FrameEnd, Step};
use potential_sum::Terms;
use space3::{Places, V3};
use sparse_cg::Work;
use std::alloc::{AllocError, Global};
use std::marker::Model;
use surface_mesh::Setup;

/// Bodies on their way, between two frames.
#[derive(Drop)]
pub struct Sim {
    setup: Setup,
    tol: i64,
    budget: u32,
    keep: bool,
    places: Places,
    before: Vec<V3>,
    notes: Vec<Step>,
    work: Work,
}

impl Model for Sim {
    ghost use Rattle.frame_driver.specs.Sims.{SimState, state_of};
    ghost use Rattle.frame_driver.specs.Calls.WorkingSims.{IsWorkingSim};

    ghost Value = { SimState };

    ghost view = { λ s.
        state_of s.setup s.tol s.budget s.keep s.places s.before.items s.notes.items };

    ghost invariant = { λ s. IsWorkingSim
        (state_of s.setup s.tol s.budget s.keep s.places s.before.items s.notes.items) s.work };
}

impl Sim {
    /// The start of a path: the mesh's places, and before them the mesh's places less the velocities. The setup has
    /// no defect. A frame is at rest where no component of the gradient is above `tol` in absolute value, in grid
    /// units times mass, and takes at most `budget` steps; [`Sim::notes`] has them where they are to be kept. Where memory
    /// is wanting, the setup is given up.
    pub fn open(
        alloc: Global,
        setup: Setup,
        tol: i64,
        budget: u32,
        keep: bool,
    ) -> Result<Self, AllocError>
        requires built { IsSetup setup }
        requires fit { IsFit setup }
        ensures { IfOk result (λ sim. sim ≡ start_of setup tol budget keep) }
    {
        let before = places_before(alloc, &setup.mesh.places, setup.velocity.items())?;
        let places = setup.mesh.places.copy(alloc)?;
        let work = Work::open(alloc, places.len())?;
        Ok(Sim {
            setup,
            tol,
            budget,
            keep,
            places,
            before,
            notes: Vec::new(alloc),
            work,
        })
    }

    /// Computes the next frame: steps along Newton's direction, or along Jacobi's where that has none. Where memory is
    /// wanting, all stays as it was.
    pub fn frame(&mut self, alloc: Global) -> Result<FrameEnd, AllocError>
        ensures frame { IfOk result (λ end. Advances end self.old self.new) }
        ensures unchanged { OnErr result (self.new ≡ self.old) }
    {
        let mut terms = Terms::open(alloc, &self.setup, &self.places, &self.before)?;
        let (places, notes, end) = descend(
            alloc,
            &self.setup,
            &mut terms,
            self.tol,
            self.budget,
            self.keep,
            &self.places,
            &mut self.work,
        )?;
        let before = list_of(alloc, &self.places)?;
        self.places = places;
        self.before = before;
        self.notes = notes;
        Ok(end)
    }

    /// The places now, one per node.
    pub fn places(&self) -> &Places
        ensures value { result.now ≡ self.now.places }
        ensures each { length result.now ≡ length self.now.setup.mesh.numbers }
    {
        &self.places
    }

    /// The places at the start of the last frame, one per node.
    pub fn before(&self) -> &[V3]
        ensures { result.now ≡ self.now.before }
    {
        self.before.as_slice()
    }

    /// The steps of the last frame, in order, where they are kept; else none. None before the first frame.
    pub fn notes(&self) -> &[Step]
        ensures { result.now ≡ self.now.notes }
    {
        self.notes.as_slice()
    }

    /// The bodies.
    pub fn setup(&self) -> &Setup
        ensures value { result.now ≡ self.now.setup }
        ensures built { IsSetup result.now }
    {
        &self.setup
    }
}
