//! The steps of one frame.
ghost use Rattle.std.specs.Prelude.{◌≡◌, ◌≤ℤ◌, ◌↔◌, ◌++◌, ◌∷◌, [], pos, IfOk, All, IsTrue, length, unsigned_abs};
ghost use Rattle.potential_sum.specs.Potential.{potential};
ghost use Rattle.line_search.specs.Steps.{AreReady};
ghost use Rattle.frame_driver.specs.Calls.Descents.{ComesNext, Descends, notes_of};

use crate::steps::step_at;
use line_search::{FrameEnd, Step};
use potential_sum::Terms;
use space3::Places;
use sparse_cg::Work;
use std::alloc::{AllocError, Global};
use surface_mesh::Setup;

// What comes next at some places.
#[derive(Drop)]
enum Next {
    Converged,
    Stalled,
    Step(Step),
}

/// The steps of a frame from the places `now`, at most `budget`: the last places, the steps where they are kept, and how
/// the frame ended.
pub(crate) fn descend(
    alloc: Global,
    setup: &Setup,
    terms: &mut Terms,
    tol: i64,
    budget: u32,
    keep: bool,
    now: &Places,
    work: &mut Work,
) -> Result<(Places, Vec<Step>, FrameEnd), AllocError>
    requires ready { AreReady setup.now terms.old now.now }
    requires room { length work.old ≡ length setup.now.mesh.numbers }
    ensures descent { IfOk result (λ done. Descends setup.now tol budget terms.old.frame keep
        now.now done.0 done.1.items done.2) }
    ensures room { length work.new ≡ length work.old }
{
    let mut slopes = Vec::new(alloc);
    let mut notes = Vec::new(alloc);
    let mut x = now.copy(alloc)?;
    let mut upper = terms.energy(alloc, setup, &x)?;
    for taken in 0..budget {
        match next_at(alloc, setup, terms, tol, &x, upper, &mut slopes, work)? {
            Next::Converged => return Ok((x, notes, FrameEnd::Converged { steps: taken })),
            Next::Stalled => return Ok((x, notes, FrameEnd::Stalled { steps: taken })),
            Next::Step(step) => {
                upper = step.lower;
                x = places_after(alloc, step, keep, &mut notes)?;
                terms.follow(alloc, setup, &x)?;
            }
        }
    }
    match next_at(alloc, setup, terms, tol, &x, upper, &mut slopes, work)? {
        Next::Converged => Ok((x, notes, FrameEnd::Converged { steps: budget })),
        Next::Stalled => Ok((x, notes, FrameEnd::Stalled { steps: budget })),
        Next::Step(_) => Ok((x, notes, FrameEnd::Budget { steps: budget })),
    }
}

// The places after a step. The step is added to the notes where they are kept.
fn places_after(
    alloc: Global,
    step: Step,
    keep: bool,
    notes: &mut Vec<Step>,
) -> Result<Places, AllocError>
    ensures places { IfOk result (λ places. places ≡ step.places) }
    ensures notes { IfOk result (λ _.
        notes.new.items ≡ notes.old.items ++ notes_of keep (step ∷ [])) }
{
    if !keep {
        return Ok(step.places);
    }
    let places = step.places.copy(alloc)?;
    notes.push(step)?;
    Ok(places)
}

// Whether the places x are at rest, and else their step. The potential there is `upper`. The gradient goes to
// `slopes`.
fn next_at(
    alloc: Global,
    setup: &Setup,
    terms: &Terms,
    tol: i64,
    x: &Places,
    upper: i128,
    slopes: &mut Vec<i128>,
    work: &mut Work,
) -> Result<Next, AllocError>
    requires ready { AreReady setup.now terms.now x.now }
    requires upper { upper ≡ potential setup.now terms.now.frame x.now }
    requires room { length work.old ≡ length setup.now.mesh.numbers }
    ensures next { IfOk result (ComesNext setup.now tol terms.now.frame x.now) }
    ensures room { length work.new ≡ length work.old }
{
    terms.gradient(alloc, setup, x, slopes)?;
    if is_at_rest(slopes, tol) {
        return Ok(Next::Converged);
    }
    match step_at(alloc, setup, terms, x, upper, slopes, work)? {
        None => Ok(Next::Stalled),
        Some(step) => Ok(Next::Step(step)),
    }
}

// No slope is above the tolerance.
fn is_at_rest(slopes: &[i128], tol: i64) -> bool
    ensures { IsTrue result ↔ All (λ slope. pos (unsigned_abs slope) ≤ℤ tol) slopes.now }
{
    slopes.iter().all(|slope| is_flat(*slope, tol))
}

fn is_flat(slope: i128, tol: i64) -> bool
    ensures { IsTrue result ↔ (pos (unsigned_abs slope) ≤ℤ tol) }
{
    let most = tol as i128;
    -most <= slope && slope <= most
}
