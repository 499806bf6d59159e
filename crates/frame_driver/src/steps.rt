//! The step at some places.
ghost use Rattle.std.specs.Prelude.{◌≡◌, IfOk, IfSome, IfNone, length};
ghost use Rattle.potential_sum.specs.Potential.{potential};
ghost use Rattle.line_search.specs.Accepted.{HasNoAccepted};
ghost use Rattle.line_search.specs.Poses.{IsPose};
ghost use Rattle.line_search.specs.Steps.{AreReady, IsFirstStep};
ghost use Rattle.line_search.specs.declared.step.DirKind.TheVariants as kinds;
ghost use Rattle.frame_driver.specs.Directions.{HasNoNewtonStep, jacobi_at};
ghost use Rattle.frame_driver.specs.Frames.{HasNoStep, IsStepAt};
ghost use Rattle.frame_driver.specs.Calls.Systems.{AreRowsAt, AreSlopesAt, IsNewtonStep};

use block_rows::Rows;
use line_search::{DirKind, Step, first_step};
use plane_cut::Tally;
use potential_sum::Terms;
use space3::Places;
use sparse_cg::{Work, jacobi, newton};
use std::alloc::{AllocError, Global};
use surface_mesh::{DirList, Setup};

// The step at the places x, where the potential is `upper` and the gradient is `slopes`: that of Newton's direction, else
// that of Jacobi's.
pub(crate) fn step_at(
    alloc: Global,
    setup: &Setup,
    terms: &Terms,
    x: &Places,
    upper: i128,
    slopes: &[i128],
    work: &mut Work,
) -> Result<Option<Step>, AllocError>
    requires ready { AreReady setup.now terms.now x.now }
    requires upper { upper ≡ potential setup.now terms.now.frame x.now }
    requires slopes { AreSlopesAt setup.now terms.now.frame x.now slopes.now }
    requires room { length work.old ≡ length setup.now.mesh.numbers }
    ensures step { IfOk result (λ step. IfSome step (IsStepAt setup.now terms.now.frame x.now)) }
    ensures none { IfOk result (λ step. IfNone step (HasNoStep setup.now terms.now.frame x.now)) }
    ensures pose { IfOk result (λ step. IfSome step (λ s. IsPose setup.now s.places)) }
    ensures room { length work.new ≡ length work.old }
{
    let rows = terms.matrix(alloc, setup, x)?;
    let found = newton_step(alloc, setup, terms, x, upper, &rows, slopes, work)?;
    if let Some(step) = found {
        return Ok(Some(step));
    }
    jacobi_step(alloc, setup, terms, x, upper, &rows, slopes, work)
}

// The step of Newton's direction, if there is one.
fn newton_step(
    alloc: Global,
    setup: &Setup,
    terms: &Terms,
    x: &Places,
    upper: i128,
    rows: &Rows,
    slopes: &[i128],
    work: &mut Work,
) -> Result<Option<Step>, AllocError>
    requires ready { AreReady setup.now terms.now x.now }
    requires upper { upper ≡ potential setup.now terms.now.frame x.now }
    requires rows { AreRowsAt setup.now terms.now.frame x.now rows.now }
    requires slopes { AreSlopesAt setup.now terms.now.frame x.now slopes.now }
    requires room { length work.old ≡ length setup.now.mesh.numbers }
    ensures step { IfOk result (λ step. IfSome step (IsNewtonStep setup.now terms.now.frame x.now)) }
    ensures none { IfOk result (λ step. IfNone step (HasNoNewtonStep setup.now terms.now.frame x.now)) }
    ensures pose { IfOk result (λ step. IfSome step (λ s. IsPose setup.now s.places)) }
    ensures room { length work.new ≡ length work.old }
{
    if !newton(rows, slopes, work) {
        return Ok(None);
    }
    step_along(alloc, setup, terms, x, DirKind::Newton, upper, work)
}

// The step of Jacobi's direction, if there is one.
fn jacobi_step(
    alloc: Global,
    setup: &Setup,
    terms: &Terms,
    x: &Places,
    upper: i128,
    rows: &Rows,
    slopes: &[i128],
    work: &mut Work,
) -> Result<Option<Step>, AllocError>
    requires ready { AreReady setup.now terms.now x.now }
    requires upper { upper ≡ potential setup.now terms.now.frame x.now }
    requires rows { AreRowsAt setup.now terms.now.frame x.now rows.now }
    requires slopes { AreSlopesAt setup.now terms.now.frame x.now slopes.now }
    requires room { length work.old ≡ length setup.now.mesh.numbers }
    ensures step { IfOk result (λ step. IfSome step (IsFirstStep setup.now terms.now.frame x.now
        kinds.Jacobi (jacobi_at setup.now terms.now.frame x.now))) }
    ensures none { IfOk result (λ step. IfNone step (HasNoAccepted setup.now terms.now.frame x.now
        (jacobi_at setup.now terms.now.frame x.now))) }
    ensures pose { IfOk result (λ step. IfSome step (λ s. IsPose setup.now s.places)) }
    ensures room { length work.new ≡ length work.old }
{
    jacobi(rows, slopes, work);
    step_along(alloc, setup, terms, x, DirKind::Jacobi, upper, work)
}

// The first step of the direction in `work`, which is of this kind, if there is one.
fn step_along(
    alloc: Global,
    setup: &Setup,
    terms: &Terms,
    x: &Places,
    kind: DirKind,
    upper: i128,
    work: &Work,
) -> Result<Option<Step>, AllocError>
    requires ready { AreReady setup.now terms.now x.now }
    requires upper { upper ≡ potential setup.now terms.now.frame x.now }
    requires each { length work.now ≡ length setup.now.mesh.numbers }
    ensures first { IfOk result (λ step.
        IfSome step (IsFirstStep setup.now terms.now.frame x.now kind work.now)) }
    ensures exhausted { IfOk result (λ step.
        IfNone step (HasNoAccepted setup.now terms.now.frame x.now work.now)) }
    ensures pose { IfOk result (λ step. IfSome step (λ s. IsPose setup.now s.places)) }
{
    let direction = DirList::of_vec(Vec::from_slice(alloc, work.dir())?);
    let mut tally = Tally { n: 0 };
    first_step(alloc, setup, terms, x, kind, direction, upper, &mut tally)
}
