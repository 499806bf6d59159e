//! The step of a direction.
ghost use Rattle.std.specs.Prelude.{◌≡◌, IfOk, IfSome, IfNone};
ghost use Rattle.potential_sum.specs.Potential.{potential};
ghost use Rattle.line_search.specs.Accepted.{HasNoAccepted};
ghost use Rattle.line_search.specs.Decisions.{RisesByHalvings};
ghost use Rattle.line_search.specs.Poses.{IsPose};
ghost use Rattle.line_search.specs.Steps.{AreReady, IsDirection, IsFirstStep};
ghost use Rattle.surface_mesh.specs.Safety.{IsSafeStep};

use crate::halvings::first_halving;
use plane_cut::Tally;
use potential_sum::Terms;
use space3::Places;
use std::alloc::{AllocError, Global};
use surface_mesh::{DirList, Setup};

/// Of which method a direction is.
#[derive(Clone, Copy, PartialEq, Eq, Debug)]
pub enum DirKind {
    /// Newton's, by conjugate gradients.
    Newton,
    /// Jacobi's: the gradient over the matrix's diagonal.
    Jacobi,
}

/// A step that was taken.
#[derive(Drop)]
pub struct Step {
    /// Of which method the direction is.
    pub kind: DirKind,
    /// How often the direction was halved.
    pub half: u8,
    /// The direction before it was halved, one vector per node.
    pub direction: DirList,
    /// The places after the step, one per node.
    pub places: Places,
    /// The potential after the step.
    pub lower: i128,
    /// The potential before the step.
    pub upper: i128,
}

/// The step of the least accepted halving of a direction of this kind, from 0 to 20, or None exactly where none is accepted.
///
/// A halving is accepted where it moves some node, all nodes stay in the box, no component of an edge gets above
/// 65536 grid units, each pair of parts of the surface that must not meet is certified to stay apart and each
/// tetrahedron to keep a positive volume all the way, and the potential gets lower. One vector per node in grid units,
/// each component below 2^21 in absolute value. The potential at `x` is `upper`: after a step it is that step's
/// `lower`. The tally counts plane decisions: at most 511 for each pair whose boxes touch, in each halving that comes
/// as far as the certificates.
pub fn first_step(
    alloc: Global,
    setup: &Setup,
    terms: &Terms,
    x: &Places,
    kind: DirKind,
    direction: DirList,
    upper: i128,
    tally: &mut Tally,
) -> Result<Option<Step>, AllocError>
    requires ready { AreReady setup.now terms.now x.now }
    requires direction { IsDirection x.now direction }
    requires upper { upper ≡ potential setup.now terms.now.frame x.now }
    ensures first { IfOk result (λ step.
        IfSome step (IsFirstStep setup.now terms.now.frame x.now kind direction)) }
    ensures exhausted { IfOk result (λ step.
        IfNone step (HasNoAccepted setup.now terms.now.frame x.now direction)) }
    // At every fraction of the step no pair meets, and each volume is positive.
    ensures safe { IfOk result (λ step. IfSome step (λ s. IsSafeStep setup.now x.now s.places)) }
    ensures pose { IfOk result (λ step. IfSome step (λ s. IsPose setup.now s.places)) }
    ensures tally { RisesByHalvings setup.now terms.now.frame x.now direction tally.old.n tally.new.n }
{
    match first_halving(alloc, setup, terms, x, direction.items(), upper, tally)? {
        None => Ok(None),
        Some(halving) => Ok(Some(Step {
            kind,
            half: halving.half,
            direction,
            places: halving.places,
            lower: halving.lower,
            upper,
        })),
    }
}
