//! How a frame ends.

/// How a frame ended, with the number of steps that it took.
#[derive(Clone, Copy, PartialEq, Eq, Debug)]
pub enum FrameEnd {
    /// No component of the gradient is above the tolerance.
    Converged { steps: u32 },
    /// There is no step that is accepted.
    Stalled { steps: u32 },
    /// The budget of steps is spent.
    Budget { steps: u32 },
}
