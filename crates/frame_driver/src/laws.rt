//! Laws of paths. A law is a function that does nothing, whose contract is the law.
ghost use Rattle.std.specs.Prelude.{◌≡◌, ℕ, ℤ, List, length};
ghost use Rattle.space3.specs.declared.vectors.V3.{V3};
ghost use Rattle.surface_mesh.specs.declared.setup.Setup.{Setup};
ghost use Rattle.frame_driver.specs.Frames.{Frame};
ghost use Rattle.frame_driver.specs.Paths.{FramesAreSafe, FramesFrom, FramesGoDown, FramesHold};
ghost use Rattle.surface_mesh.specs.Safety.{IsSafeAt};

/// From all places, after all places, there is a path of so many frames.
pub fn there_is_a_path()
    ensures { (setup : Setup) (tol : ℤ) (budget : ℕ) (now before : List V3) (count : ℕ) →
        (frames : List Frame) × (length frames ≡ count) ×
        FramesFrom setup tol budget now before frames }
{}

/// There is only one.
pub fn one_path()
    ensures { (setup : Setup) (tol : ℤ) (budget : ℕ) (now before : List V3) (a b : List Frame) →
        length a ≡ length b →
        FramesFrom setup tol budget now before a → FramesFrom setup tol budget now before b → a ≡ b }
{}

/// From safe places on, each step of a path is safe: at every fraction no pair meets and every volume is positive. So is
/// each place at which a frame ends.
pub fn paths_are_safe()
    ensures { (setup : Setup) (tol : ℤ) (budget : ℕ) (now before : List V3) (frames : List Frame) →
        IsSafeAt setup now → FramesFrom setup tol budget now before frames
        → FramesAreSafe setup now frames }
{}

/// Each step of a path is that of Newton's direction, or where that has none of Jacobi's, and lowers the potential of
/// its frame.
pub fn paths_go_down()
    ensures { (setup : Setup) (tol : ℤ) (budget : ℕ) (now before : List V3) (frames : List Frame) →
        FramesFrom setup tol budget now before frames → FramesGoDown setup now before frames }
{}

/// No step of a path moves a fixed node. There is a flag for each node.
pub fn fixed_nodes_stay()
    ensures { (setup : Setup) (tol : ℤ) (budget : ℕ) (now before : List V3) (frames : List Frame) →
        length setup.fixed ≡ length setup.mesh.numbers → FramesFrom setup tol budget now before frames
        → FramesHold setup now frames }
{}
