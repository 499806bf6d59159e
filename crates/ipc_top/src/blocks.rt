//! How many blocks the stated stack has.
ghost use Rattle.std.specs.Prelude.{◌≤◌};
ghost use Rattle.work_gen.specs.declared.stack.TheConstants.{MOST_BLOCKS};

/// A number of blocks, from 1 to the most.
#[derive(Clone, Copy)]
pub struct Blocks {
    pub count: u32,
    pub ghost some: { 1 ≤ count },
    pub ghost few: { count ≤ MOST_BLOCKS },
}
