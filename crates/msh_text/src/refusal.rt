//! Why a mesh text is refused.
ghost use Rattle.std.specs.Prelude.{◌≡◌};
ghost use Rattle.msh_text.specs.declared.refusal.ReadMshErr.TheVariants.{Memory};

use mesh_words::MshKind;
use std::alloc::{AllocError, AllocFailed};

/// What is wrong with a mesh text, and in which line, counted from 1.
#[derive(Clone, Copy, Debug, PartialEq, Eq)]
pub struct MshErr {
    pub line: u64,
    pub kind: MshKind,
}

/// Why no mesh was read: memory was wanting, or the text has a fault.
#[derive(Clone, Copy, Debug, PartialEq, Eq)]
pub enum ReadMshErr {
    Memory,
    Text(MshErr),
}

impl From<AllocError> for ReadMshErr {
    ghost from_gives = { λ _ e. e ≡ Memory };

    fn from(_: AllocError) -> Self {
        ReadMshErr::Memory
    }
}

impl<T: Drop> From<AllocFailed<T>> for ReadMshErr {
    ghost from_gives = { λ _ e. e ≡ Memory };

    fn from(_: AllocFailed<T>) -> Self {
        ReadMshErr::Memory
    }
}
