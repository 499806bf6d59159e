//! Why no scene is read from a text.
ghost use Rattle.std.specs.Prelude.{◌≡◌};
ghost use Rattle.scene_toml.specs.declared.refusal.ReadSceneErr.TheVariants.{Memory};

use crate::texts::KeyText;
use std::alloc::AllocError;

/// The first fault of a scene's text.
#[derive(Debug, Drop)]
pub enum SceneErr {
    /// The text isn't TOML, or isn't even UTF-8.
    NotToml,
    /// No scene has this key.
    UnknownKey { key: KeyText },
    /// The key has to be there.
    Missing { key: KeyText },
    /// The value at the key is of another type, or is a list that hasn't three integers.
    WrongType { key: KeyText },
    /// The value is the integer at the key; of a list the first component that is out of range; of a text its
    /// length in bytes.
    OutOfRange { key: KeyText, value: i64 },
}

/// Why no scene was read: memory was wanting, or the text has a fault.
#[derive(Debug, Drop)]
pub enum ReadSceneErr {
    Memory,
    Scene(SceneErr),
}

impl From<AllocError> for ReadSceneErr {
    ghost from_gives = { λ _ e. e ≡ Memory };

    fn from(_: AllocError) -> Self {
        ReadSceneErr::Memory
    }
}
