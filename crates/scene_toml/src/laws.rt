//! What a scene's text is worth.
ghost use Rattle.std.specs.Prelude.{◌≡◌, List, ℕ, Ok};
ghost use Rattle.toml.specs.Data.{Members};
ghost use Rattle.scene_toml.specs.declared.scene.Scene.{Scene};
ghost use Rattle.scene_toml.specs.Reading.{first_refusal, refusal};
ghost use Rattle.scene_toml.specs.Readings.{scene_keys};
ghost use Rattle.scene_toml.specs.Scenes.{IsScene, scene_in, scene_of_text};

/// Each scene that a text means is in range.
pub fn scenes_are_in_range()
    ensures { (bytes : List ℕ) (scene : Scene) → scene_of_text bytes ≡ Ok scene → IsScene scene }
{}

/// A scene is refused for the first of its keys that is refused, in the list's order, and for no other cause.
pub fn scenes_are_refused_in_key_order()
    ensures { (members : Members) → refusal (scene_in members) ≡ first_refusal scene_keys members }
{}
