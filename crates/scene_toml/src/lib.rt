//! Scenes as TOML: `read_scene` gives the scene that a text means, or the first fault in it.
//!
//! `scene`: the call. `groups`: keys that are read together. `keys`: the keys with their ranges, `tables`: look-ups and
//! unknown keys, `values`, `texts`: what stands at a key. `parts`: the parts. `refusal`: why there is no scene. `laws`:
//! what a text is worth.
#![tactic(auto)]

mod groups;
mod keys;
mod laws;
mod parts;
mod refusal;
mod scene;
mod tables;
mod texts;
mod values;

pub use keys::{BUDGET_LIMIT, FRAME_LIMIT, NAME_LIMIT, TOL_LIMIT};
pub use laws::{scenes_are_in_range, scenes_are_refused_in_key_order};
pub use refusal::{ReadSceneErr, SceneErr};
pub use scene::{Scene, read_scene};
pub use texts::{KeyText, NameText};
