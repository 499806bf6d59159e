//! Texts of a scene, each seen as the list of its bytes.
ghost use Rattle.std.specs.Prelude.{◌≡◌, string_bytes};

use std::marker::Model;

/// A key as it is printed: after the names of the tables that it stands in, as `material.density`.
#[derive(Debug, Drop)]
pub struct KeyText {
    text: String,
}

impl Model for KeyText {
    ghost use Rattle.std.specs.Prelude.{List, ℕ, string_bytes};

    ghost Value = { List ℕ };

    ghost view = { λ key. string_bytes key.text };
}

impl KeyText {
    /// The key that is printed so.
    pub fn of_text(text: String) -> Self
        ensures { result ≡ string_bytes text }
    {
        KeyText { text }
    }

    /// The key as it is printed.
    pub fn text(&self) -> &str
        ensures { result.now ≡ self.now }
    {
        self.text.as_str()
    }
}

/// The name of a file, as a scene gives it.
#[derive(Debug, Drop)]
pub struct NameText {
    text: String,
}

impl Model for NameText {
    ghost use Rattle.std.specs.Prelude.{List, ℕ, string_bytes};

    ghost Value = { List ℕ };

    ghost view = { λ name. string_bytes name.text };
}

impl NameText {
    /// The name with this text.
    pub fn of_text(text: String) -> Self
        ensures { result ≡ string_bytes text }
    {
        NameText { text }
    }

    /// The name's text.
    pub fn text(&self) -> &str
        ensures { result.now ≡ self.now }
    {
        self.text.as_str()
    }
}
