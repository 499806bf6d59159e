//! What the definitions say together.
ghost use Rattle.std.specs.Prelude.{◌≡◌, ◌↔◌, ℕ, ◌^◌, ◌<◌, ◌≤◌, List, length, ℤ, unsigned_abs, Result};
ghost use Rattle.std.specs.List.{All};
ghost use Rattle.dec_text.specs.Grid.{grid_value, IsAnswer};
ghost use Rattle.dec_text.specs.GridText.{grid_decimal};
ghost use Rattle.dec_text.specs.declared.DecErr.{DecErr};

use crate::Snap;

/// What is computed of a text is the one answer that says what the grammar's decimal is worth: the place, or the
/// reason why there is none.
pub fn answers_say_what_is_written()
    ensures { (text : List ℕ) (digits : ℕ) (snap : Snap) (answer : Result ℤ DecErr)
        → (grid_value text digits snap ≡ answer) ↔ IsAnswer text digits snap answer }
{}

/// The decimal of a place is a word of digits, `-` and points, with no blank in it.
pub fn place_is_a_word()
    ensures { (v : ℤ) (digits : ℕ) → unsigned_abs v < 2 ^ 64 → (0 < length (grid_decimal v digits))
        × All (λ b. (45 ≤ b) × (b ≤ 57)) (grid_decimal v digits) }
{}
