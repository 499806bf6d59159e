//! What lines with their numbers are worth.

ghost use Rattle.std.specs.Prelude.{◌≡◌, List, ℕ, map};
ghost use Rattle.line_fields.specs.Lines.{numbered_from, rows};

/// The numbered lines of a text are its rows, whatever number the first line has.
pub fn numbered_lines_are_rows()
    ensures { (first : ℕ) (text : List ℕ) → map (λ line. line.1) (numbered_from first text) ≡ rows text }
{}
