//! What a row's first field says.
ghost use Rattle.std.specs.Prelude.{◌≡◌, ◌==◌, ◌<◌, ◌∷◌, [], ◌++◌, slice_index, codes};
ghost use Rattle.line_fields.specs.Lines.{fields};
ghost use Rattle.mesh_words.specs.Rows.{is_dollar, is_word, is_end, name_of};

use line_fields::next_field;

/// Whether a line's first field begins with `$`.
#[tactic(auto, unfolding(crate::specs::Rows::is_dollar))]
pub fn begins_with_dollar(line: &[u8]) -> bool
    ensures { result ≡ is_dollar (fields line.now) }
{
    match next_field(line) {
        Some((field, _)) => begins_with_byte(field, b'$'),
        None => false,
    }
}

fn begins_with_byte(field: &[u8], byte: u8) -> bool
    requires { 0 < byte }
    ensures { result ≡ (slice_index field.now 0 == byte) }
{
    !field.is_empty() && field[0] == byte
}

/// Whether a line's first field is that word, whatever follows it.
#[tactic(auto, unfolding(crate::specs::Rows::is_word))]
pub fn begins_with_word(line: &[u8], word: &[u8]) -> bool
    ensures { result ≡ is_word word.now (fields line.now) }
{
    match next_field(line) {
        Some((field, _)) => field == word,
        None => false,
    }
}

/// The name of the section that a line opens: its first field without the `$` at its front.
#[tactic(auto, unfolding(crate::specs::Rows::name_of))]
pub fn section_name(line: &[u8]) -> &[u8]
    ensures { result.now ≡ name_of (fields line.now) }
{
    match next_field(line) {
        Some((field, _)) => { if field.is_empty() { &[] } else { &field[1..] } }
        None => &[],
    }
}

/// Whether a line ends the section of that name: its first field is `$End` and the name, whatever follows it.
#[tactic(auto, unfolding(crate::specs::Rows::is_word))]
pub fn ends_section(line: &[u8], name: &[u8]) -> bool
    ensures { result ≡ is_end name.now (fields line.now) }
{
    match next_field(line) {
        Some((field, _)) => is_end_of(field, name),
        None => false,
    }
}

fn is_end_of(field: &[u8], name: &[u8]) -> bool
    ensures { result ≡ is_word (codes "$End" ++ name.now) (field.now ∷ []) }
{
    if field.len() < 4 {
        return false;
    }
    let (word, rest) = field.split_at(4);
    word == b"$End".as_slice() && rest == name
}
