//! The cursor: the next line of a text that has a field, and the next field of a line.

ghost use Rattle.std.specs.Prelude.{◌≡◌, ◌≢◌, ◌<◌, ◌≤◌, ◌+◌, ◌-◌, ◌^◌, [], ◌∷◌, not, length, position, IfSome, MatchOption};
ghost use Rattle.line_fields.specs.Lines.{fields, is_blank, is_filled, is_line_feed, numbered_from, IsFirstLine, IsLineAfter};

fn is_blank_byte(byte: u8) -> bool
    ensures { result ≡ is_blank byte }
{
    byte == b' ' || byte == b'\t' || byte == b'\r'
}

/// Where the first line feed stands, if there is one.
fn line_feed(text: &[u8]) -> Option<usize>
    ensures { result ≡ position is_line_feed text.now }
{
    text.iter().position(|byte| *byte == b'\n')
}

/// Where the first byte of the first field stands, if there is one.
fn first_filled(line: &[u8]) -> Option<usize>
    ensures { result ≡ position (λ byte. not (is_blank byte)) line.now }
{
    line.iter().position(|byte| !is_blank_byte(*byte))
}

/// Where the first blank stands, if there is one.
fn first_blank(line: &[u8]) -> Option<usize>
    ensures { result ≡ position is_blank line.now }
{
    line.iter().position(|byte| is_blank_byte(*byte))
}

/// The first line of a text, without its line feed, and the text after that line feed, if any.
pub(crate) fn split_line(text: &[u8]) -> (&[u8], &[u8])
    ensures first { IsFirstLine text.now result.0.now result.1.now }
    ensures shorter { 0 < length text.now → length result.1.now < length text.now }
{
    match line_feed(text) {
        Some(end) => (&text[..end], &text[end + 1..]),
        None => (text, &[]),
    }
}

/// The first field of a line, and what follows it in the line; nothing where the line has no field.
pub fn next_field(line: &[u8]) -> Option<(&[u8], &[u8])>
    ensures first { MatchOption result (fields line.now ≡ []) (λ r. fields line.now ≡ r.0.now ∷ fields r.1.now) }
    ensures shorter { IfSome result (λ r. length r.1.now < length line.now) }
{
    let (_, filled) = line.split_at(first_filled(line)?);
    match first_blank(filled) {
        Some(end) => Some(filled.split_at(end)),
        None => Some((filled, &[])),
    }
}

/// Whether a line has a field.
pub fn has_field(line: &[u8]) -> bool
    ensures { result ≡ is_filled (fields line.now) }
{
    match next_field(line) {
        Some(_) => true,
        None => false,
    }
}

/// The first line of a text that has a field: its number, the line, and the text after it; nothing where no line has
/// one. The text's first line has the number `first`.
pub fn next_line(text: &[u8], first: usize) -> Option<(usize, &[u8], &[u8])>
    requires { first + length text.now < 2 ^ 64 }
    ensures first { MatchOption result (numbered_from first text.now ≡ [])
        (λ r. numbered_from first text.now ≡ (r.0, fields r.1.now) ∷ numbered_from (r.0 + 1) r.2.now) }
    ensures line { IfSome result (λ r. IsLineAfter (r.0 - first) text.now r.1.now r.2.now) }
    ensures filled { IfSome result (λ r. fields r.1.now ≢ []) }
    ensures within { IfSome result (λ r. (r.0 + 1) + length r.2.now ≤ first + length text.now) }
    ensures shorter { IfSome result (λ r. length r.2.now < length text.now) }
{
    let mut rest = text;
    let mut number = first;
    while !rest.is_empty() {
        let (line, after) = split_line(rest);
        if has_field(line) {
            return Some((number, line, after));
        }
        number += 1;
        rest = after;
    }
    None
}
