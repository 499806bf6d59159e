//! A text as the parts of a decimal.
ghost use Rattle.std.specs.Prelude.{◌≡◌, ◌≤◌, ◌+◌, [], ◌++◌, IsTrue, ◌&&◌, ◌||◌, not, length, drop};
ghost use Rattle.std.specs.List.{position, position_or_len, list_any, list_all};
ghost use Rattle.std.specs.Char.{is_ascii_digit};
ghost use Rattle.std.specs.Str.Parse.{without_leading_sign, starts_with_minus};
ghost use Rattle.dec_text.specs.Calls.Reader.{is_point, is_mark, is_numeral, mantissa, digits_before, digits_behind, exponent_text};

/// What stands where in a text, whether it is a decimal or not.
#[derive(Drop)]
pub(crate) struct Parts<'a> {
    pub negative: bool,
    pub before: &'a [u8],
    pub behind: &'a [u8],
    pub has_exponent: bool,
    pub exponent: &'a [u8],
}

impl<'a> Parts<'a> {
    pub fn of(text: &'a [u8]) -> Parts<'a>
        ensures negative { result.negative ≡ starts_with_minus (mantissa text.now) }
        ensures before { result.before.now ≡ digits_before text.now }
        ensures behind { result.behind.now ≡ digits_behind text.now }
        ensures has_exponent { result.has_exponent ≡ list_any is_mark text.now }
        ensures exponent { result.exponent.now ≡ exponent_text text.now }
        ensures no_exponent { ¬ (IsTrue result.has_exponent) → result.exponent.now ≡ [] }
    {
        let mark = mark_index(text);
        let numeral = unsigned(&text[..mark]);
        let point = point_index(numeral);
        Parts {
            negative: is_minus_first(&text[..mark]),
            before: &numeral[..point],
            behind: bytes_behind(numeral, point),
            has_exponent: mark < text.len(),
            exponent: bytes_behind(text, mark),
        }
    }

    pub fn is_decimal(&self) -> bool
        ensures { result ≡ (is_numeral (self.now.before.now ++ self.now.behind.now)
            && (not self.now.has_exponent
            || is_numeral (without_leading_sign self.now.exponent.now))) }
    {
        let exponent = unsigned(self.exponent);
        let digits = !self.before.is_empty() || !self.behind.is_empty();
        let power = !self.has_exponent || (!exponent.is_empty() && are_digits(exponent));
        digits && power && are_digits(self.before) && are_digits(self.behind)
    }
}

/// Where the mark of an exponent stands, or the end.
fn mark_index(text: &[u8]) -> usize
    ensures index { result ≡ position_or_len is_mark text.now }
    ensures within { result ≤ length text.now }
{
    first_mark(text).unwrap_or(text.len())
}

fn first_mark(text: &[u8]) -> Option<usize>
    ensures { result ≡ position is_mark text.now }
{
    text.iter().position(|b| *b == b'e' || *b == b'E')
}

/// Where the point stands, or the end.
fn point_index(text: &[u8]) -> usize
    ensures index { result ≡ position_or_len is_point text.now }
    ensures within { result ≤ length text.now }
{
    first_point(text).unwrap_or(text.len())
}

fn first_point(text: &[u8]) -> Option<usize>
    ensures { result ≡ position is_point text.now }
{
    text.iter().position(|b| *b == b'.')
}

/// What stands behind the byte at an index; nothing where the index is the end.
fn bytes_behind(text: &[u8], at: usize) -> &[u8]
    requires { at ≤ length text.now }
    ensures { result.now ≡ drop (at + 1) text.now }
{
    if at < text.len() {
        &text[at + 1..]
    } else {
        &[]
    }
}

pub(crate) fn is_minus_first(text: &[u8]) -> bool
    ensures { result ≡ starts_with_minus text.now }
{
    !text.is_empty() && text[0] == b'-'
}

pub(crate) fn unsigned(text: &[u8]) -> &[u8]
    ensures { result.now ≡ without_leading_sign text.now }
{
    if !text.is_empty() && (text[0] == b'-' || text[0] == b'+') {
        &text[1..]
    } else {
        text
    }
}

fn are_digits(bytes: &[u8]) -> bool
    ensures { result ≡ list_all is_ascii_digit bytes.now }
{
    bytes.iter().all(|b| b.is_ascii_digit())
}
