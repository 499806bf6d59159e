//! What lines are made of: names, numbers, and how a frame ended.
ghost use Rattle.std.specs.Prelude.{◌≡◌, ◌++◌, codes, decimal, OnOk};
ghost use Rattle.report_text.specs.Words as words;

use dec_text::number_text;
use itoa::Integer;
use line_search::FrameEnd;
use std::alloc::AllocError;

fn printed_byte(b: u8) -> u8
    ensures { result ≡ words.printed_byte b }
{
    if b < 32 || b > 126 { b'?' } else { b }
}

/// Adds a name, printed.
pub fn add_name(text: &mut Vec<u8>, name: &str) -> Result<(), AllocError>
    ensures { OnOk result (text.new.items ≡ text.old.items ++ words.printed name.now) }
{
    for b in name.as_bytes() {
        text.push(printed_byte(*b))?;
    }
    Ok(())
}

/// Adds a number after a space.
pub fn add_field<I: Integer>(text: &mut Vec<u8>, n: I) -> Result<(), AllocError>
    ensures { OnOk result (text.new.items ≡ text.old.items ++ (codes " " ++ I.text n)) }
{
    text.extend_from_slice(b" ")?;
    number_text(n, text)
}

// Adds a word and a number.
fn add_count(text: &mut Vec<u8>, word: &[u8], n: u32) -> Result<(), AllocError>
    ensures { OnOk result (text.new.items ≡ text.old.items ++ (word.now ++ decimal n)) }
{
    text.extend_from_slice(word)?;
    number_text(n, text)
}

/// Adds how a frame ended, and after how many steps.
pub fn add_end(text: &mut Vec<u8>, end: FrameEnd) -> Result<(), AllocError>
    ensures { OnOk result (text.new.items ≡ text.old.items ++ words.end_words end) }
{
    match end {
        FrameEnd::Converged { steps } => add_count(text, b"converged ", steps),
        FrameEnd::Stalled { steps } => add_count(text, b"stalled ", steps),
        FrameEnd::Budget { steps } => add_count(text, b"budget ", steps),
    }
}
