//! Transcripts of commands: files, words, and what came of them.
//!
//! A line that begins with `#` is an order, and the lines up to the next order are its text. In a text a line `@NAME`
//! stands for the text of the file NAME, and empty lines at the end don't count. `\n` and `\t` are a line feed and a tab.
//! Each transcript goes on after `START`.
//!
//! | order | |
//! |---|---|
//! | `#file NAME` | each later command finds a file of this text |
//! | `#crlf NAME` | likewise, and its lines end with CR LF |
//! | `#shelf_fails CALL` | the shelf of the next command fails at this call |
//! | `#console_fails CALL` | the console of the next command fails at this call |
//! | `#do WORDS` | a command of these words |
//! | `#says STATUS` | it ended with this status, and this text is all that it said |
//! | `#has NAME` | it left a file of this text |
//! | `#lacks NAME` | it left no file of this name |
//! | `#failed NAME` | the last call that failed was for this file |
//! | `## ..` | a remark |

use crate::desk::Desk;
use crate::start::START;
use std::alloc::{AllocError, Global};
use std::process::Abort;

/// Asserts that each order of a transcript holds.
pub fn holds(rt: &impl Abort, alloc: Global, transcript: &str) -> Result<(), AllocError> {
    assert_eq!(rt; first_fault(alloc, transcript)?, None);
    Ok(())
}

// The first order that doesn't hold, with its text and the number of its line, counted from 1.
fn first_fault(alloc: Global, transcript: &str) -> Result<Option<(usize, &str)>, AllocError> {
    let mut desk = started(alloc)?;
    play(alloc, &mut desk, transcript)
}

/// A desk with the files of `START`.
pub fn started(alloc: Global) -> Result<Desk, AllocError> {
    let mut desk = Desk::new(alloc);
    // It has no order that may not hold.
    let _ = play(alloc, &mut desk, START)?;
    Ok(desk)
}

// Does what each order says, up to the first that doesn't hold.
fn play<'a>(
    alloc: Global,
    desk: &mut Desk,
    transcript: &'a str,
) -> Result<Option<(usize, &'a str)>, AllocError> {
    let mut line: usize = 1;
    for (number, piece) in transcript.split("\n#").enumerate() {
        if number > 0 && !meets(alloc, desk, piece)? {
            return Ok(Some((line, piece)));
        }
        line = line.saturating_add(piece.split('\n').count());
    }
    Ok(None)
}

// Does what an order asks for, or says whether it holds.
fn meets(alloc: Global, desk: &mut Desk, piece: &str) -> Result<bool, AllocError> {
    let (line, lines) = piece.split_once('\n').unwrap_or((piece, ""));
    let (order, rest) = line.split_once(' ').unwrap_or((line, ""));
    if !takes_text(order) && !lines.trim_end_matches('\n').is_empty() {
        return Ok(false);
    }
    match order {
        "#" => Ok(true),
        "file" => put(alloc, desk, rest, lines, "\n"),
        "crlf" => put(alloc, desk, rest, lines, "\r\n"),
        "shelf_fails" | "console_fails" => Ok(plans_fault(desk, order, rest)),
        "do" => obeys(alloc, desk, rest),
        _ => is_left(alloc, desk, order, rest, lines),
    }
}

// Whether lines may stand below an order.
fn takes_text(order: &str) -> bool {
    match order {
        "#" | "file" | "crlf" | "says" | "has" => true,
        _ => false,
    }
}

// Puts a file of these lines, which end so.
fn put(
    alloc: Global,
    desk: &mut Desk,
    name: &str,
    lines: &str,
    end: &str,
) -> Result<bool, AllocError> {
    let text = expanded(alloc, desk, lines, end)?;
    desk.put(name, text)?;
    Ok(true)
}

// Lets a call of the next command fail, if it is a number.
fn plans_fault(desk: &mut Desk, order: &str, call: &str) -> bool {
    let Ok(call) = call.parse::<u64>() else {
        return false;
    };
    if order == "shelf_fails" {
        desk.fail_shelf_at(call);
    } else {
        desk.fail_console_at(call);
    }
    true
}

// Does the command of these words.
fn obeys(alloc: Global, desk: &mut Desk, line: &str) -> Result<bool, AllocError> {
    let words = words_of(alloc, line)?;
    desk.obey(&words)?;
    Ok(true)
}

/// The words between blanks.
pub fn words_of(alloc: Global, line: &str) -> Result<Vec<String>, AllocError> {
    let mut words = Vec::new(alloc);
    for word in line.split_whitespace() {
        words.push(unescaped(alloc, word)?)?;
    }
    Ok(words)
}

// Whether an order holds after the last command.
fn is_left(
    alloc: Global,
    desk: &Desk,
    order: &str,
    rest: &str,
    lines: &str,
) -> Result<bool, AllocError> {
    let name = unescaped(alloc, rest)?;
    let text = expanded(alloc, desk, lines, "\n")?;
    Ok(match order {
        "says" => ended(desk, rest) && desk.said() == text.as_bytes(),
        "has" => desk.left(name.as_str()) == Some(text.as_bytes()),
        "lacks" => desk.left(name.as_str()).is_none(),
        "failed" => desk.failed_name() == Some(name.as_str()),
        _ => false,
    })
}

// Whether the last command ended with the status of this numeral.
fn ended(desk: &Desk, status: &str) -> bool {
    match status.parse::<u8>() {
        Ok(status) => desk.status == status,
        Err(_) => false,
    }
}

// The text of these lines, which end so.
fn expanded(alloc: Global, desk: &Desk, lines: &str, end: &str) -> Result<String, AllocError> {
    let mut text = String::new(alloc);
    for line in lines.trim_end_matches('\n').lines() {
        match named(desk, line) {
            Some(part) => text.push_str(part)?,
            None => {
                text.push_str(unescaped(alloc, line)?.as_str())?;
                text.push_str(end)?;
            }
        }
    }
    Ok(text)
}

// The text that a line `@NAME` stands for.
fn named<'a>(desk: &'a Desk, line: &str) -> Option<&'a str> {
    desk.text(line.strip_prefix('@')?)
}

// The text in which `\n` is a line feed and `\t` a tab.
fn unescaped(alloc: Global, text: &str) -> Result<String, AllocError> {
    text.replace(alloc, "\\n", "\n")?
        .replace(alloc, "\\t", "\t")
}

#[test]
fn what_does_not_hold_is_found(rt: HostRuntime) -> Result<(), AllocError> {
    for (transcript, line) in [
        ("\n#do\n#says 0", 3),
        ("\n#do\n#says 2\nusage", 3),
        ("\n#do\n\n#has t.msh", 4),
        ("\n#do\n#lacks t.msh", 3),
        ("\n#do\n#failed t.msh", 3),
        ("\n#file a\nb\nc\n\n#do\n#has a\nb", 7),
        ("\n#done", 2),
        ("\n#do\n0", 2),
    ] {
        let fault = first_fault(rt.alloc(), transcript)?;
        assert_eq!(rt; fault.map(|(number, _)| number), Some(line), "{transcript}");
    }
    Ok(())
}
