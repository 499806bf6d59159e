//! The words of the command line.
ghost use Rattle.std.specs.Prelude.{◌≡◌, ◌==◌, map, option_map, slice_index, string_bytes};
ghost use Rattle.ipc_top.specs.Commands.{blocks_of, command_of, digit_of};
ghost use Rattle.ipc_top.specs.Calls.Jobs.{asked};

use crate::blocks::Blocks;
use crate::grids::Digits;
use line_fields::whole_number;
use work_gen::MOST_BLOCKS;

/// A command: what it reads, and the name under which it writes frames.
pub enum Command<'a> {
    /// To check the mesh of a file on the grid of so many digits, and to write it as frame 0.
    Check {
        digits: Digits,
        mesh: &'a str,
        out: &'a str,
    },
    /// To run the scene of a file.
    RunScene {
        scene: &'a str,
    },
    /// To run the stated stack of so many blocks.
    RunStack {
        blocks: Blocks,
    },
}

// The digits of a word of one digit.
fn digit_of(word: &str) -> Option<Digits>
    ensures { option_map (λ digits. digits.count) result ≡ digit_of word.now }
{
    match word.as_bytes() {
        [byte] if b'0' <= *byte && *byte <= b'9' => Some(Digits {
            count: *byte - b'0',
        }),
        _ => None,
    }
}

// The blocks that a word asks for.
fn blocks_of(word: &str) -> Option<Blocks>
    ensures { option_map (λ blocks. blocks.count) result ≡ blocks_of word.now }
{
    let count = whole_number(word.as_bytes())?;
    if 1 <= count && count <= MOST_BLOCKS && !begins_with_zero(word.as_bytes()) {
        Some(Blocks { count })
    } else {
        None
    }
}

fn begins_with_zero(word: &[u8]) -> bool
    ensures { result ≡ (slice_index word.now 0 == 48) }
{
    match word.first() {
        Some(byte) => *byte == b'0',
        None => false,
    }
}

/// The command that the words are, if they are one.
pub fn command_of(words: &[String]) -> Option<Command<'_>>
    ensures { option_map asked result ≡ command_of (map string_bytes words.now) }
{
    match words {
        [name, digits, mesh, out] if name.as_str() == "check" => Some(Command::Check {
            digits: digit_of(digits.as_str())?,
            mesh: mesh.as_str(),
            out: out.as_str(),
        }),
        [name, scene] if name.as_str() == "run" => Some(Command::RunScene {
            scene: scene.as_str(),
        }),
        [name, blocks] if name.as_str() == "gen" => Some(Command::RunStack {
            blocks: blocks_of(blocks.as_str())?,
        }),
        _ => None,
    }
}
