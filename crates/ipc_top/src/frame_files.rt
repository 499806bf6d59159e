//! The names and the texts of a frame's files.
ghost use Rattle.std.specs.Prelude.{◌≡◌, ◌++◌, length, replicate, string_bytes, IfOk, OnOk};
ghost use Rattle.space3.specs.Mesh.{IsSound};
ghost use Rattle.msh_text.specs.Frame.{frame_text};
ghost use Rattle.report_text.specs.Traces as traces;
ghost use Rattle.ipc_top.specs.Moves as moves;

use crate::grids::Digits;
use itoa::Buffer;
use line_search::{FrameEnd, Step};
use msh_text::write_frame;
use report_text::trace_text;
use space3::{Mesh, Places};
use std::alloc::{AllocError, Global};

fn add_zeros(name: &mut String, count: usize) -> Result<(), AllocError>
    ensures { OnOk result (string_bytes name.new ≡ string_bytes name.old ++ replicate count 48) }
{
    for _ in 0..count {
        name.push_str("0")?;
    }
    Ok(())
}

// Adds a number with zeros before it, so that it has at least four digits.
fn add_four_digits(name: &mut String, n: u32) -> Result<(), AllocError>
    ensures { OnOk result (string_bytes name.new ≡ string_bytes name.old ++ moves.four_digits n) }
{
    let mut buffer = Buffer::new();
    let digits = buffer.format(n);
    add_zeros(name, 4_usize.saturating_sub(digits.len()))?;
    name.push_str(digits)
}

// The name of a file of this frame.
fn numbered_name(alloc: Global, begin: &str, frame: u32, ending: &str) -> Result<String, AllocError>
    ensures { IfOk result (λ name.
        string_bytes name ≡ moves.numbered_name begin.now frame ending.now) }
{
    let mut name = String::from_str(alloc, begin)?;
    name.push_str("_")?;
    add_four_digits(&mut name, frame)?;
    name.push_str(ending)?;
    Ok(name)
}

/// The name of a frame's file: `out`, and the frame's number with at least four digits, as in
/// `out_0012.msh`.
pub fn frame_name(alloc: Global, out: &str, frame: u32) -> Result<String, AllocError>
    ensures { IfOk result (λ name. string_bytes name ≡ moves.frame_name out.now frame) }
{
    numbered_name(alloc, out, frame, ".msh")
}

/// The name of the file of a frame's trace, as in `trace_0012.txt`.
pub fn trace_name(alloc: Global, trace: &str, frame: u32) -> Result<String, AllocError>
    ensures { IfOk result (λ name. string_bytes name ≡ moves.trace_name trace.now frame) }
{
    numbered_name(alloc, trace, frame, ".txt")
}

/// The file of a frame: the mesh with its nodes at these places, one per node, as decimals of so many digits.
pub fn frame_text(
    alloc: Global,
    mesh: &Mesh,
    places: &Places,
    digits: Digits,
) -> Result<Vec<u8>, AllocError>
    requires sound { IsSound mesh.now }
    requires placed { length places.now ≡ length mesh.now.numbers }
    ensures { IfOk result (λ text. text.items ≡ frame_text mesh.now places.now digits.count) }
{
    let mut text = Vec::new(alloc);
    write_frame(alloc, mesh, places, digits.count, &mut text)?;
    Ok(text)
}

/// The file of a frame's trace: its steps and its end.
pub fn frame_trace(
    alloc: Global,
    mesh: &Mesh,
    frame: u32,
    steps: &[Step],
    end: FrameEnd,
) -> Result<Vec<u8>, AllocError>
    ensures { IfOk result (λ text. text.items ≡ traces.trace_text mesh.now frame steps.now end) }
{
    let mut text = Vec::new(alloc);
    trace_text(alloc, mesh, frame, steps, end, &mut text)?;
    Ok(text)
}
