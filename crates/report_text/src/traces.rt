//! The steps of a frame as a text.
ghost use Rattle.std.specs.Prelude.{◌≡◌, ◌++◌, IfOk, OnErr, OnOk};
ghost use Rattle.std.specs.List.{flat_map};
ghost use Rattle.report_text.specs.Traces as traces;

use crate::words::{add_end, add_field};
use dec_text::number_text;
use line_search::{DirKind, FrameEnd, Step};
use space3::{Mesh, V3};
use std::alloc::{AllocError, Global};

/// Adds the trace of a frame: each step with its method, how often its direction was halved, the potential before and
/// after it, and the direction of each node that has one, before it was halved, in grid units; and how the frame ended.
/// Where memory is wanting, nothing is added.
pub fn trace_text(
    alloc: Global,
    mesh: &Mesh,
    frame: u32,
    steps: &[Step],
    end: FrameEnd,
    out: &mut Vec<u8>,
) -> Result<(), AllocError>
    ensures added { OnOk result
        (out.new.items ≡ out.old.items ++ traces.trace_text mesh.now frame steps.now end) }
    ensures unchanged { OnErr result (out.new.items ≡ out.old.items) }
{
    let text = text_of_trace(alloc, mesh, frame, steps, end)?;
    out.extend_from_slice(&text)
}

fn text_of_trace(
    alloc: Global,
    mesh: &Mesh,
    frame: u32,
    steps: &[Step],
    end: FrameEnd,
) -> Result<Vec<u8>, AllocError>
    ensures { IfOk result (λ text. text.items ≡ traces.trace_text mesh.now frame steps.now end) }
{
    let mut text = Vec::from_slice(alloc, b"trace 1\nframe")?;
    add_field(&mut text, frame)?;
    text.extend_from_slice(b"\n")?;
    add_steps(&mut text, mesh.numbers.items(), steps)?;
    text.extend_from_slice(b"end ")?;
    add_end(&mut text, end)?;
    text.extend_from_slice(b"\n")?;
    Ok(text)
}

fn add_steps(text: &mut Vec<u8>, numbers: &[u32], steps: &[Step]) -> Result<(), AllocError>
    ensures { OnOk result
        (text.new.items ≡ text.old.items ++ flat_map (traces.step_text numbers.now) steps.now) }
{
    for step in steps {
        add_step(text, step)?;
        add_nodes(text, numbers, step.direction.items())?;
    }
    Ok(())
}

// Adds the line of a step.
fn add_step(text: &mut Vec<u8>, step: &Step) -> Result<(), AllocError>
    ensures { OnOk result (text.new.items ≡ text.old.items ++ traces.step_line step.now) }
{
    text.extend_from_slice(b"step ")?;
    text.extend_from_slice(method_word(step.kind))?;
    add_field(text, step.half)?;
    add_field(text, step.upper)?;
    add_field(text, step.lower)?;
    text.extend_from_slice(b"\n")
}

fn method_word(kind: DirKind) -> &'static [u8]
    ensures { result.now ≡ traces.method_word kind }
{
    match kind {
        DirKind::Newton => b"newton",
        DirKind::Jacobi => b"jacobi",
    }
}

// Adds the lines of the nodes whose direction isn't 0.
fn add_nodes(text: &mut Vec<u8>, numbers: &[u32], direction: &[V3]) -> Result<(), AllocError>
    ensures { OnOk result
        (text.new.items ≡ text.old.items ++ traces.node_lines numbers.now direction.now) }
{
    for (number, d) in numbers.iter().zip(direction) {
        if !is_zero(*d) {
            add_node(text, *number, *d)?;
        }
    }
    Ok(())
}

// Adds the line of a node.
fn add_node(text: &mut Vec<u8>, number: u32, d: V3) -> Result<(), AllocError>
    ensures { OnOk result (text.new.items ≡ text.old.items ++ traces.node_line (number, d)) }
{
    number_text(number, text)?;
    add_field(text, d.x)?;
    add_field(text, d.y)?;
    add_field(text, d.z)?;
    text.extend_from_slice(b"\n")?;
    Ok(())
}

fn is_zero(d: V3) -> bool
    ensures { result ≡ traces.is_zero d }
{
    d.x == 0 && d.y == 0 && d.z == 0
}
