//! The text of a line.
ghost use Rattle.std.specs.Prelude.{◌≡◌, ◌++◌, codes, decimal, IfOk, OnErr, OnOk};
ghost use Rattle.report_text.specs.Lines as lines;
ghost use Rattle.report_text.specs.Words.{printed, spaced};

use crate::line::Line;
use crate::words::{add_end, add_field, add_name};
use boundary::PairKind;
use dec_text::number_text;
use line_search::FrameEnd;
use msh_text::{MshErr, MshKind};
use scene_toml::SceneErr;
use std::alloc::{AllocError, Global};

/// Adds the text of a line. Where memory is wanting, nothing is added.
pub fn line_text(alloc: Global, line: &Line, out: &mut Vec<u8>) -> Result<(), AllocError>
    ensures added { OnOk result (out.new.items ≡ out.old.items ++ lines.text_of_line line.now) }
    ensures unchanged { OnErr result (out.new.items ≡ out.old.items) }
{
    let text = text_of_line(alloc, line)?;
    out.extend_from_slice(&text)
}

fn text_of_line(alloc: Global, line: &Line) -> Result<Vec<u8>, AllocError>
    ensures { IfOk result (λ text. text.items ≡ lines.text_of_line line.now) }
{
    match line {
        Line::Usage => Vec::from_slice(
            alloc,
            b"usage: ipc check DIGITS MESH OUT | run SCENE | gen N\n",
        ),
        Line::Accepted { nodes, tets } => accepted_line(alloc, *nodes, *tets),
        Line::Start => Vec::from_slice(alloc, b"frame 0 start\n"),
        Line::Frame { frame, end } => frame_line(alloc, *frame, *end),
        Line::ReadFault { name } => named_line(alloc, b"read fault ", name.text()),
        Line::WriteFault { name } => named_line(alloc, b"write fault ", name.text()),
        Line::TooLong { name, taken } => too_long_line(alloc, name.text(), *taken),
        Line::Scene { err } => scene_line(alloc, err),
        Line::MeshText { err } => mesh_line(alloc, *err),
        Line::FaceThrice { numbers } => {
            listed_line(alloc, b"surface refused: face thrice", numbers)
        }
        Line::FaceSame { numbers } => listed_line(alloc, b"surface refused: face same", numbers),
        Line::Triangles { count } => numbered_line(alloc, b"surface refused: triangles ", *count),
        Line::NotPositive { number } => {
            numbered_line(
                alloc,
                b"geometry refused: not positive ",
                u64::from(*number),
            )
        }
        Line::Thin { number } => numbered_line(
            alloc,
            b"geometry refused: thin ",
            u64::from(*number),
        ),
        Line::Long { number } => numbered_line(
            alloc,
            b"geometry refused: long ",
            u64::from(*number),
        ),
        Line::TooHeavy { number } => numbered_line(
            alloc,
            b"geometry refused: too heavy ",
            u64::from(*number),
        ),
        Line::Meets { kind, a, b } => meets_line(alloc, *kind, a.items(), b.items()),
        Line::Sum { x, y, z } => sum_line(alloc, *x, *y, *z),
    }
}

// A mesh of so many nodes and tetrahedra is accepted.
fn accepted_line(alloc: Global, nodes: u32, tets: u32) -> Result<Vec<u8>, AllocError>
    ensures { IfOk result (λ line. line.items ≡ lines.accepted_line nodes tets) }
{
    let mut line = Vec::from_slice(alloc, b"mesh nodes")?;
    add_field(&mut line, nodes)?;
    line.extend_from_slice(b" tets")?;
    add_field(&mut line, tets)?;
    line.extend_from_slice(b"\n")?;
    Ok(line)
}

// A frame is shown.
fn frame_line(alloc: Global, frame: u32, end: FrameEnd) -> Result<Vec<u8>, AllocError>
    ensures { IfOk result (λ line. line.items ≡ lines.frame_line frame end) }
{
    let mut line = Vec::from_slice(alloc, b"frame")?;
    add_field(&mut line, frame)?;
    line.extend_from_slice(b" ")?;
    add_end(&mut line, end)?;
    line.extend_from_slice(b"\n")?;
    Ok(line)
}

// A line that ends in a name.
fn named_line(alloc: Global, what: &[u8], name: &str) -> Result<Vec<u8>, AllocError>
    ensures { IfOk result (λ line. line.items ≡ what.now ++ printed name.now ++ codes "\n") }
{
    let mut line = Vec::from_slice(alloc, what)?;
    add_name(&mut line, name)?;
    line.extend_from_slice(b"\n")?;
    Ok(line)
}

// A line that ends in a number.
fn numbered_line(alloc: Global, what: &[u8], n: u64) -> Result<Vec<u8>, AllocError>
    ensures { IfOk result (λ line. line.items ≡ what.now ++ decimal n ++ codes "\n") }
{
    let mut line = Vec::from_slice(alloc, what)?;
    number_text(n, &mut line)?;
    line.extend_from_slice(b"\n")?;
    Ok(line)
}

// A file is too long.
fn too_long_line(alloc: Global, name: &str, taken: u64) -> Result<Vec<u8>, AllocError>
    ensures { IfOk result (λ line. line.items ≡ lines.too_long_line name.now taken) }
{
    let mut line = Vec::from_slice(alloc, b"too long ")?;
    add_name(&mut line, name)?;
    line.extend_from_slice(b" ")?;
    number_text(taken, &mut line)?;
    line.extend_from_slice(b"\n")?;
    Ok(line)
}

// A scene is refused.
fn scene_line(alloc: Global, err: &SceneErr) -> Result<Vec<u8>, AllocError>
    ensures { IfOk result (λ line. line.items ≡ lines.scene_line err.now) }
{
    match err {
        SceneErr::NotToml => Vec::from_slice(alloc, b"scene refused: not toml\n"),
        SceneErr::UnknownKey { key } => {
            named_line(alloc, b"scene refused: unknown key ", key.text())
        }
        SceneErr::Missing { key } => named_line(alloc, b"scene refused: missing key ", key.text()),
        SceneErr::WrongType { key } => named_line(alloc, b"scene refused: wrong type ", key.text()),
        SceneErr::OutOfRange { key, value } => range_line(alloc, key.text(), *value),
    }
}

// A value of a scene is out of range.
fn range_line(alloc: Global, key: &str, value: i64) -> Result<Vec<u8>, AllocError>
    ensures { IfOk result (λ line. line.items ≡ lines.range_line key.now value) }
{
    let mut line = Vec::from_slice(alloc, b"scene refused: out of range ")?;
    add_name(&mut line, key)?;
    line.extend_from_slice(b" ")?;
    number_text(value, &mut line)?;
    line.extend_from_slice(b"\n")?;
    Ok(line)
}

// A mesh's text is refused for its first fault.
fn mesh_line(alloc: Global, err: MshErr) -> Result<Vec<u8>, AllocError>
    ensures { IfOk result (λ line. line.items ≡ lines.mesh_line err) }
{
    let mut line = Vec::from_slice(alloc, b"mesh refused: line ")?;
    number_text(err.line, &mut line)?;
    line.extend_from_slice(b" ")?;
    line.extend_from_slice(fault_words(err.kind))?;
    line.extend_from_slice(b"\n")?;
    Ok(line)
}

fn fault_words(kind: MshKind) -> &'static [u8]
    ensures { result.now ≡ lines.fault_words kind }
{
    match kind {
        MshKind::Truncated => b"truncated",
        MshKind::NoFormat => b"no format",
        MshKind::Misplaced => b"misplaced",
        MshKind::BadCount => b"bad count",
        MshKind::Fields => b"fields",
        MshKind::Version => b"version",
        MshKind::Binary => b"binary",
        MshKind::BadNumber => b"bad number",
        MshKind::TooManyNodes => b"too many nodes",
        MshKind::DuplicateNode => b"duplicate node",
        MshKind::OffGrid => b"off grid",
        MshKind::OutOfBox => b"out of box",
        MshKind::ElementType => b"element type",
        MshKind::UnknownNode => b"unknown node",
        MshKind::RepeatedNode => b"repeated node",
        MshKind::TooManyTets => b"too many tets",
        MshKind::NoTets => b"no tets",
    }
}

// Adds numbers, each after a space.
fn add_fields(line: &mut Vec<u8>, numbers: &[u32]) -> Result<(), AllocError>
    ensures { OnOk result (line.new.items ≡ line.old.items ++ spaced numbers.now) }
{
    for n in numbers {
        add_field(line, *n)?;
    }
    Ok(())
}

// A line that ends in numbers, each after a space.
fn listed_line(alloc: Global, what: &[u8], numbers: &[u32]) -> Result<Vec<u8>, AllocError>
    ensures { IfOk result (λ line. line.items ≡ what.now ++ spaced numbers.now ++ codes "\n") }
{
    let mut line = Vec::from_slice(alloc, what)?;
    add_fields(&mut line, numbers)?;
    line.extend_from_slice(b"\n")?;
    Ok(line)
}

// Two parts of the surface meet.
fn meets_line(alloc: Global, kind: PairKind, a: &[u32], b: &[u32]) -> Result<Vec<u8>, AllocError>
    ensures { IfOk result (λ line. line.items ≡ lines.meets_line kind a.now b.now) }
{
    let mut line = Vec::from_slice(alloc, b"geometry refused: meets ")?;
    line.extend_from_slice(kind_word(kind))?;
    add_fields(&mut line, a)?;
    line.extend_from_slice(b" /")?;
    add_fields(&mut line, b)?;
    line.extend_from_slice(b"\n")?;
    Ok(line)
}

fn kind_word(kind: PairKind) -> &'static [u8]
    ensures { result.now ≡ lines.kind_word kind }
{
    match kind {
        PairKind::VE => b"VE",
        PairKind::VT => b"VT",
        PairKind::EE => b"EE",
        PairKind::ET => b"ET",
    }
}

// The sums of all coordinates.
fn sum_line(alloc: Global, x: i64, y: i64, z: i64) -> Result<Vec<u8>, AllocError>
    ensures { IfOk result (λ line. line.items ≡ lines.sum_line x y z) }
{
    let mut line = Vec::from_slice(alloc, b"sum")?;
    add_field(&mut line, x)?;
    add_field(&mut line, y)?;
    add_field(&mut line, z)?;
    line.extend_from_slice(b"\n")?;
    Ok(line)
}
