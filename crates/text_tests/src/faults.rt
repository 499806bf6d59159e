//! The first fault of a mesh text, by its line and kind.
use crate::meshes::{TEXT, edited};
use dec_text::Snap;
use line_fields::line_count;
use msh_text::MshKind::{self, *};
use msh_text::{MshErr, ReadMshErr, read_msh};
use std::alloc::Global;
use std::test::Fail;

/// A line of the text that is replaced, by which lines, and the fault.
type Row = (usize, &'static [u8], u64, MshKind);

/// Faults of sections, of the text's end, and of a row's fields.
const FAULTS: [Row; 56] = [
    (14, b"", 15, Truncated),
    (15, b"$Other", 15, Truncated),
    // a stray end word opens a section
    (1, b"", 15, Truncated),
    (15, b"$EndMeshFormat\n$EndMeshFormat", 16, Truncated),
    (
        15,
        b"$EndMeshFormat\n$EndEndMeshFormat\n$Nodes",
        17,
        Misplaced,
    ),
    (1, b"$Nodes", 1, NoFormat),
    (1, b"$Elements", 1, NoFormat),
    (4, b"$Elements", 4, Misplaced),
    (11, b"$Nodes", 11, Misplaced),
    (15, b"$MeshFormat", 15, Misplaced),
    (2, b"$EndMeshFormat", 2, BadCount),
    (3, b"$EndNodes", 3, BadCount),
    (5, b"$EndNodes", 5, BadCount),
    (9, b"$EndNodes", 9, BadCount),
    (10, b"5 1 1 1", 10, BadCount),
    (12, b"2147483647", 14, BadCount),
    // a row in place of the end word
    (14, b"2 4 2 0 1 1 2 3 4", 14, BadCount),
    (14, b"\nx", 15, BadCount),
    (13, b"1 2 2 0 1 1 2 2", 15, NoTets),
    (13, b"1 15 0 4", 15, NoTets),
    (2, b"2.2 0", 2, Fields),
    (5, b"4 4", 5, Fields),
    (8, b"3 0 100", 8, Fields),
    (13, b"1 4", 13, Fields),
    (13, b"1 4 2 0 1 1 2 3", 13, Fields),
    (13, b"1 15 0 1 2", 13, Fields),
    (2, b"2.1 0 8", 2, Version),
    (2, b"02.2 1 8", 2, Version),
    (2, b"2.2 1 8", 2, Binary),
    (2, b"2.2 1 x", 2, Binary),
    (2, b"2.2 2 8", 2, BadNumber),
    (2, b"2.2 0 -8", 2, BadNumber),
    (5, b"4294967296", 5, BadNumber),
    (6, b"0 0 0 0", 6, BadNumber),
    (8, b"3 0.5 1e 1048577", 8, OffGrid),
    (8, b"3 0 1e 1048577", 8, BadNumber),
    (13, b"1 x 2 0 1 1 2 3 4", 13, BadNumber),
    (13, b"1 4 256 0 1 1 2 3 4", 13, BadNumber),
    (13, b"1 4 2 +0 1 1 2 3 4", 13, BadNumber),
    (13, b"1 4 2 0 1 0 2 3 5", 13, BadNumber),
    (5, b"16385", 5, TooManyNodes),
    (5, b"\n2147483647", 6, TooManyNodes),
    (7, b"1 100 0 0", 7, DuplicateNode),
    (9, b"003 x 0 0", 9, DuplicateNode),
    (7, b"2 100.5 0 0", 7, OffGrid),
    (9, b"4 0 1e-1 100", 9, OffGrid),
    (7, b"2 1048577 0 0", 7, OutOfBox),
    (9, b"\n\n4 0 0 -1e9", 11, OutOfBox),
    // before the count of tags
    (13, b"1 5 999 0 1 1 2", 13, ElementType),
    (13, b"1 11 2 0 1 1 2 3 4 1 2 3 4 1 2", 13, ElementType),
    (13, b"1 4 2 0 1 1 2 3 5", 13, UnknownNode),
    (13, b"1 15 0 2147483647", 13, UnknownNode),
    (13, b"1 4 2 0 1 1 1 3 5", 13, UnknownNode),
    (13, b"1 4 2 0 1 1 2 3 3", 13, RepeatedNode),
    (13, b"\n1 4 0 1 1 2 4", 14, RepeatedNode),
    (13, b"1 4 0 1 2 3 3", 13, RepeatedNode),
];

/// The fault of a text in whole grid units, if it has one.
fn fault_of(alloc: Global, text: &[u8]) -> Option<ReadMshErr> {
    read_msh(alloc, text, 0, Snap::Exact).err()
}

fn fault(line: u64, kind: MshKind) -> Option<ReadMshErr> {
    Some(ReadMshErr::Text(MshErr { line, kind }))
}

#[test]
fn the_first_fault_is_named(rt: HostRuntime) -> Result<(), Fail> {
    for (number, lines, line, kind) in FAULTS {
        let text = edited(rt.alloc(), number, lines)?;
        assert_eq!(rt; fault_of(rt.alloc(), &text), fault(line, kind));
    }
    Ok(())
}

#[test]
fn a_text_cut_short_has_its_fault_at_its_end(rt: HostRuntime) {
    for end in 0..136usize {
        assert!(rt; end <= TEXT.len());
        let line = match fault_of(rt.alloc(), &TEXT[..end]) {
            Some(ReadMshErr::Text(fault)) => fault.line,
            Some(ReadMshErr::Memory) => 0,
            None => 0,
        };
        let last = line_count(&TEXT[..end]) as u64;
        assert_eq!(rt; line, if end < 134 { last } else { 0 }, "{end}");
    }
    for (end, line, kind) in [
        (0usize, 1, NoFormat),
        (35, 4, NoTets),
        (104, 13, Truncated),
        (133, 14, BadCount),
    ] {
        assert!(rt; end <= TEXT.len());
        assert_eq!(rt; fault_of(rt.alloc(), &TEXT[..end]), fault(line, kind));
    }
}

#[test]
fn a_mesh_has_at_most_65536_tetrahedra(rt: HostRuntime) -> Result<(), Fail> {
    for (first, line) in [(b"".as_slice(), 65549), (b"1 15 0 1\n".as_slice(), 65550)] {
        let mut lines = Vec::from_slice(rt.alloc(), b"70000\n")?;
        lines.extend_from_slice(first)?;
        for _ in 0..65537u32 {
            lines.extend_from_slice(b"1 4 0 1 2 3 4\n")?;
        }
        let text = edited(rt.alloc(), 12, &lines)?;
        assert_eq!(rt; fault_of(rt.alloc(), &text), fault(line, TooManyTets));
    }
    Ok(())
}
