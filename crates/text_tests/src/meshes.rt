//! Meshes as texts, read and written again.
ghost use Rattle.std.specs.Prelude.{◌≤◌};
ghost use Rattle.dec_text.specs.declared.TheConstants.{FINEST_GRID};

use dec_text::{FINEST_GRID, Snap};
use msh_text::{ReadMshErr, read_msh, write_frame};
use std::alloc::{AllocError, Global};
use std::test::Fail;

/// One tetrahedron, as frames are written.
pub const TEXT: &[u8] =
    b"$MeshFormat\n2.2 0 8\n$EndMeshFormat\n$Nodes\n4\n1 0 0 0\n2 100 0 0\n3 0 100 0\n4 0 0 100\n$EndNodes\n$Elements\n1\n1 4 2 0 1 1 2 3 4\n$EndElements\n";

/// A mesh with names of groups, a point, a triangle with a node twice, and data of nodes that has words of other sections
/// in it. Lines end with CR LF, and two elements have one number.
const GROUPS: &[u8] = b"\
words\r\n$MeshFormat\r\n2.2 0 8\r\n$EndMeshFormat\r\n\r\n$PhysicalNames\r\n1\r\n\
3 5 \"body $Nodes\"\r\n$EndPhysicalNames\r\n$Nodes\r\n4\r\n10 0 0 0\r\n\
20 .0999999999999999 0 0\r\n7 0 100.0e-3 0\r\n3000000 0 -0 1e-1\r\n$EndNodes\r\n\
$Elements\r\n4\r\n1 15 2 0 1 10\r\n2 2 2 0 1 10 20 20\r\n\
9 4 3 5 1 -7 10 20 7 3000000\r\n9 4 0 10 20 7 3000000\r\n$EndElements more\r\n\
$NodeData\r\n$Nodes\r\n$EndNodes\r\n$EndNodeData";

/// Its frame with four digits.
const GROUPS_FRAME: &[u8] = b"\
$MeshFormat\n2.2 0 8\n$EndMeshFormat\n$Nodes\n4\n10 0 0 0\n20 0.1 0 0\n\
7 0 0.1 0\n3000000 0 0 0.1\n$EndNodes\n$Elements\n2\n\
9 4 3 5 1 -7 10 20 7 3000000\n9 4 0 10 20 7 3000000\n$EndElements\n";

/// The frame of the mesh of a text, with the nodes at the mesh's own places.
fn frame_of(alloc: Global, text: &[u8], digits: u8, snap: Snap) -> Result<Vec<u8>, ReadMshErr>
    requires { digits ≤ FINEST_GRID }
{
    let mesh = read_msh(alloc, text, digits, snap)?;
    let mut out = Vec::new(alloc);
    write_frame(alloc, &mesh, &mesh.places, digits, &mut out)?;
    Ok(out)
}

/// The text with other lines in place of one of its lines, counted from 1.
pub fn edited(alloc: Global, number: usize, lines: &[u8]) -> Result<Vec<u8>, AllocError> {
    let mut out = Vec::new(alloc);
    for (i, old) in TEXT.split(|byte| *byte == b'\n').enumerate() {
        if 0 < i {
            out.push(b'\n')?;
        }
        out.extend_from_slice(if i.wrapping_add(1) == number {
            lines
        } else {
            old
        })?;
    }
    Ok(out)
}

#[test]
fn meshes_are_read_and_written(rt: HostRuntime) -> Result<(), Fail> {
    let cases: [(&[u8], u8, Snap, &[u8]); 3] = [
        (TEXT, 0, Snap::Exact, TEXT),
        (GROUPS, 4, Snap::Nearest, GROUPS_FRAME),
        (GROUPS_FRAME, 1, Snap::Exact, GROUPS_FRAME),
    ];
    for (text, digits, snap, frame) in cases {
        assert!(rt; digits <= FINEST_GRID);
        let written = frame_of(rt.alloc(), text, digits, snap)?;
        assert_eq!(rt; written.as_slice(), frame);
    }
    Ok(())
}

#[test]
fn rows_are_read_by_value(rt: HostRuntime) -> Result<(), Fail> {
    let cases: [(usize, &[u8], bool); 5] = [
        (3, b"\t$EndMeshFormat 1 2", true),
        (6, b"1  +0\t00 0\r\n", true),
        (13, b"0001 04 02 -0 01 1 2 3 4", true),
        (13, b"9 4 2 -5 7 1 2 3 4", false),
        (7, b"2 1048576 0 -1048576", false),
    ];
    for (number, line, is_same) in cases {
        let text = edited(rt.alloc(), number, line)?;
        let frame = frame_of(rt.alloc(), &text, 0, Snap::Exact)?;
        assert_eq!(rt;
            frame.as_slice(),
            if is_same { TEXT } else { text.as_slice() }
        );
    }
    Ok(())
}
