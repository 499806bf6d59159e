//! The lines of the console.

use boundary::PairKind;
use line_search::FrameEnd;
use msh_text::MshErr;
use scene_toml::{NameText, SceneErr};
use space3::NodeNumbers;

/// A line of the console. Tetrahedra and nodes are named by their numbers in the mesh's file.
#[derive(Drop)]
pub enum Line {
    /// How the program is called.
    Usage,
    /// A mesh of so many nodes and tetrahedra is accepted.
    Accepted {
        nodes: u32,
        tets: u32,
    },
    /// Frame 0 is shown.
    Start,
    /// A later frame is shown.
    Frame {
        frame: u32,
        end: FrameEnd,
    },
    /// A file could not be read.
    ReadFault {
        name: NameText,
    },
    /// A file could not be written.
    WriteFault {
        name: NameText,
    },
    /// A file is too long: so many bytes of it were taken, one more than its limit.
    TooLong {
        name: NameText,
        taken: u64,
    },
    /// A scene is refused.
    Scene {
        err: SceneErr,
    },
    /// A mesh's text is refused for its first fault.
    MeshText {
        err: MshErr,
    },
    /// Three tetrahedra have the same face.
    FaceThrice {
        numbers: [u32; 3],
    },
    /// Two tetrahedra lie on one side of their common face.
    FaceSame {
        numbers: [u32; 2],
    },
    /// A surface has so many triangles, too many.
    Triangles {
        count: u64,
    },
    /// The volume of a tetrahedron isn't positive.
    NotPositive {
        number: u32,
    },
    /// A tetrahedron is thin.
    Thin {
        number: u32,
    },
    /// A tetrahedron has a long edge.
    Long {
        number: u32,
    },
    /// A node is too heavy.
    TooHeavy {
        number: u32,
    },
    /// Two parts of the surface meet, a pair of this kind with these nodes.
    Meets {
        kind: PairKind,
        a: NodeNumbers,
        b: NodeNumbers,
    },
    /// The sums of all coordinates, in grid units.
    Sum {
        x: i64,
        y: i64,
        z: i64,
    },
}
