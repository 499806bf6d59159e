//! What may be wrong with a mesh text.

/// What is wrong with a mesh text, in the order in which the kinds are tried.
#[derive(Clone, Copy, Debug, PartialEq, Eq)]
pub enum MshKind {
    /// The text ends inside a section.
    Truncated,
    /// A section opens before the format's section has closed, or the text has none.
    NoFormat,
    /// A section opens a second time, or out of order.
    Misplaced,
    /// There are fewer or more rows than were counted.
    BadCount,
    /// A row has too few or too many fields.
    Fields,
    /// The version isn't the one that is read.
    Version,
    /// The file is binary.
    Binary,
    /// A field isn't the number that its place asks for.
    BadNumber,
    /// More nodes are counted than a mesh may have.
    TooManyNodes,
    /// An earlier node has the same number.
    DuplicateNode,
    /// A coordinate isn't on the grid.
    OffGrid,
    /// A coordinate is outside the box.
    OutOfBox,
    /// An element is of a type that isn't read.
    ElementType,
    /// An element names a node that isn't there.
    UnknownNode,
    /// A tetrahedron names a node twice.
    RepeatedNode,
    /// There are more tetrahedra than a mesh may have.
    TooManyTets,
    /// There is no tetrahedron.
    NoTets,
}
