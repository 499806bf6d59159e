//! The types of elements that are read.
ghost use Rattle.std.specs.Prelude.{◌≡◌, ◌≤◌};
ghost use Rattle.mesh_words.specs.Elements.{type_of_code, node_count};

/// A type of elements, with Gmsh's code for it: a point (15), a line (1), a triangle (2) or a tetrahedron (4), of first
/// order.
#[derive(Clone, Copy, Debug, PartialEq, Eq)]
pub enum ElementType {
    Point,
    Line,
    Triangle,
    Tetrahedron,
}

impl ElementType {
    /// The type of a code of the Gmsh manual, if it is one that is read.
    pub fn of_code(code: u32) -> Option<ElementType>
        ensures { result ≡ type_of_code code }
    {
        if code == 15 {
            return Some(ElementType::Point);
        }
        if code == 1 {
            return Some(ElementType::Line);
        }
        if code == 2 {
            return Some(ElementType::Triangle);
        }
        if code == 4 {
            return Some(ElementType::Tetrahedron);
        }
        None
    }

    /// How many nodes an element of this type has.
    pub fn node_count(self) -> usize
        ensures count { result ≡ node_count self }
        ensures few { result ≤ 4 }
    {
        match self {
            ElementType::Point => 1,
            ElementType::Line => 2,
            ElementType::Triangle => 3,
            ElementType::Tetrahedron => 4,
        }
    }
}
