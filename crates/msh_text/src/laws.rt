//! What a text means, and its first fault.
ghost use Rattle.std.specs.Prelude.{◌≡◌, ◌≤◌, ◌++◌, ◌⊎◌, List, ℕ, length, All};
ghost use Rattle.line_fields.specs.Lines.{lines, numbered};
ghost use Rattle.dec_text.specs.declared.Snap.{Snap};
ghost use Rattle.dec_text.specs.declared.Snap.TheVariants.{Exact};
ghost use Rattle.space3.specs.declared.mesh.Mesh.{Mesh};
ghost use Rattle.space3.specs.declared.vectors.V3.{V3};
ghost use Rattle.space3.specs.Box.{IsInTheBox};
ghost use Rattle.space3.specs.Mesh.{IsSound};
ghost use Rattle.msh_text.specs.declared.refusal.MshErr.{MshErr};
ghost use Rattle.msh_text.specs.FirstFault.{FaultOnRow, start};
ghost use Rattle.msh_text.specs.Frame.{frame_text, placed_at};
ghost use Rattle.msh_text.specs.Texts.{TextMeans, IsTextFault};

/// A text means a mesh or has a first fault.
pub fn means_or_fault()
    ensures { (text : List ℕ) (digits : ℕ) (snap : Snap)
        → ((mesh : Mesh) × TextMeans text digits snap mesh) ⊎ ((f : MshErr) × IsTextFault text digits snap f) }
{}

/// No text does both.
pub fn never_both()
    ensures { (text : List ℕ) (digits : ℕ) (snap : Snap) (mesh : Mesh) (f : MshErr)
        → TextMeans text digits snap mesh → IsTextFault text digits snap f → ⊥ }
{}

/// A text means at most one mesh.
pub fn one_mesh()
    ensures { (text : List ℕ) (digits : ℕ) (snap : Snap) (m n : Mesh)
        → TextMeans text digits snap m → TextMeans text digits snap n → m ≡ n }
{}

/// A text has at most one first fault.
pub fn one_fault()
    ensures { (text : List ℕ) (digits : ℕ) (snap : Snap) (f g : MshErr)
        → IsTextFault text digits snap f → IsTextFault text digits snap g → f ≡ g }
{}

/// A text that shares its lines with another, up to a fault of that one on a row, has the same fault, whatever follows.
pub fn same_fault()
    ensures { (digits : ℕ) (snap : Snap) (text other : List ℕ) (shared a b : List (List ℕ)) (f : MshErr)
        → lines text ≡ shared ++ a → lines other ≡ shared ++ b → f.line ≤ length shared
        → FaultOnRow (start digits snap) (numbered text) f → IsTextFault other digits snap f }
{}

/// A frame's text means the mesh at its places again, where it is read on the same grid: for every sound mesh, and one place
/// in the box for each node.
pub fn frame_reads_back()
    ensures { (mesh : Mesh) (places : List V3) (digits : ℕ)
        → IsSound mesh → length places ≡ length mesh.numbers → All IsInTheBox places
        → TextMeans (frame_text mesh places digits) digits Exact (placed_at mesh places) }
{}
