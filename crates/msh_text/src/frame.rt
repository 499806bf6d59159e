//! The text of a frame.
ghost use Rattle.std.specs.Prelude.{◌≡◌, ◌++◌, ◌∷◌, [], ◌<◌, ◌≤◌, OnOk, OnErr, All, List, ℕ, length, map, take, decimal, slice_index, codes};
ghost use Rattle.std.specs.Fmt.{signed_decimal};
ghost use Rattle.std.specs.List.{flat_map, zip};
ghost use Rattle.dec_text.specs.declared.TheConstants.{FINEST_GRID};
ghost use Rattle.dec_text.specs.GridText.{grid_decimal};
ghost use Rattle.space3.specs.Mesh.{IsSound, IsSoundTet};
ghost use Rattle.msh_text.specs.Calls.Growth.{Begins};
ghost use Rattle.msh_text.specs.Frame.{line_of, node_row, tet_row, frame_text, placed_at, spaced};
ghost use Rattle.msh_text.specs.Texts.{TextMeans};

use dec_text::{Snap, grid_text, number_text};
use space3::{Mesh, Places, Tet, V3};
use std::alloc::{AllocError, Global};

/// Adds the text of a frame: the mesh's nodes at these places, with coordinates as the shortest decimals on the grid of
/// `digits` digits after the point, 0 to 9, and its tetrahedra with their tags. The text is made in place; where memory is
/// wanting, the list is cut back to what it was.
pub fn write_frame(
    alloc: Global,
    mesh: &Mesh,
    places: &Places,
    digits: u8,
    out: &mut Vec<u8>,
) -> Result<(), AllocError>
    requires sound { IsSound mesh.now }
    requires placed { length places.now ≡ length mesh.now.numbers }
    requires grid { digits ≤ FINEST_GRID }
    ensures added { OnOk result (out.new.items ≡ out.old.items ++ frame_text mesh.now places.now digits) }
    ensures unchanged { OnErr result (out.new.items ≡ out.old.items) }
    // On the same grid the text is read back as the mesh at these places.
    ensures read_back { TextMeans (frame_text mesh.now places.now digits) digits Snap.Exact
        (placed_at mesh.now places.now) }
{
    let before = out.len();
    match add_frame(alloc, out, mesh, places.items(), digits) {
        Ok(()) => Ok(()),
        Err(err) => {
            out.truncate(before);
            Err(err)
        }
    }
}

// Adds the text of a frame; where memory is wanting, some first part of it.
fn add_frame(
    alloc: Global,
    out: &mut Vec<u8>,
    mesh: &Mesh,
    places: &[V3],
    digits: u8,
) -> Result<(), AllocError>
    requires grid { digits ≤ FINEST_GRID }
    requires sound { IsSound mesh.now }
    requires placed { length places.now ≡ length mesh.now.numbers }
    ensures added { OnOk result (out.new.items ≡ out.old.items ++ frame_text mesh.now places.now digits) }
    ensures kept { OnErr result (Begins out.old.items out.new.items) }
{
    let numbers = mesh.numbers.items();
    let tets = mesh.tets.items();
    add(out, b"$MeshFormat\n2.2 0 8\n$EndMeshFormat\n$Nodes\n")?;
    number_text(numbers.len() as u64, out)?;
    add(out, b"\n")?;
    add_nodes(alloc, out, numbers, places, digits)?;
    add(out, b"$EndNodes\n$Elements\n")?;
    number_text(tets.len() as u64, out)?;
    add(out, b"\n")?;
    add_tets(out, numbers, tets)?;
    add(out, b"$EndElements\n")?;
    Ok(())
}

// The lines of the nodes.
fn add_nodes(
    alloc: Global,
    out: &mut Vec<u8>,
    numbers: &[u32],
    places: &[V3],
    digits: u8,
) -> Result<(), AllocError>
    requires grid { digits ≤ FINEST_GRID }
    requires placed { length numbers.now ≡ length places.now }
    ensures added { OnOk result (out.new.items ≡ out.old.items ++ flat_map line_of (map (node_row digits) (zip numbers.now places.now))) }
    ensures kept { OnErr result (Begins out.old.items out.new.items) }
{
    for i in 0..places.len() {
        add_node(alloc, out, numbers[i], places[i], digits)?;
    }
    Ok(())
}

// The line of a node.
fn add_node(
    alloc: Global,
    out: &mut Vec<u8>,
    number: u32,
    place: V3,
    digits: u8,
) -> Result<(), AllocError>
    requires { digits ≤ FINEST_GRID }
    ensures added { OnOk result (out.new.items ≡ out.old.items ++ line_of (node_row digits (number, place))) }
    ensures kept { OnErr result (Begins out.old.items out.new.items) }
{
    number_text(number, out)?;
    add_coordinate(alloc, out, place.x, digits)?;
    add_coordinate(alloc, out, place.y, digits)?;
    add_coordinate(alloc, out, place.z, digits)?;
    add(out, b"\n")?;
    Ok(())
}

// The lines of the tetrahedra.
fn add_tets(out: &mut Vec<u8>, numbers: &[u32], tets: &[Tet]) -> Result<(), AllocError>
    requires { All (IsSoundTet (length numbers.now)) tets.now }
    ensures added { OnOk result (out.new.items ≡ out.old.items ++ flat_map line_of (map (tet_row numbers.now) tets.now)) }
    ensures kept { OnErr result (Begins out.old.items out.new.items) }
{
    for tet in tets {
        add_tet(out, numbers, tet)?;
    }
    Ok(())
}

// The line of a tetrahedron.
fn add_tet(out: &mut Vec<u8>, numbers: &[u32], tet: &Tet) -> Result<(), AllocError>
    requires { All (λ node. node < length numbers.now) tet.now.nodes }
    ensures added { OnOk result (out.new.items ≡ out.old.items ++ line_of (tet_row numbers.now tet.now)) }
    ensures kept { OnErr result (Begins out.old.items out.new.items) }
{
    let tags = tet.tags.items();
    number_text(tet.number, out)?;
    add(out, b" 4")?;
    add_field(out, tags.len() as u64)?;
    add_tags(out, tags)?;
    add_node_numbers(out, numbers, &tet.nodes)?;
    add(out, b"\n")?;
    Ok(())
}

// Tags, each after a space.
fn add_tags(out: &mut Vec<u8>, tags: &[i32]) -> Result<(), AllocError>
    ensures added { OnOk result (out.new.items ≡ out.old.items ++ spaced (map signed_decimal tags.now)) }
    ensures kept { OnErr result (Begins out.old.items out.new.items) }
{
    for tag in tags {
        add_signed_field(out, i64::from(*tag))?;
    }
    Ok(())
}

// The numbers of these nodes, each after a space.
fn add_node_numbers(out: &mut Vec<u8>, numbers: &[u32], nodes: &[u32]) -> Result<(), AllocError>
    requires { All (λ node. node < length numbers.now) nodes.now }
    ensures added { OnOk result (out.new.items ≡ out.old.items ++ spaced (map (λ node. decimal (slice_index numbers.now node)) nodes.now)) }
    ensures kept { OnErr result (Begins out.old.items out.new.items) }
{
    for node in nodes {
        add_field(out, u64::from(numbers[*node as usize]))?;
    }
    Ok(())
}

// A number after a space.
fn add_field(out: &mut Vec<u8>, n: u64) -> Result<(), AllocError>
    ensures added { OnOk result (out.new.items ≡ out.old.items ++ 32 ∷ decimal n) }
    ensures kept { OnErr result (Begins out.old.items out.new.items) }
{
    add(out, b" ")?;
    number_text(n, out)
}

// The same of a number that may have a sign.
fn add_signed_field(out: &mut Vec<u8>, n: i64) -> Result<(), AllocError>
    ensures added { OnOk result (out.new.items ≡ out.old.items ++ 32 ∷ signed_decimal n) }
    ensures kept { OnErr result (Begins out.old.items out.new.items) }
{
    add(out, b" ")?;
    number_text(n, out)
}

// A coordinate after a space.
fn add_coordinate(alloc: Global, out: &mut Vec<u8>, x: i64, digits: u8) -> Result<(), AllocError>
    requires { digits ≤ FINEST_GRID }
    ensures added { OnOk result (out.new.items ≡ out.old.items ++ 32 ∷ grid_decimal x digits) }
    ensures kept { OnErr result (Begins out.old.items out.new.items) }
{
    add(out, b" ")?;
    grid_text(alloc, x, digits, out)
}

// Adds bytes; where memory is wanting, none.
fn add(out: &mut Vec<u8>, text: &[u8]) -> Result<(), AllocError>
    ensures added { OnOk result (out.new.items ≡ out.old.items ++ text.now) }
    ensures unchanged { OnErr result (out.new.items ≡ out.old.items) }
{
    out.extend_from_slice(text)
}
