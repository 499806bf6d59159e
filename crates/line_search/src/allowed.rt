//! Whether a step is allowed.
ghost use Rattle.std.specs.Prelude.{◌≡◌, ◌↔◌, pos, ◌<ℤ◌, IfOk, IfSome, IsSome, IsTrue, All, length};
ghost use Rattle.space3.specs.Mesh.{HasNodes, rest_determinant};
ghost use Rattle.space3.specs.Box.{IsInTheBox};
ghost use Rattle.potential_sum.specs.Potential.{potential};
ghost use Rattle.line_search.specs.Accepted.{IsAllowed};
ghost use Rattle.line_search.specs.Calls.Corners.{HasCertificate, IsShort, corners_at};
ghost use Rattle.line_search.specs.Calls.PairCertificates.{CountsStep};
ghost use Rattle.potential_sum.specs.Upright.{HasShortEdges};
ghost use Rattle.line_search.specs.Steps.{AreReady};

use crate::apart::are_pairs_apart;
use plane_cut::Tally;
use potential_sum::Terms;
use space3::{Places, Tet, V3, rest_det};
use std::alloc::{AllocError, Global};
use surface_mesh::{Setup, has_edges_within};
use volume_cert::{LONGEST_EDGE, certify_volume};

// The potential at y where the step from x to y is allowed, and None exactly where it isn't. The potential at x
// is `upper`. The tally counts plane decisions.
pub(crate) fn lower_if_allowed(
    alloc: Global,
    setup: &Setup,
    terms: &Terms,
    x: &Places,
    y: &Places,
    upper: i128,
    tally: &mut Tally,
) -> Result<Option<i128>, AllocError>
    requires ready { AreReady setup.now terms.now x.now }
    requires each { length y.now ≡ length setup.now.mesh.numbers }
    requires in_box { All IsInTheBox y.now }
    requires upper { upper ≡ potential setup.now terms.now.frame x.now }
    ensures allowed { IfOk result (λ found.
        IsSome found ↔ IsAllowed setup.now terms.now.frame x.now y.now) }
    ensures lower { IfOk result (λ found.
        IfSome found (λ lower. lower ≡ potential setup.now terms.now.frame y.now)) }
    ensures tally { CountsStep setup.now x.now y.now tally.old.n tally.new.n }
{
    let tets = setup.mesh.tets.items();
    if !are_short(tets, y) {
        return Ok(None);
    }
    if !are_upright(tets, y) {
        return Ok(None);
    }
    let lower = terms.energy(alloc, setup, y)?;
    if upper <= lower {
        return Ok(None);
    }
    if !are_certified(tets, x, y) {
        return Ok(None);
    }
    if !are_pairs_apart(alloc, setup, x, y, tally)? {
        return Ok(None);
    }
    Ok(Some(lower))
}

// Whether no component of an edge of these tetrahedra is too long.
fn are_short(tets: &[Tet], places: &Places) -> bool
    requires { All (λ tet. HasNodes places.now tet.nodes) tets.now }
    ensures { IsTrue result ↔ All (λ tet. HasShortEdges places.now tet.nodes) tets.now }
{
    tets.iter()
        .all(|tet| has_edges_within(places, tet, LONGEST_EDGE))
}

// Whether the volume of each of these tetrahedra is positive.
fn are_upright(tets: &[Tet], places: &Places) -> bool
    requires { All (λ tet. HasNodes places.now tet.nodes) tets.now }
    ensures { IsTrue result ↔ All (λ tet. pos 0 <ℤ rest_determinant places.now tet.nodes) tets.now }
{
    tets.iter().all(|tet| is_upright(places, tet))
}

fn is_upright(places: &Places, tet: &Tet) -> bool
    requires { HasNodes places.now tet.now.nodes }
    ensures { IsTrue result ↔ (pos 0 <ℤ rest_determinant places.now tet.now.nodes) }
{
    rest_det(places, tet) > 0
}

// Whether each of these tetrahedra is certified.
fn are_certified(tets: &[Tet], x: &Places, y: &Places) -> bool
    requires { All (IsShort x.now y.now) tets.now }
    ensures { IsTrue result ↔ All (HasCertificate x.now y.now) tets.now }
{
    for tet in tets {
        if !is_certified(x, y, tet) {
            return false;
        }
    }
    true
}

// Whether a tetrahedron is certified to keep a positive volume on the way from x to y.
fn is_certified(x: &Places, y: &Places, tet: &Tet) -> bool
    requires { IsShort x.now y.now tet.now }
    ensures { IsTrue result ↔ HasCertificate x.now y.now tet.now }
{
    certify_volume(&corners_at(x, tet), &corners_at(y, tet))
}

// The corners of a tetrahedron.
fn corners_at(places: &Places, tet: &Tet) -> [V3; 4]
    requires { HasNodes places.now tet.now.nodes }
    ensures { result ≡ corners_at places.now tet.now.nodes }
{
    let nodes = &tet.nodes;
    [
        places.get(nodes[0]),
        places.get(nodes[1]),
        places.get(nodes[2]),
        places.get(nodes[3]),
    ]
}
