//! The elimination of the first variable.
ghost use Rattle.std.specs.Prelude.{IsTrue, is_some, ◌↔◌, ◌≡◌, ◌^◌, ◌+◌, ◌-◌, ◌≤◌, pos, ◌<ℤ◌, ◌-ℤ◌, ◌*ℤ◌, unsigned_abs, min, take, All};
ghost use Rattle.space3.specs.Vectors.{AtMost, Within, vector};
ghost use Rattle.plane_cut.specs.Planes.{HasPlane};
ghost use Rattle.plane_cut.specs.Calls.Elimination.{combined, flattened, ServesFlat, ServesPair, ServesPairs};
ghost use Rattle.plane_cut.specs.Calls.Cones.{as_row, IsCone, NarrowsOrNone};

use crate::cones::{Cone, narrowed_cone};
use crate::rows::Flat;
use num_q::Q;
use space3::V3;

/// The most rows: the differences of the points of two spots of four.
pub const ROW_LIMIT: usize = 16;

/// The greatest absolute value of a component of a row, 2^29: a difference of two points at the finest scale. So an
/// eliminated row has at most 61 bits, and a turn of two of these 123.
pub const COMPONENT_LIMIT: u32 = 536_870_912;

/// Counts plane decisions. A count that stands at its last value stays there.
#[derive(Clone, Copy, PartialEq, Eq, Debug)]
pub struct Tally {
    pub n: u64,
}

/// Whether some whole vector has a positive product with each of the first `count` rows. Components
/// of these are at most [`COMPONENT_LIMIT`] in absolute value. The tally rises by one.
pub fn has_plane(rows: &[V3; ROW_LIMIT], count: u8, tally: &mut Tally) -> bool
    requires few { count ≤ ROW_LIMIT }
    requires range { All (Within COMPONENT_LIMIT) (take count rows.now) }
    ensures plane { IsTrue result ↔ HasPlane (take count rows.now) }
    ensures tally { tally.new.n ≡ min (tally.old.n + 1) (2 ^ 64 - 1) }
{
    tally.n = tally.n.saturating_add(1);
    cone_of(rows, count as usize).is_some()
}

/// The cone of the rows without their third component, or None where the rows have no plane.
pub fn cone_of(rows: &[V3; ROW_LIMIT], count: usize) -> Option<Cone>
    requires few { count ≤ ROW_LIMIT }
    requires range { All (Within COMPONENT_LIMIT) (take count rows.now) }
    ensures { IsTrue (is_some result) ↔ HasPlane (take count rows.now) }
{
    let cone = with_flats(rows, count)?;
    with_all_pairs(cone, rows, count)
}

/// The cone that also has the combinations of all rows above 0.
fn with_all_pairs(start: Cone, rows: &[V3; ROW_LIMIT], count: usize) -> Option<Cone>
    requires start { IsCone start }
    requires few { count ≤ ROW_LIMIT }
    requires range { All (Within COMPONENT_LIMIT) (take count rows.now) }
    ensures { let given = take count rows.now in
        NarrowsOrNone start (λ n. All (ServesPairs n given) given) result }
{
    let mut cone = start;
    for i in 0..count {
        let p = rows[i];
        if p.z > 0 {
            cone = with_pairs(cone, p, rows, count)?;
        }
    }
    Some(cone)
}

/// The cone that also has the combinations of one row above 0.
fn with_pairs(start: Cone, p: V3, rows: &[V3; ROW_LIMIT], count: usize) -> Option<Cone>
    requires start { IsCone start }
    requires above { Within COMPONENT_LIMIT p }
    requires few { count ≤ ROW_LIMIT }
    requires range { All (Within COMPONENT_LIMIT) (take count rows.now) }
    ensures { NarrowsOrNone start (λ n. All (ServesPair n p) (take count rows.now)) result }
{
    let mut cone = start;
    for i in 0..count {
        let q = rows[i];
        if q.z < 0 {
            cone = narrowed_cone(cone, combination(p, q))?;
        }
    }
    Some(cone)
}

/// The cone of the rows whose third component is 0.
fn with_flats(rows: &[V3; ROW_LIMIT], count: usize) -> Option<Cone>
    requires few { count ≤ ROW_LIMIT }
    requires range { All (Within COMPONENT_LIMIT) (take count rows.now) }
    ensures { NarrowsOrNone Cone.Empty (λ n. All (ServesFlat n) (take count rows.now)) result }
{
    let mut cone = Cone::Empty;
    for i in 0..count {
        let row = rows[i];
        if row.z == 0 {
            cone = narrowed_cone(cone, flat_row(row))?;
        }
    }
    Some(cone)
}

/// The combination of a row above 0 and one below 0 in which the third component is 0.
fn combination(p: V3, q: V3) -> Flat
    requires above { Within COMPONENT_LIMIT p }
    requires below { Within COMPONENT_LIMIT q }
    ensures { as_row result ≡ combined p q }
{
    Flat {
        x: minor(q.x, p.x, q.z, p.z),
        y: minor(q.y, p.y, q.z, p.z),
    }
}

fn flat_row(row: V3) -> Flat
    requires { Within COMPONENT_LIMIT row }
    ensures { as_row result ≡ flattened row }
{
    Flat {
        x: Q::of_raw(row.x as i128),
        y: Q::of_raw(row.y as i128),
    }
}

/// The minor `a·d − b·c`.
fn minor(a: i64, b: i64, c: i64, d: i64) -> Q<0, 61>
    requires top_left { AtMost COMPONENT_LIMIT a }
    requires top_right { AtMost COMPONENT_LIMIT b }
    requires low_left { AtMost COMPONENT_LIMIT c }
    requires low_right { AtMost COMPONENT_LIMIT d }
    ensures { result.raw ≡ a *ℤ d -ℤ b *ℤ c }
{
    let left: Q<0, 60> = component(a).mul_into(component(d));
    let right: Q<0, 60> = component(b).mul_into(component(c));
    left.sub_into(right)
}

fn component(a: i64) -> Q<0, 30>
    requires { AtMost COMPONENT_LIMIT a }
    ensures { result.raw ≡ a }
{
    Q::of_raw(a as i128)
}
