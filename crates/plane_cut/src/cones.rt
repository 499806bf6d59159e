//! Planes through the third axis. The rows seen so far are kept as the cone that they span, by its
//! outermost rows: the second variable is eliminated between these and each further row.
ghost use Rattle.std.specs.Prelude.{◌≡◌, ◌^◌, ◌<◌, ◌≤◌, pos, ◌<ℤ◌, ◌≤ℤ◌, ◌-ℤ◌, ◌+ℤ◌, ◌*ℤ◌, unsigned_abs};
ghost use Rattle.space3.specs.Vectors.{dot_product};
ghost use Rattle.plane_cut.specs.Calls.Elimination.{turn_of};
ghost use Rattle.plane_cut.specs.Calls.Cones.{as_row, IsCone, NarrowsOrNone};

use crate::rows::Flat;
use num_q::Q;

/// The cone that some flat rows span, by its outermost rows. From the first row of a wedge the turn to
/// the second is to the left.
#[derive(Clone, Copy)]
pub enum Cone {
    Empty,
    Ray(Flat),
    Wedge(Flat, Flat),
}

/// The cone of one more row, or None where no plane serves that row too.
pub fn narrowed_cone(cone: Cone, row: Flat) -> Option<Cone>
    requires { IsCone cone }
    ensures { NarrowsOrNone cone (λ n. pos 0 <ℤ dot_product n (as_row row)) result }
{
    match cone {
        Cone::Empty => ray(row),
        Cone::Ray(only) => opened_ray(only, row),
        Cone::Wedge(low, high) => widened_wedge(low, high, row),
    }
}

fn ray(row: Flat) -> Option<Cone>
    ensures { NarrowsOrNone Cone.Empty (λ n. pos 0 <ℤ dot_product n (as_row row)) result }
{
    if row.x.raw() == 0 && row.y.raw() == 0 {
        None
    } else {
        Some(Cone::Ray(row))
    }
}

fn opened_ray(only: Flat, row: Flat) -> Option<Cone>
    requires { IsCone (Cone.Ray only) }
    ensures { NarrowsOrNone (Cone.Ray only) (λ n. pos 0 <ℤ dot_product n (as_row row)) result }
{
    let left = turn(only, row).raw();
    if left > 0 {
        Some(Cone::Wedge(only, row))
    } else if left < 0 {
        Some(Cone::Wedge(row, only))
    } else if scalar_product(only, row).raw() > 0 {
        Some(Cone::Ray(only))
    } else {
        None
    }
}

fn widened_wedge(low: Flat, high: Flat, row: Flat) -> Option<Cone>
    requires { IsCone (Cone.Wedge low high) }
    ensures { NarrowsOrNone (Cone.Wedge low high)
        (λ n. pos 0 <ℤ dot_product n (as_row row)) result }
{
    let from_low = turn(low, row).raw();
    let to_high = turn(row, high).raw();
    if from_low > 0 {
        if to_high < 0 {
            Some(Cone::Wedge(low, row))
        } else {
            Some(Cone::Wedge(low, high))
        }
    } else if to_high > 0 {
        if from_low < 0 {
            Some(Cone::Wedge(row, high))
        } else {
            Some(Cone::Wedge(low, high))
        }
    } else {
        None
    }
}

/// How far b lies to the left of a: what is left of both rows when the second variable is eliminated.
fn turn(a: Flat, b: Flat) -> Q<0, 123>
    ensures { result.raw ≡ turn_of (as_row a) (as_row b) }
{
    let left: Q<0, 122> = a.x.mul_into(b.y);
    let right: Q<0, 122> = a.y.mul_into(b.x);
    left.sub_into(right)
}

fn scalar_product(a: Flat, b: Flat) -> Q<0, 123>
    ensures { result.raw ≡ a.x.raw *ℤ b.x.raw +ℤ a.y.raw *ℤ b.y.raw }
{
    let first: Q<0, 122> = a.x.mul_into(b.x);
    let second: Q<0, 122> = a.y.mul_into(b.y);
    first.add_into(second)
}
