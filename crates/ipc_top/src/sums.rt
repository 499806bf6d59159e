//! The sums of coordinates.
ghost use Rattle.std.specs.Prelude.{◌≡◌};
ghost use Rattle.std.specs.List.{fold};
ghost use Rattle.space3.specs.Vectors.{origin, sum_of};
ghost use Rattle.ipc_top.specs.Moves as moves;

use report_text::Line;
use space3::{Places, V3};

/// The line of the sums of all coordinates of these places, in grid units.
pub fn sum_line(places: &Places) -> Line
    ensures { result ≡ moves.sum_line places.now }
{
    let sum = sum_of(places);
    Line::Sum {
        x: sum.x,
        y: sum.y,
        z: sum.z,
    }
}

// The sum of these places.
fn sum_of(places: &Places) -> V3
    ensures { result ≡ fold sum_of origin places.now }
{
    let mut sum = V3 { x: 0, y: 0, z: 0 };
    for node in 0..places.len() {
        let place = places.get(node);
        sum = V3 {
            x: sum.x + place.x,
            y: sum.y + place.y,
            z: sum.z + place.z,
        };
    }
    sum
}
