//! Whether the difference of the centres separates two parts for the whole step, from their corners alone.
ghost use Rattle.std.specs.Prelude.{◌≡◌, ◌≤ℤ◌, ◌<ℤ◌, IsTrue, All};
ghost use Rattle.space3.specs.Box.{IsInTheBox};
ghost use Rattle.space3.specs.Spots.{StaysInTheBox};
ghost use Rattle.space3.specs.Vectors.{AtMost, Within, dot_product};
ghost use Rattle.space3.specs.declared.vectors.TheConstants.{VECTOR_LIMIT};
ghost use Rattle.safe_motion.specs.Certificates.{IsServed};
ghost use Rattle.safe_motion.specs.Meeting.{Separates};
ghost use Rattle.pair_cert.specs.Parts.{moves_of};

use crate::corners::points;
use crate::short_products::short_dot;
use space3::{Part, V3, VECTOR_LIMIT};

// Whether the difference of the centres separates the parts at the start and at the end. No says nothing.
pub fn do_centres_separate(a: &Part, b: &Part) -> bool
    requires near_left { StaysInTheBox a.now }
    requires near_right { StaysInTheBox b.now }
    ensures { IsTrue result → IsServed (moves_of a.now) (moves_of b.now) 0 1 }
{
    let n = between_centres(a, b);
    does_separate(n, points(&a.start), points(&b.start))
        && does_separate(n, points(&a.end), points(&b.end))
}

// The difference of the centres, times the numbers of corners of both. Sums wrap where they are too great.
fn between_centres(a: &Part, b: &Part) -> V3
    ensures { Within VECTOR_LIMIT result }
{
    let first = corner_sum(a);
    let second = corner_sum(b);
    let times = i64::from(b.start.count);
    let less = i64::from(a.start.count);
    V3 {
        x: weighed(first.x, times, second.x, less),
        y: weighed(first.y, times, second.y, less),
        z: weighed(first.z, times, second.z, less),
    }
}

fn weighed(a: i64, times: i64, b: i64, less: i64) -> i64
    ensures { AtMost VECTOR_LIMIT result }
{
    let most = i64::from(VECTOR_LIMIT);
    let all = a.wrapping_mul(times).wrapping_sub(b.wrapping_mul(less));
    all.clamp(-most, most)
}

// The sum of the corners at both ends.
fn corner_sum(part: &Part) -> V3 {
    sum_from(
        sum_from(V3 { x: 0, y: 0, z: 0 }, points(&part.start)),
        points(&part.end),
    )
}

fn sum_from(start: V3, points: &[V3]) -> V3 {
    let mut sum = start;
    for p in points {
        sum = V3 {
            x: sum.x.wrapping_add(p.x),
            y: sum.y.wrapping_add(p.y),
            z: sum.z.wrapping_add(p.z),
        };
    }
    sum
}

// Whether each point of the first list is further along the vector than each of the second.
fn does_separate(n: V3, first: &[V3], second: &[V3]) -> bool
    requires normal { Within VECTOR_LIMIT n }
    requires near_left { All IsInTheBox first.now }
    requires near_right { All IsInTheBox second.now }
    ensures { IsTrue result → Separates n first.now second.now }
{
    are_past(n, first, greatest_along(n, second))
}

// The greatest product with a point, and the least number where there is none.
fn greatest_along(n: V3, points: &[V3]) -> i64
    requires normal { Within VECTOR_LIMIT n }
    requires near { All IsInTheBox points.now }
    ensures { All (λ p. dot_product n p ≤ℤ result) points.now }
{
    let mut greatest = i64::MIN;
    for p in points {
        greatest = greatest.max(short_dot(n, *p));
    }
    greatest
}

// Whether each product with a point is greater than this.
fn are_past(n: V3, points: &[V3], level: i64) -> bool
    requires normal { Within VECTOR_LIMIT n }
    requires near { All IsInTheBox points.now }
    ensures { IsTrue result → All (λ p. level <ℤ dot_product n p) points.now }
{
    for p in points {
        if short_dot(n, *p) <= level {
            return false;
        }
    }
    true
}
