//! Vectors in grid units, their differences and determinants.
ghost use Rattle.std.specs.Prelude.{◌≡◌, ◌^◌, ◌≤◌, ◌*◌, ◌-ℤ◌, ◌*ℤ◌, ◌+ℤ◌};
ghost use Rattle.space3.specs.Vectors.{AtMost, Within, difference, dot_product, cross_product, determinant};
ghost use Rattle.space3.specs.Wide.{unbounded};

/// The greatest absolute value of a component that is multiplied: 2^30. So a determinant, a sum of six products of
/// three components, stays far below 2^127.
pub const VECTOR_LIMIT: u32 = 1_073_741_824;

/// The greatest absolute value of a component of a cross product of such vectors: 2^61.
pub const CROSS_LIMIT: u64 = 2_305_843_009_213_693_952;

/// A vector of whole numbers, in grid units.
#[derive(Clone, Copy, PartialEq, Eq, Debug)]
pub struct V3 {
    pub x: i64,
    pub y: i64,
    pub z: i64,
}

/// A vector whose components are products of two numbers, as a cross product, in squared grid units.
#[derive(Clone, Copy, PartialEq, Eq, Debug)]
pub struct W3 {
    pub x: i128,
    pub y: i128,
    pub z: i128,
}

/// The difference `a − b`. Components are at most [`VECTOR_LIMIT`] in absolute value.
pub fn sub(a: V3, b: V3) -> V3
    requires left { Within VECTOR_LIMIT a }
    requires right { Within VECTOR_LIMIT b }
    ensures { result ≡ difference a b }
{
    V3 {
        x: less(a.x, b.x),
        y: less(a.y, b.y),
        z: less(a.z, b.z),
    }
}

/// The dot product `a · b`. Components are at most [`VECTOR_LIMIT`] in absolute value.
pub fn dot(a: V3, b: V3) -> i128
    requires left { Within VECTOR_LIMIT a }
    requires right { Within VECTOR_LIMIT b }
    ensures { result ≡ dot_product a b }
{
    plus(plus(times(a.x, b.x), times(a.y, b.y)), times(a.z, b.z))
}

/// The cross product `a × b`. Components are at most [`VECTOR_LIMIT`] in absolute value, and those of the
/// answer at most [`CROSS_LIMIT`].
pub fn cross(a: V3, b: V3) -> W3
    requires left { Within VECTOR_LIMIT a }
    requires right { Within VECTOR_LIMIT b }
    ensures value { unbounded result ≡ cross_product a b }
    ensures bound { Within CROSS_LIMIT (unbounded result) }
{
    W3 {
        x: minor(a.y, a.z, b.y, b.z),
        y: minor(a.z, a.x, b.z, b.x),
        z: minor(a.x, a.y, b.x, b.y),
    }
}

/// The determinant `a · (b × c)`. Components are at most [`VECTOR_LIMIT`] in absolute value.
pub fn det(a: V3, b: V3, c: V3) -> i128
    requires first { Within VECTOR_LIMIT a }
    requires second { Within VECTOR_LIMIT b }
    requires third { Within VECTOR_LIMIT c }
    ensures { result ≡ determinant a b c }
{
    dot_wide(a, cross(b, c))
}

/// The dot product `a · b` with a cross product. Components of `a` are at most [`VECTOR_LIMIT`] in absolute value,
/// those of `b` at most [`CROSS_LIMIT`].
pub fn dot_wide(a: V3, b: W3) -> i128
    requires left { Within VECTOR_LIMIT a }
    requires right { Within CROSS_LIMIT (unbounded b) }
    ensures { result ≡ dot_product a (unbounded b) }
{
    plus(
        plus(times_wide(a.x, b.x), times_wide(a.y, b.y)),
        times_wide(a.z, b.z),
    )
}

/// The minor `a·d − b·c`.
fn minor(a: i64, b: i64, c: i64, d: i64) -> i128
    requires top_left { AtMost VECTOR_LIMIT a }
    requires top_right { AtMost VECTOR_LIMIT b }
    requires low_left { AtMost VECTOR_LIMIT c }
    requires low_right { AtMost VECTOR_LIMIT d }
    ensures value { result ≡ a *ℤ d -ℤ b *ℤ c }
    ensures bound { AtMost CROSS_LIMIT result }
{
    minus(times(a, d), times(b, c))
}

fn times(a: i64, b: i64) -> i128
    requires left { AtMost VECTOR_LIMIT a }
    requires right { AtMost VECTOR_LIMIT b }
    ensures value { result ≡ a *ℤ b }
    ensures bound { AtMost (VECTOR_LIMIT * VECTOR_LIMIT) result }
{
    a as i128 * b as i128
}

fn times_wide(a: i64, b: i128) -> i128
    requires left { AtMost VECTOR_LIMIT a }
    requires right { AtMost CROSS_LIMIT b }
    ensures value { result ≡ a *ℤ b }
    ensures bound { AtMost (VECTOR_LIMIT * CROSS_LIMIT) result }
{
    a as i128 * b
}

fn plus(a: i128, b: i128) -> i128
    requires left { AtMost (2 ^ 125) a }
    requires right { AtMost (2 ^ 125) b }
    ensures { result ≡ a +ℤ b }
{
    a + b
}

fn minus(a: i128, b: i128) -> i128
    requires left { AtMost (2 ^ 125) a }
    requires right { AtMost (2 ^ 125) b }
    ensures { result ≡ a -ℤ b }
{
    a - b
}

fn less(a: i64, b: i64) -> i64
    requires left { AtMost VECTOR_LIMIT a }
    requires right { AtMost VECTOR_LIMIT b }
    ensures { result ≡ a -ℤ b }
{
    a - b
}
