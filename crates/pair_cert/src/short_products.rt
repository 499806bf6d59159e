//! Dot products of a guessed vector with a short one. They fit 64 bits.
ghost use Rattle.std.specs.Prelude.{◌≡◌, ◌^◌, ◌≤◌, ◌*◌, ◌+ℤ◌, ◌*ℤ◌};
ghost use Rattle.space3.specs.Vectors.{AtMost, Within, dot_product};
ghost use Rattle.space3.specs.declared.vectors.TheConstants.{VECTOR_LIMIT};
ghost use Rattle.plane_cut.specs.declared.planes.TheConstants.{COMPONENT_LIMIT};

use space3::V3;

// The dot product: a sum of three products within 2^59.
pub fn short_dot(n: V3, a: V3) -> i64
    requires normal { Within VECTOR_LIMIT n }
    requires short { Within COMPONENT_LIMIT a }
    ensures { result ≡ dot_product n a }
{
    plus(plus(times(n.x, a.x), times(n.y, a.y)), times(n.z, a.z))
}

fn times(a: i64, b: i64) -> i64
    requires left { AtMost VECTOR_LIMIT a }
    requires right { AtMost COMPONENT_LIMIT b }
    ensures value { result ≡ a *ℤ b }
    ensures bound { AtMost (VECTOR_LIMIT * COMPONENT_LIMIT) result }
{
    a * b
}

fn plus(a: i64, b: i64) -> i64
    requires left { AtMost (2 ^ 61) a }
    requires right { AtMost (2 ^ 61) b }
    ensures { result ≡ a +ℤ b }
{
    a + b
}
