//! The ranges of a scene's numbers.

use space3::BOX_LIMIT;

/// The greatest density. The least is 1.
pub const MOST_DENSITY: i64 = 1024;

/// The greatest modulus of a material. The least is 0.
pub const MOST_MODULUS: i64 = 1 << 30;

/// The greatest component of a velocity at the start, in grid units per frame.
pub const FASTEST: u32 = 65_536;

/// The most parts with a material of their own.
pub const MOST_PARTS: usize = 64;

/// The greatest stiffness of contact. The least is 1.
pub const MOST_KAPPA: i64 = 1 << 40;

/// The least distance from which contact acts, in grid units.
pub const LEAST_DHAT: i64 = 2;

/// The greatest.
pub const MOST_DHAT: i64 = 1024;

/// The greatest coefficient of friction, in 256ths. The least is 0.
pub const MOST_FRICTION: i64 = 1024;

/// The greatest slip, in grid units per frame: the slide below which friction is smooth. The least is 1.
pub const MOST_SLIP: i64 = 1024;

/// The greatest component of gravity, in 1/256 grid unit per frame and frame.
pub const MOST_GRAVITY: u32 = 1 << 20;

/// The greatest component of a place before a frame, in grid units: a place in the box less a velocity.
pub const FARTHEST_BEFORE: u32 = BOX_LIMIT + FASTEST;
