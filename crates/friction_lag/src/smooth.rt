//! The length that friction works along, and its derivative.
ghost use Rattle.std.specs.Prelude.{◌≡◌, ◌≤◌, ◌<◌, ◌*◌, ◌^◌, pos, ◌≤ℤ◌, unsigned_abs};
ghost use Rattle.whole_laws.specs.Ranges.{IsFrom};
ghost use Rattle.nearest.specs.declared.limits.TheConstants.{ONE};
ghost use Rattle.surface_mesh.specs.declared.ranges.TheConstants.{MOST_SLIP};
ghost use Rattle.friction_lag.specs.Friction.{slip_of, smooth_length, smooth_rate};

use num_q::Q;

/// The slip with 16 fraction bits.
pub fn slip_of(slip: i64) -> u64
    requires { IsFrom (pos 1) MOST_SLIP slip }
    ensures value { result ≡ slip_of slip }
    ensures low { ONE ≤ result }
    ensures high { result ≤ 2 ^ 26 }
{
    65536 * slip.unsigned_abs()
}

/// The smooth length of a slide `y` at the slip `e`.
pub fn smooth_length(y: u64, e: u64) -> Q<16, 42>
    requires short { y < 2 ^ 42 }
    requires low { ONE ≤ e }
    requires high { e ≤ 2 ^ 26 }
    ensures value { result.raw ≡ smooth_length y e }
    ensures least { smooth_length 0 e ≤ℤ result.raw }
{
    if y < e {
        smooth_below(y, e)
    } else {
        Q::of_raw(y as i128)
    }
}

fn smooth_below(y: u64, e: u64) -> Q<16, 42>
    requires below { y < e }
    requires low { ONE ≤ e }
    requires high { e ≤ 2 ^ 26 }
    ensures value { result.raw ≡ smooth_length y e }
    ensures least { smooth_length 0 e ≤ℤ result.raw }
{
    cubic_quotient(y, e).narrowed_into()
}

fn cubic_quotient(y: u64, e: u64) -> Q<16, 83>
    requires below { y < e }
    requires low { ONE ≤ e }
    requires high { e ≤ 2 ^ 26 }
    ensures { result.raw ≡ smooth_length y e }
{
    let three: Q<0, 2> = Q::of_raw(3);
    let y: Q<16, 26> = number(y);
    let e: Q<16, 27> = number(e);
    let yy: Q<32, 52> = y.mul_into(y);
    let ee: Q<32, 54> = e.mul_into(e);
    let eyy: Q<48, 79> = e.mul_into(yy);
    let thrice: Q<48, 81> = three.mul_into(eyy);
    let yyy: Q<48, 81> = y.mul_into(yy);
    let eee: Q<48, 82> = e.mul_into(ee);
    let less: Q<48, 82> = thrice.sub_into(yyy);
    let sum: Q<48, 83> = less.add_into(eee);
    let divisor: Q<32, 56> = three.mul_into(ee);
    sum.div_floor_into::<0, 32, 56, 16, 83>(divisor)
}

/// The derivative of the smooth length over the slide.
pub fn smooth_rate(y: u64, e: u64) -> Q<24, 26>
    requires short { y < 2 ^ 42 }
    requires low { ONE ≤ e }
    requires high { e ≤ 2 ^ 26 }
    ensures value { result.raw ≡ smooth_rate y e }
    ensures not_negative { pos 0 ≤ℤ result.raw }
    ensures bound { result.raw ≤ℤ pos (2 ^ 25) }
{
    if y < e {
        rate_below(y, e)
    } else {
        rate_above(y, e)
    }
}

fn rate_below(y: u64, e: u64) -> Q<24, 26>
    requires below { y < e }
    requires low { ONE ≤ e }
    requires high { e ≤ 2 ^ 26 }
    ensures value { result.raw ≡ smooth_rate y e }
    ensures not_negative { pos 0 ≤ℤ result.raw }
    ensures bound { result.raw ≤ℤ pos (2 ^ 25) }
{
    rate_quotient(y, e).narrowed_into()
}

fn rate_quotient(y: u64, e: u64) -> Q<24, 70>
    requires below { y < e }
    requires low { ONE ≤ e }
    requires high { e ≤ 2 ^ 26 }
    ensures { result.raw ≡ smooth_rate y e }
{
    let two: Q<0, 2> = Q::of_raw(2);
    let y: Q<16, 26> = number(y);
    let e: Q<16, 27> = number(e);
    let twice: Q<16, 29> = two.mul_into(e);
    let less: Q<16, 30> = twice.sub_into(y);
    let ee: Q<32, 54> = e.mul_into(e);
    less.div_floor_into::<40, 32, 54, 24, 70>(ee)
}

fn rate_above(y: u64, e: u64) -> Q<24, 26>
    requires short { y < 2 ^ 42 }
    requires above { e ≤ y }
    requires low { ONE ≤ e }
    ensures value { result.raw ≡ smooth_rate y e }
    ensures not_negative { pos 0 ≤ℤ result.raw }
    ensures bound { result.raw ≤ℤ pos (2 ^ 25) }
{
    let one: Q<40, 41> = Q::of_raw(1 << 40);
    let y: Q<16, 42> = number(y);
    let quotient: Q<24, 41> = one.div_floor_into::<0, 16, 42, 24, 41>(y);
    quotient.narrowed_into()
}

fn number<const B: u32>(n: u64) -> Q<16, B>
    requires small { n < 2 ^ B }
    requires width { B ≤ 126 }
    ensures { result.raw ≡ pos n }
{
    Q::of_raw(n as i128)
}
