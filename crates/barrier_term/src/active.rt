//! Pairs that are nearer than dhat.
ghost use Rattle.std.specs.Prelude.{◌≡◌, ℕ, ◌≤◌, ◌<◌, ◌*◌, ◌^◌, ℤ, pos, ◌+ℤ◌, ◌-ℤ◌, ◌*ℤ◌, neg_ℤ, ◌≤ℤ◌, ◌<ℤ◌, MatchOption};
ghost use Rattle.whole_laws.specs.Ranges.{IsFrom};
ghost use Rattle.num_q.specs.Rounding.{floor_of};
ghost use Rattle.fixed_log.specs.Logarithm.{ln_ratio_of};
ghost use Rattle.nearest.specs.declared.limits.TheConstants.{GAP_LIMIT};
ghost use Rattle.near_pair.specs.Answers.{IsBounded};
ghost use Rattle.barrier_term.specs.declared.active.TheConstants.{MOST_STIFFNESS};
ghost use Rattle.barrier_term.specs.Barrier.{reach_of, if_active, depth, steepness};

use fixed_log::ln_ratio;
use near_pair::Near;
use num_q::Q;

/// The greatest stiffness of contact, 2^40: so an energy fits 126 bits before it is rounded.
pub const MOST_STIFFNESS: i64 = 1 << 40;

/// The squared distance of a pair that is nearer than dhat, and that of dhat, with 8 fraction bits.
#[derive(Clone, Copy)]
pub struct Active {
    pub distance: u128,
    pub reach: u128,
    pub ghost some: { 1 ≤ distance },
    pub ghost inside: { distance < reach },
    pub ghost near: { reach ≤ 2 ^ 28 },
}

/// The two squared distances, where the pair is nearer than dhat.
pub fn active_pair(dhat: i64, near: &Near) -> Option<Active>
    requires dhat { IsFrom (pos 0) (pos GAP_LIMIT) dhat }
    requires bounded { IsBounded near.now }
    ensures { (formula : ℕ → ℕ → ℤ) → MatchOption result (if_active dhat near.now formula ≡ pos 0)
        (λ pair. if_active dhat near.now formula ≡ formula pair.distance pair.reach) }
{
    let distance = near.squared_distance();
    let reach = reach_of(dhat);
    if distance < reach {
        Some(Active { distance, reach })
    } else {
        None
    }
}

/// The square of dhat, from 0 to 1024 grid units, with 8 fraction bits: pairs with a squared distance below it are
/// active.
pub fn reach_of(dhat: i64) -> u128
    requires { IsFrom (pos 0) (pos GAP_LIMIT) dhat }
    ensures value { result ≡ reach_of dhat }
    ensures near { result ≤ 2 ^ 28 }
{
    let whole = dhat.unsigned_abs() as u128;
    256 * (whole * whole)
}

impl Active {
    /// The squared distance.
    pub fn distance_number(self) -> Q<8, 28>
        ensures value { result.raw ≡ pos self.distance }
        ensures positive { pos 0 <ℤ result.raw }
    {
        Q::of_raw(self.distance as i128)
    }

    /// The square of dhat.
    pub fn reach_number(self) -> Q<8, 29>
        ensures { result.raw ≡ pos self.reach }
    {
        Q::of_raw(self.reach as i128)
    }

    /// How far the squared distance is inside.
    pub fn depth(self) -> Q<8, 28>
        ensures value { result.raw ≡ depth self.distance self.reach }
        ensures some { pos 1 ≤ℤ result.raw }
    {
        Q::of_raw((self.reach - self.distance) as i128)
    }

    /// −ln(distance / reach), which is not negative.
    pub fn logarithm(self) -> Q<24, 30>
        ensures value { result.raw ≡ neg_ℤ (ln_ratio_of self.distance self.reach) }
        ensures not_negative { pos 0 ≤ℤ result.raw }
    {
        Q::of_raw(-ln_ratio(self.distance, self.reach) as i128)
    }

    /// −2·ln(distance / reach) + reach / distance − 1, which is not negative.
    pub fn steepness(self) -> Q<24, 55>
        ensures value { result.raw ≡ neg_ℤ (steepness self.distance self.reach) }
        ensures not_negative { pos 0 ≤ℤ result.raw }
    {
        let distance = self.distance_number();
        let ratio: Q<24, 53> = self
            .reach_number()
            .div_floor_into::<24, 8, 28, 24, 53>(distance);
        let two: Q<0, 2> = Q::of_raw(2);
        let one: Q<24, 25> = Q::of_raw(1 << 24);
        let twice: Q<24, 53> = two.mul_into(self.logarithm());
        let sum: Q<24, 54> = twice.add_into(ratio);
        sum.sub_into(one)
    }
}
