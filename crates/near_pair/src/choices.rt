//! The nearest of some candidates, the first where several are.
ghost use Rattle.std.specs.Prelude.{◌≡◌, ◌<◌, ◌^◌, ◌↔◌, IsTrue, List, [], ◌∷◌, pos, ◌-ℤ◌, ◌<ℤ◌, ◌≤ℤ◌, unsigned_abs};
ghost use Rattle.space3.specs.Vectors.{squared_length};
ghost use Rattle.vec_q.specs.Raws.{raws};
ghost use Rattle.nearest.specs.Candidates.{Candidate, IsValid};
ghost use Rattle.nearest.specs.Feet.{foot_by};
ghost use Rattle.nearest.specs.RoundedWeights.{share};
ghost use Rattle.near_pair.specs.Answers.{IsBounded};
ghost use Rattle.near_pair.specs.Calls.Choices.{FoundTells, IsFound, placed, weights_on};
ghost use Rattle.near_pair.specs.Calls.Ways.{foot_of};

use crate::found::{FootQ, Found, Side, Way};
use crate::near::{Near, near_of};
use num_q::Q;
use vec_q::VecQ;

/// The nearer of the two, or the first.
pub fn earlier(first: Found, rest: Found) -> Found
    ensures { (k : Candidate) (cs : List Candidate) → IsValid k → FoundTells first k →
        IsFound rest cs → IsFound result (k ∷ cs) }
{
    let left: Q<0, 114> = first.num.mul_into(rest.den);
    let right: Q<0, 114> = rest.num.mul_into(first.den);
    if is_at_most(left, right) { first } else { rest }
}

/// The nearer of a foot on an edge, where it is inside, and the rest.
pub fn with_edge(side: Side, foot: FootQ, rest: Found) -> Found
    ensures { (cs : List Candidate) → IsFound rest cs →
        IsFound result (placed side (foot_of foot) ∷ cs) }
{
    if !is_positive(foot.start) {
        return rest;
    }
    if !is_positive(foot.end) {
        return rest;
    }
    earlier(on_edge(side, foot), rest)
}

/// The foot of a point on a line, by the ways from a point of the line to it and along the line.
pub fn foot_from(q: Way, e: Way) -> FootQ
    ensures { foot_of result ≡ foot_by (raws q) (raws e) }
{
    let across: VecQ<0, 37> = q.cross_into(e);
    let end: Q<0, 38> = q.dot_into(e);
    let den: Q<0, 38> = e.dot_into(e);
    FootQ {
        start: den.sub_into(end),
        end,
        num: across.dot_into(across),
        den,
    }
}

// The candidate of a foot that is inside an edge.
fn on_edge(side: Side, foot: FootQ) -> Found
    requires start { pos 0 <ℤ foot.start.raw }
    requires end { pos 0 <ℤ foot.end.raw }
    ensures { FoundTells result (placed side (foot_of foot)) }
{
    let of_end = share_of(foot.end, foot.den);
    let weights = weights_of(side, 65536 - of_end, of_end);
    Found {
        num: foot.num,
        den: foot.den,
        weights,
    }
}

// 65536 times a weight over `den`, rounded down.
fn share_of(weight: Q<0, 38>, den: Q<0, 38>) -> i64
    requires { pos 0 <ℤ den.raw }
    ensures value { result ≡ share den.raw weight.raw }
    ensures bound { unsigned_abs result < 2 ^ 54 }
{
    let quotient: Q<16, 54> = weight.div_floor_into::<16, 0, 38, 16, 54>(den);
    quotient.raw() as i64
}

fn weights_of(side: Side, start: i64, end: i64) -> [i64; 4]
    ensures { result ≡ weights_on side start end }
{
    match side {
        Side::Ab => [65536, start, end, 0],
        Side::Ac => [65536, start, 0, end],
        Side::Bc => [65536, 0, start, end],
        Side::FromA0 => [65536, 0, start, end],
        Side::FromA1 => [0, 65536, start, end],
        Side::FromB0 => [start, end, 65536, 0],
        Side::FromB1 => [start, end, 0, 65536],
    }
}

/// Two points alone, by the way between them.
pub fn alone(way: Way, weights: [i64; 4]) -> Found
    ensures num { result.num.raw ≡ squared_length (raws way) }
    ensures den { result.den.raw ≡ pos 1 }
    ensures weights { result.weights ≡ weights }
{
    Found {
        num: way.dot_into(way),
        den: Q::of_raw(1),
        weights,
    }
}

/// The nearest points that were found.
pub fn near_found(found: Found) -> Near
    ensures num { pos result.num ≡ found.num.raw }
    ensures den { pos result.den ≡ found.den.raw }
    ensures weights { result.weights ≡ found.weights }
    ensures bounded { IsBounded result }
{
    let weights = found.weights;
    near_of(found.num.widened_into(), found.den.widened_into(), weights)
}

/// 65536 times a weight over a greater `den`, rounded down.
pub fn inner_share(weight: Q<0, 76>, den: Q<0, 76>) -> i64
    requires positive { pos 0 <ℤ weight.raw }
    requires below { weight.raw <ℤ den.raw }
    ensures value { result ≡ share den.raw weight.raw }
    ensures low { pos 0 ≤ℤ result }
    ensures high { result ≤ℤ pos 65536 }
{
    let quotient: Q<16, 92> = weight.div_floor_into::<16, 0, 76, 16, 92>(den);
    quotient.raw() as i64
}

pub fn is_positive<const B: u32>(q: Q<0, B>) -> bool
    ensures { IsTrue result ↔ (pos 0 <ℤ q.entry.raw) }
{
    q.raw() > 0
}

fn is_at_most<const B: u32>(a: Q<0, B>, b: Q<0, B>) -> bool
    ensures { IsTrue result ↔ (a.entry.raw ≤ℤ b.entry.raw) }
{
    a.raw() <= b.raw()
}
