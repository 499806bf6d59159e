//! Sums of pulls, one for each node.
ghost use Rattle.std.specs.Prelude.{◌≡◌, ◌<◌, ◌≤◌, ◌^◌, ◌-◌, ◌+ℤ◌, IfOk, All, map, length, slice_index_or, false, flat_map};
ghost use Rattle.std.specs.List.{range_with_len};
ghost use Rattle.space3.specs.Vectors.{AtMost, Within};
ghost use Rattle.space3.specs.Wide.{unbounded};
ghost use Rattle.vec_q.specs.Rows.{vector_of};
ghost use Rattle.potential_sum.specs.Calls.Sums.{AreLight, as_pull, nothing, numbers_of, wide_sum, with_pulls};

use space3::W3;
use std::alloc::{AllocError, Global};

/// What pulls at a node.
#[derive(Clone, Copy)]
pub(crate) struct Pull {
    pub node: u32,
    pub force: W3,
}

// What pulls at a node.
pub(crate) fn pull_at(node: u32, force: [i128; 3]) -> Pull
    ensures { result ≡ as_pull (node, vector_of force) }
{
    Pull {
        node,
        force: W3 {
            x: force[0],
            y: force[1],
            z: force[2],
        },
    }
}

/// Adds each of these pulls to the sum at its node.
pub(crate) fn add_pulls(sums: &mut [W3], pulls: &[Pull])
    requires few { length pulls.now ≤ 4 }
    requires there { All (λ pull. pull.node < length sums.old) pulls.now }
    requires small { AreLight (2 ^ 126 - 2 ^ 92) sums.old }
    requires pulls { All (λ pull. Within (2 ^ 90) (unbounded pull.force)) pulls.now }
    ensures { sums.new ≡ with_pulls sums.old pulls.now }
{
    for pull in pulls {
        let node = pull.node as usize;
        sums[node] = wide_sum(sums[node], pull.force);
    }
}

fn wide_sum(a: W3, b: W3) -> W3
    requires left { Within (2 ^ 126) (unbounded a) }
    requires right { Within (2 ^ 90) (unbounded b) }
    ensures { result ≡ wide_sum a b }
{
    W3 {
        x: sum(a.x, b.x),
        y: sum(a.y, b.y),
        z: sum(a.z, b.z),
    }
}

fn sum(a: i128, b: i128) -> i128
    requires left { AtMost (2 ^ 126) a }
    requires right { AtMost (2 ^ 90) b }
    ensures { result ≡ a +ℤ b }
{
    a + b
}

/// The sums as numbers, three for each node, 0 for those that are fixed.
pub(crate) fn node_numbers(
    alloc: Global,
    sums: &[W3],
    fixed: &[bool],
) -> Result<Vec<i128>, AllocError>
    requires each { length fixed.now ≡ length sums.now }
    ensures { IfOk result (λ made. made.items ≡
        flat_map (λ node. numbers_of (slice_index_or fixed.now node false)
        (slice_index_or sums.now node nothing)) (range_with_len 0 (length sums.now))) }
{
    let mut made = Vec::with_capacity(alloc, sums.len().saturating_mul(3))?;
    for node in 0..sums.len() {
        made.extend_from_slice(&numbers_of(fixed[node], sums[node]))?;
    }
    Ok(made)
}

// The three numbers of a node, 0 where it is fixed.
fn numbers_of(fixed: bool, sum: W3) -> [i128; 3]
    ensures { result ≡ numbers_of fixed sum }
{
    if fixed {
        [0, 0, 0]
    } else {
        [sum.x, sum.y, sum.z]
    }
}
