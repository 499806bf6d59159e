//! Work arrays and the direction that was found last.
ghost use Rattle.std.specs.Prelude.{◌≡◌, ◌+◌, ◌*◌, ◌≤◌, IfOk, length, pos, replicate, All};
ghost use Rattle.space3.specs.Vectors.{Within, origin};
ghost use Rattle.space3.specs.declared.ways.TheConstants.{DIRECTION_LIMIT};

use crate::state::{State, Task};
use num_q::{Divisor, Q};
use space3::V3;
use std::alloc::{AllocError, Global};
use std::marker::Model;

/// Room for a search of directions, and the direction that was found last: one vector for each node.
#[derive(Drop)]
pub struct Work {
    pub(crate) task: Task,
    pub(crate) state: State,
    pub(crate) dir: Vec<V3>,
}

impl Model for Work {
    ghost use Rattle.std.specs.Prelude.{List, length};
    ghost use Rattle.space3.specs.declared.vectors.V3.{V3};

    ghost Value = { List V3 };

    ghost use Rattle.sparse_cg.specs.Calls.States.{IsWork};

    ghost view = { λ w. w.dir.items };

    ghost invariant = { λ w. IsWork w.dir.items w.task w.state };
}

impl Work {
    /// Room for so many nodes, at most 16384, and the direction that moves none.
    pub fn open(alloc: Global, nodes: u32) -> Result<Self, AllocError>
        requires { nodes ≤ 16384 }
        ensures { IfOk result (λ made. made ≡ replicate nodes origin) }
    {
        let count = 3 * nodes as usize;
        let task = open_task(alloc, count)?;
        let state = open_state(alloc, count)?;
        let dir = still(alloc, nodes)?;
        Ok(Work { task, state, dir })
    }

    /// The direction that was found last, one vector for each node, in grid units.
    pub fn dir(&self) -> &[V3]
        ensures vectors { result.now ≡ self.now }
        ensures short { All (Within DIRECTION_LIMIT) result.now }
    {
        &self.dir
    }
}

fn open_task(alloc: Global, count: usize) -> Result<Task, AllocError>
    ensures target { IfOk result (λ made. length made.target.items ≡ count) }
    ensures divisors { IfOk result (λ made. length made.divisors.items ≡ count) }
{
    let target = zeros(alloc, count)?;
    let divisors = ones(alloc, count)?;
    Ok(Task {
        target,
        divisors,
        shift: 0,
    })
}

fn open_state(alloc: Global, count: usize) -> Result<State, AllocError>
    ensures x { IfOk result (λ made. length made.x.items ≡ count) }
    ensures r { IfOk result (λ made. length made.r.items ≡ count) }
    ensures p { IfOk result (λ made. length made.p.items ≡ count) }
    ensures scratch { IfOk result (λ made. length made.scratch.items ≡ count) }
    ensures product { IfOk result (λ made. length made.product.items ≡ count) }
{
    let x = zeros(alloc, count)?;
    let r = zeros(alloc, count)?;
    let p = zeros(alloc, count)?;
    let scratch = zeros(alloc, count)?;
    let product = long_zeros(alloc, count)?;
    let rho = Q::of_raw(0);
    Ok(State {
        x,
        r,
        p,
        rho,
        scratch,
        product,
    })
}

fn zeros(alloc: Global, count: usize) -> Result<Vec<i64>, AllocError>
    ensures { IfOk result (λ made. length made.items ≡ count) }
{
    let mut made = Vec::with_capacity(alloc, count)?;
    for _ in 0..count {
        made.push(0)?;
    }
    Ok(made)
}

fn ones(alloc: Global, count: usize) -> Result<Vec<Divisor>, AllocError>
    ensures { IfOk result (λ made. length made.items ≡ count) }
{
    let mut made = Vec::with_capacity(alloc, count)?;
    for _ in 0..count {
        made.push(Divisor::of(1))?;
    }
    Ok(made)
}

fn long_zeros(alloc: Global, count: usize) -> Result<Vec<i128>, AllocError>
    ensures { IfOk result (λ made. length made.items ≡ count) }
{
    let mut made = Vec::with_capacity(alloc, count)?;
    for _ in 0..count {
        made.push(0)?;
    }
    Ok(made)
}

// The direction that moves no node.
fn still(alloc: Global, nodes: u32) -> Result<Vec<V3>, AllocError>
    ensures { IfOk result (λ made. made.items ≡ replicate nodes origin) }
{
    let mut made = Vec::with_capacity(alloc, nodes as usize)?;
    for _ in 0..nodes {
        made.push(V3 { x: 0, y: 0, z: 0 })?;
    }
    Ok(made)
}
