//! Worked cases of traces, and of the stated stack.

use crate::transcript::holds;
use std::alloc::AllocError;

const STEPS: &str = r#"
#file f.toml
@names
trace = "tr"
frames = 1
budget = 10
gravity = [0, 0, -300]
tol = 0
dhat = 2
kappa = 1
@material

#do run f.toml
#says 1
mesh nodes 4 tets 1
frame 0 start
frame 1 stalled 1
#lacks tr_0000.txt
#has tr_0001.txt
trace 1
frame 1
step newton 0 5493164 118164
1 0 0 -1
2 0 0 -1
3 0 0 -1
4 0 0 -1
end stalled 1

## The first two halvings would leave the box. The trace has the direction before it was halved.
#file t.msh
@head
1 0 0 -1048573
2 100 0 -1048573
3 0 100 -1048573
4 0 0 -1048473
@tail

#file f.toml
@names
trace = "tr"
frames = 1
budget = 1
gravity = [0, 0, -2048]
tol = 0
dhat = 2
kappa = 1
@material

#do run f.toml
#says 1
mesh nodes 4 tets 1
frame 0 start
frame 1 budget 1
#lacks tr_0000.txt
#has tr_0001.txt
trace 1
frame 1
step newton 2 256000000 144000000
1 0 0 -8
2 0 0 -8
3 0 0 -8
4 0 0 -8
end budget 1
"#;

#[test]
fn steps_are_written(rt: HostRuntime) -> Result<(), AllocError> {
    holds(&rt, rt.alloc(), STEPS)
}

const NO_STEPS: &str = r#"
#file f.toml
@names
trace = "tr"
frames = 2
budget = 10
tol = 0
dhat = 2
kappa = 1
@material

#do run f.toml
#says 0
mesh nodes 4 tets 1
frame 0 start
frame 1 converged 0
frame 2 converged 0
#has tr_0001.txt
trace 1
frame 1
end converged 0
#has tr_0002.txt
trace 1
frame 2
end converged 0
#lacks tr_0003.txt
"#;

#[test]
fn frames_without_steps_have_traces(rt: HostRuntime) -> Result<(), AllocError> {
    holds(&rt, rt.alloc(), NO_STEPS)
}

// The trace isn't there, is empty, or is whole; its frame is whole, and isn't said.
const TRACE_FAULTS: &str = r#"
#file moved
@head
1 0 0 -1
2 100 0 -1
3 0 100 -1
4 0 0 99
@tail

#file f.toml
@names
trace = "tr"
frames = 1
budget = 10
gravity = [0, 0, -300]
tol = 0
dhat = 2
kappa = 1
@material

#shelf_fails 13
#do run f.toml
#says 4
mesh nodes 4 tets 1
frame 0 start
write fault tr_0001.txt
#failed tr_0001.txt
#lacks tr_0001.txt
#has fall_0001.msh
@moved

#shelf_fails 14
#do run f.toml
#says 4
mesh nodes 4 tets 1
frame 0 start
write fault tr_0001.txt
#failed tr_0001.txt
#has tr_0001.txt
#has fall_0001.msh
@moved

#shelf_fails 15
#do run f.toml
#says 4
mesh nodes 4 tets 1
frame 0 start
write fault tr_0001.txt
#failed tr_0001.txt
#has tr_0001.txt
trace 1
frame 1
step newton 0 5493164 118164
1 0 0 -1
2 0 0 -1
3 0 0 -1
4 0 0 -1
end stalled 1
#has fall_0001.msh
@moved
"#;

#[test]
fn shelf_fails_at_a_trace(rt: HostRuntime) -> Result<(), AllocError> {
    holds(&rt, rt.alloc(), TRACE_FAULTS)
}

// The one block is held.
const ONE_BLOCK: &str = r#"
#do gen 1
#says 0
mesh nodes 8 tets 6
frame 0 start
frame 1 converged 0
sum 400 400 400
#lacks gen_0000.msh
#lacks gen_0001.msh
"#;

#[test]
fn one_block_stands(rt: HostRuntime) -> Result<(), AllocError> {
    holds(&rt, rt.alloc(), ONE_BLOCK)
}

const FOUR_BLOCKS: &str = r#"
#file said
mesh nodes 32 tets 24
frame 0 start
frame 1 stalled 6
sum 1760 1600 6896

#do gen 4
#says 1
@said

#do gen 4
#says 1
@said
"#;

#[test]
fn a_stack_falls_alike_each_time(rt: HostRuntime) -> Result<(), AllocError> {
    holds(&rt, rt.alloc(), FOUR_BLOCKS)
}
