//! A fault at each call in turn, in a run of three frames, and memory that is wanting.

use crate::desk::Desk;
use crate::transcript::{holds, started, words_of};
use std::alloc::{AllocError, Global};

const SHELF_FAULTS: &str = r#"
## each call that reads
#shelf_fails 1
#do run f.toml
#says 3
read fault f.toml
#failed f.toml
#lacks fall_0000.msh

#shelf_fails 2
#do run f.toml
#says 3
read fault f.toml
#failed f.toml
#lacks fall_0000.msh

#shelf_fails 3
#do run f.toml
#says 3
read fault f.toml
#failed f.toml
#lacks fall_0000.msh

#shelf_fails 4
#do run f.toml
#says 3
read fault t.msh
#failed t.msh
#lacks fall_0000.msh

#shelf_fails 5
#do run f.toml
#says 3
read fault t.msh
#failed t.msh
#lacks fall_0000.msh

#shelf_fails 6
#do run f.toml
#says 3
read fault t.msh
#failed t.msh
#lacks fall_0000.msh

## each call that writes: the file isn't there, is empty, or is whole, and earlier frames stay whole
#shelf_fails 7
#do run f.toml
#says 4
mesh nodes 4 tets 1
write fault fall_0000.msh
#failed fall_0000.msh
#lacks fall_0000.msh

#shelf_fails 8
#do run f.toml
#says 4
mesh nodes 4 tets 1
write fault fall_0000.msh
#failed fall_0000.msh
#has fall_0000.msh

#shelf_fails 9
#do run f.toml
#says 4
mesh nodes 4 tets 1
write fault fall_0000.msh
#failed fall_0000.msh
#has fall_0000.msh
@t.msh

#shelf_fails 10
#do run f.toml
#says 4
mesh nodes 4 tets 1
frame 0 start
write fault fall_0001.msh
#failed fall_0001.msh
#lacks fall_0001.msh

#shelf_fails 11
#do run f.toml
#says 4
mesh nodes 4 tets 1
frame 0 start
write fault fall_0001.msh
#failed fall_0001.msh
#has fall_0001.msh

#shelf_fails 12
#do run f.toml
#says 4
mesh nodes 4 tets 1
frame 0 start
write fault fall_0001.msh
#failed fall_0001.msh
#has fall_0001.msh
@fall_1

#shelf_fails 13
#do run f.toml
#says 4
mesh nodes 4 tets 1
frame 0 start
frame 1 converged 1
write fault fall_0002.msh
#failed fall_0002.msh
#lacks fall_0002.msh

#shelf_fails 14
#do run f.toml
#says 4
mesh nodes 4 tets 1
frame 0 start
frame 1 converged 1
write fault fall_0002.msh
#failed fall_0002.msh
#has fall_0002.msh

#shelf_fails 15
#do run f.toml
#says 4
mesh nodes 4 tets 1
frame 0 start
frame 1 converged 1
write fault fall_0002.msh
#failed fall_0002.msh
#has fall_0002.msh
@fall_2

#shelf_fails 16
#do run f.toml
#says 4
mesh nodes 4 tets 1
frame 0 start
frame 1 converged 1
frame 2 converged 1
write fault fall_0003.msh
#failed fall_0003.msh
#lacks fall_0003.msh
#has fall_0000.msh
@t.msh
#has fall_0002.msh
@fall_2

#shelf_fails 17
#do run f.toml
#says 4
mesh nodes 4 tets 1
frame 0 start
frame 1 converged 1
frame 2 converged 1
write fault fall_0003.msh
#failed fall_0003.msh
#has fall_0003.msh

#shelf_fails 18
#do run f.toml
#says 4
mesh nodes 4 tets 1
frame 0 start
frame 1 converged 1
frame 2 converged 1
write fault fall_0003.msh
#failed fall_0003.msh
#has fall_0003.msh
@fall_3

## there is no other call
#shelf_fails 19
#do run f.toml
#says 0
mesh nodes 4 tets 1
frame 0 start
frame 1 converged 1
frame 2 converged 1
frame 3 converged 1
"#;

#[test]
fn shelf_fails_at_each_call(rt: HostRuntime) -> Result<(), AllocError> {
    holds(&rt, rt.alloc(), SHELF_FAULTS)
}

const CONSOLE_FAULTS: &str = r#"
#console_fails 1
#do run f.toml
#says 9

#console_fails 2
#do run f.toml
#says 9
mesh nodes 4 tets 1

#console_fails 3
#do run f.toml
#says 9
mesh nodes 4 tets 1
frame 0 start

#console_fails 4
#do run f.toml
#says 9
mesh nodes 4 tets 1
frame 0 start
frame 1 converged 1

#console_fails 5
#do run f.toml
#says 9
mesh nodes 4 tets 1
frame 0 start
frame 1 converged 1
frame 2 converged 1

## there is no sixth line
#console_fails 6
#do run f.toml
#says 0
mesh nodes 4 tets 1
frame 0 start
frame 1 converged 1
frame 2 converged 1
frame 3 converged 1

## the line of a fault
#shelf_fails 1
#console_fails 1
#do run f.toml
#says 9
"#;

#[test]
fn console_fails_at_each_line(rt: HostRuntime) -> Result<(), AllocError> {
    holds(&rt, rt.alloc(), CONSOLE_FAULTS)
}

const SAID: &[u8] =
    b"mesh nodes 4 tets 1\nframe 0 start\nframe 1 converged 1\nframe 2 converged 1\nframe 3 converged 1\n";

// What a run of three frames of fall leaves.
fn fallen(alloc: Global) -> Result<Desk, AllocError> {
    let mut desk = started(alloc)?;
    desk.obey(&words_of(alloc, "run f.toml")?)?;
    Ok(desk)
}

// One run where an allocation may fail, also those that make the shelf and the words. With ample memory it is three
// frames of fall; else the status is 8, or that of a device in memory that found none.
#[test]
fn frames_or_want_of_memory(rt: HostRuntime) {
    let Ok(desk) = fallen(rt.alloc()) else {
        return;
    };
    let stopped = desk.status == 8 || desk.status == 4 || desk.status == 9;
    let whole = desk.status == 0 && desk.said() == SAID;
    assert!(rt; stopped || whole, "status {}", desk.status);
}
