//! Worked cases: words, a mesh and a scene, and how the command ends.

use crate::transcript::holds;
use std::alloc::AllocError;

const ACCEPTED: &str = r#"
#do check 0 t.msh o
#says 0
mesh nodes 4 tets 1
frame 0 start
#has o_0000.msh
@t.msh

## blanks, a tab, a sign, zeros and an empty line
#file u.msh
$MeshFormat
2.2 0 8
$EndMeshFormat
$Nodes
4
1  +0\t00 0

2 100 0 0
3 0 100 0
4 0 0 100
@tail

#do check 0 u.msh o
#says 0
mesh nodes 4 tets 1
frame 0 start
#has o_0000.msh
@t.msh
"#;

#[test]
fn meshes_that_are_accepted(rt: HostRuntime) -> Result<(), AllocError> {
    holds(&rt, rt.alloc(), ACCEPTED)
}

// A tetrahedron with edges of 0.1, with the names and the triangle that Gmsh writes, and lines that end with CR LF.
const DECIMALS: &str = r#"
#crlf t.msh
$MeshFormat
2.2 0 8
$EndMeshFormat
$PhysicalNames
1
3 5 "body"
$EndPhysicalNames
$Nodes
4
1 0 0 0
2 0.09999999999999998 0 0
30 0 0.1 0
4 0 0 1e-01
$EndNodes
$Elements
2
1 2 2 0 1 1 2 30
2 4 2 5 1 1 2 30 4
$EndElements

#file tail
$EndNodes
$Elements
1
2 4 2 5 1 1 2 30 4
$EndElements

#file start
@head
1 0 0 0
2 0.1 0 0
30 0 0.1 0
4 0 0 0.1
@tail

#do check 4 t.msh o
#says 0
mesh nodes 4 tets 1
frame 0 start
#has o_0000.msh
@start

#file f.toml
mesh = "t.msh"
out = "o"
digits = 4
@fall
@material

#do run f.toml
#says 0
mesh nodes 4 tets 1
frame 0 start
frame 1 converged 1
frame 2 converged 1
frame 3 converged 1
#has o_0000.msh
@start
#has o_0001.msh
@head
1 0 0 -0.0002
2 0.1 0 -0.0002
30 0 0.1 -0.0002
4 0 0 0.0998
@tail

#file f.toml
mesh = "t.msh"
out = "o"
digits = 4
snap = "exact"
@fall
@material

#do run f.toml
#says 6
mesh refused: line 11 off grid
"#;

#[test]
fn a_mesh_with_decimals(rt: HostRuntime) -> Result<(), AllocError> {
    holds(&rt, rt.alloc(), DECIMALS)
}

const WORDS: &str = r#"
#file usage
usage: ipc check DIGITS MESH OUT | run SCENE | gen N

#do
#says 2
@usage
#lacks o_0000.msh

#do check 0 t.msh
#says 2
@usage
#lacks o_0000.msh

#do check 10 t.msh o
#says 2
@usage
#lacks o_0000.msh

#do check 0 t.msh o o
#says 2
@usage
#lacks o_0000.msh

#do run
#says 2
@usage
#lacks o_0000.msh

#do runs f.toml
#says 2
@usage
#lacks o_0000.msh

#do gen
#says 2
@usage
#lacks o_0000.msh

#do gen 0
#says 2
@usage
#lacks o_0000.msh

#do gen 04
#says 2
@usage
#lacks o_0000.msh

#do gen 513
#says 2
@usage
#lacks o_0000.msh
"#;

#[test]
fn words_of_no_command(rt: HostRuntime) -> Result<(), AllocError> {
    holds(&rt, rt.alloc(), WORDS)
}

const REFUSED_MESHES: &str = r#"
#file begin
@head
1 0 0 0

#file end
$EndNodes
$Elements
1
7 4 2 0 1 1 2 3 4
$EndElements

#file t.msh
@begin
2 100 0 0
3 0 100 0
4 0 0 -100
@end

#do check 0 t.msh o
#says 7
geometry refused: not positive 7
#lacks o_0000.msh

#do run f.toml
#says 7
geometry refused: not positive 7
#lacks fall_0000.msh

#file t.msh
@begin
2 100 0 0
3 0 100 0
4 50 50 0
@end

#do check 0 t.msh o
#says 7
geometry refused: not positive 7
#lacks o_0000.msh

#do run f.toml
#says 7
geometry refused: not positive 7
#lacks fall_0000.msh

#file t.msh
@begin
2 100 0 0
3 0 100 0
4 0 0 26
@end

#do check 0 t.msh o
#says 7
geometry refused: thin 7
#lacks o_0000.msh

#do run f.toml
#says 7
geometry refused: thin 7
#lacks fall_0000.msh

#file t.msh
@begin
2 16385 0 0
3 0 100 0
4 0 0 100
@end

#do check 0 t.msh o
#says 7
geometry refused: long 7
#lacks o_0000.msh

#do run f.toml
#says 7
geometry refused: long 7
#lacks fall_0000.msh

#file t.msh
@begin
2 16384 0
3 0 100 0
4 0 0 100
@end

#do check 0 t.msh o
#says 6
mesh refused: line 7 fields
#lacks o_0000.msh

#do run f.toml
#says 6
mesh refused: line 7 fields
#lacks fall_0000.msh

#file t.msh
@begin

1 100 0 0
3 0 100 0
x
@end

#do check 0 t.msh o
#says 6
mesh refused: line 8 duplicate node
#lacks o_0000.msh

#do run f.toml
#says 6
mesh refused: line 8 duplicate node
#lacks fall_0000.msh
"#;

#[test]
fn meshes_that_are_refused(rt: HostRuntime) -> Result<(), AllocError> {
    holds(&rt, rt.alloc(), REFUSED_MESHES)
}

const REFUSED_SCENES: &str = r#"
#file keys
@names
frames = 3
budget = 10
dhat = 2

#file f.toml
@keys
kappa = 0
@material

#do run f.toml
#says 5
scene refused: missing key tol
#lacks fall_0000.msh

#file f.toml
@keys
kappa = 0
tol = 0
@material

#do run f.toml
#says 5
scene refused: out of range kappa 0
#lacks fall_0000.msh

#file f.toml
@keys
kappa = 0
tol = 0
kapa = 1
@material

#do run f.toml
#says 5
scene refused: unknown key kapa
#lacks fall_0000.msh

#file f.toml
@keys
kappa = 1
tol = 0
[material]
density = 1
lambda = 0
mu = 1073741825

#do run f.toml
#says 5
scene refused: out of range material.mu 1073741825
#lacks fall_0000.msh

#file f.toml
@keys
kappa = 1
tol = 0
tol = 0
@material

#do run f.toml
#says 5
scene refused: not toml
#lacks fall_0000.msh

#file f.toml
@keys
kappa = 1
tol = true
@material

#do run f.toml
#says 5
scene refused: wrong type tol
#lacks fall_0000.msh
"#;

#[test]
fn scenes_that_are_refused(rt: HostRuntime) -> Result<(), AllocError> {
    holds(&rt, rt.alloc(), REFUSED_SCENES)
}

const FALL: &str = r#"
#do run f.toml
#says 0
mesh nodes 4 tets 1
frame 0 start
frame 1 converged 1
frame 2 converged 1
frame 3 converged 1
#has fall_0000.msh
@t.msh
#has fall_0001.msh
@fall_1
#has fall_0002.msh
@fall_2
#has fall_0003.msh
@fall_3
#lacks fall_0004.msh
"#;

#[test]
fn three_frames_of_fall(rt: HostRuntime) -> Result<(), AllocError> {
    holds(&rt, rt.alloc(), FALL)
}

const NOT_CONVERGED: &str = r#"
#file keys
@names
frames = 1
tol = 0
dhat = 2
kappa = 1

#file f.toml
@keys
budget = 10
gravity = [0, 0, -300]
@material

#do run f.toml
#says 1
mesh nodes 4 tets 1
frame 0 start
frame 1 stalled 1
#has fall_0001.msh
@head
1 0 0 -1
2 100 0 -1
3 0 100 -1
4 0 0 99
@tail

## the first two halvings would leave the box
#file t.msh
@head
1 0 0 -1048573
2 100 0 -1048573
3 0 100 -1048573
4 0 0 -1048473
@tail

#file f.toml
@keys
budget = 1
gravity = [0, 0, -2048]
@material

#do run f.toml
#says 1
mesh nodes 4 tets 1
frame 0 start
frame 1 budget 1
#has fall_0001.msh
@head
1 0 0 -1048575
2 100 0 -1048575
3 0 100 -1048575
4 0 0 -1048475
@tail
"#;

#[test]
fn frames_that_do_not_converge(rt: HostRuntime) -> Result<(), AllocError> {
    holds(&rt, rt.alloc(), NOT_CONVERGED)
}

// A file is read as it was before the command, also where a frame takes its place; other files stay.
const REPLACED: &str = r#"
#file mesh
@t.msh

#file t_0001.msh
@mesh

#file t_0002.msh
old

#file t.msh
old

#file f.toml
mesh = "t_0001.msh"
out = "t"
digits = 0
@fall
@material

#do run f.toml
#says 0
mesh nodes 4 tets 1
frame 0 start
frame 1 converged 1
frame 2 converged 1
frame 3 converged 1
#has t_0000.msh
@mesh
#has t_0001.msh
@fall_1
#has t_0002.msh
@fall_2
#lacks t_0004.msh
#has t.msh
old
#has f.toml
@f.toml
"#;

#[test]
fn files_that_are_replaced_and_files_that_stay(rt: HostRuntime) -> Result<(), AllocError> {
    holds(&rt, rt.alloc(), REPLACED)
}

const NOT_THERE: &str = r#"
#file f.toml
mesh = "u.msh"
out = "fall"
digits = 0
@fall
@material

#do run g\né.toml
#says 3
read fault g???.toml
#failed g\né.toml

#do run f.toml
#says 3
read fault u.msh
#failed u.msh
"#;

#[test]
fn files_that_are_not_there(rt: HostRuntime) -> Result<(), AllocError> {
    holds(&rt, rt.alloc(), NOT_THERE)
}
