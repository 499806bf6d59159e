//! Worked cases of motion: a body that flies towards another, one that hangs and springs back, and one that slides.

use crate::transcript::holds;
use std::alloc::AllocError;

// A tetrahedron is fixed, with corners at 0 and at 100 along each axis. A second one starts ten grid units before the first
// one's face, with a corner ahead. Each step is halved until it ends before the face, the last one to a single grid unit.
// Whole halvings of what is left then pass through the face, or end on it.
const FLIGHTS: &str = r#"
#file first
$MeshFormat
2.2 0 8
$EndMeshFormat
$Nodes
8
1 0 0 0
2 100 0 0
3 0 100 0
4 0 0 100

#file elements
$EndNodes
$Elements
2
1 4 2 1 1 1 2 3 4
2 4 2 2 2 5 6 7 8
$EndElements

#file before
@first
5 -10 20 20
6 -110 120 20
7 -110 -80 20
8 -110 20 120
@elements

#file close
@first
5 -1 20 20
6 -101 120 20
7 -101 -80 20
8 -101 20 120
@elements

#file past
@first
5 -1 20 620
6 -101 120 620
7 -101 -80 620
8 -101 20 720
@elements

#file scene
mesh = "t.msh"
out = "o"
digits = 0
tol = 0
dhat = 2
kappa = 1
frames = 2
budget = 10
@material
[[part]]
tag = 1
fixed = true
[[part]]
tag = 2

## towards the face
#file t.msh
@before

#file f.toml
@scene
velocity = [64, 0, 0]

#do run f.toml
#says 1
mesh nodes 8 tets 2
frame 0 start
frame 1 stalled 2
frame 2 stalled 0
#has o_0002.msh
@close

## to the other side within one frame
#file t.msh
@before

#file f.toml
@scene
velocity = [400, 0, 0]

#do run f.toml
#says 1
mesh nodes 8 tets 2
frame 0 start
frame 1 stalled 2
frame 2 stalled 0
#has o_0002.msh
@close

## along the face, a grid unit away from it
#file t.msh
@close

#file f.toml
@scene
velocity = [0, 0, 300]

#do run f.toml
#says 0
mesh nodes 8 tets 2
frame 0 start
frame 1 converged 1
frame 2 converged 1
#has o_0002.msh
@past
"#;

#[test]
fn bodies_that_fly_at_one_another_stop_before_they_meet(rt: HostRuntime) -> Result<(), AllocError> {
    holds(&rt, rt.alloc(), FLIGHTS)
}

// A soft tetrahedron hangs on the fixed one by a face. The numbers are those of a short program in Python.
const SPRING: &str = r#"
#file first
$MeshFormat
2.2 0 8
$EndMeshFormat
$Nodes
5
1 0 0 0
2 100 0 0
3 0 100 0
4 0 0 100

#file elements
$EndNodes
$Elements
2
1 4 2 1 1 1 2 3 4
2 4 2 2 2 2 3 4 5
$EndElements

#file t.msh
@first
5 100 100 100
@elements

#file f.toml
mesh = "t.msh"
out = "o"
digits = 0
tol = 0
dhat = 2
kappa = 1
frames = 6
budget = 40
gravity = [0, 0, -5120]
[material]
density = 1
mu = 2000
lambda = 2000
[[part]]
tag = 1
fixed = true

#do run f.toml
#says 1
mesh nodes 5 tets 2
frame 0 start
frame 1 stalled 1
frame 2 stalled 1
frame 3 stalled 1
frame 4 stalled 2
frame 5 stalled 1
frame 6 stalled 1
#has o_0001.msh
@first
5 102 102 89
@elements
#has o_0004.msh
@first
5 111 111 66
@elements
#has o_0006.msh
@first
5 110 110 70
@elements
"#;

#[test]
fn a_soft_body_springs_back(rt: HostRuntime) -> Result<(), AllocError> {
    holds(&rt, rt.alloc(), SPRING)
}

// A soft tetrahedron is thrown along the upper face of a larger one, which is fixed, and pressed on it by its weight.
// Without friction it goes on, with a coefficient of a half it comes to rest after 74 grid units, with one of 2 after 2. The
// numbers are those of a program in Python.
const SLIDES: &str = r#"
#file plate
$MeshFormat
2.2 0 8
$EndMeshFormat
$Nodes
8
1 0 0 0
2 0 600 0
3 600 0 0
4 0 0 -600

#file elements
$EndNodes
$Elements
2
1 4 2 1 1 1 2 3 4
2 4 2 2 2 5 6 7 8
$EndElements

#file t.msh
@plate
5 100 100 6
6 200 100 6
7 100 200 6
8 100 100 106
@elements

#file keys
mesh = "t.msh"
out = "o"
digits = 0
frames = 6
budget = 40
tol = 0
gravity = [0, 0, -1024]
dhat = 12
kappa = 4000

#file parts
[material]
density = 1
mu = 20000
lambda = 20000
[[part]]
tag = 1
fixed = true
[[part]]
tag = 2
velocity = [30, 0, 0]

## no friction
#file f.toml
@keys
@parts

#do run f.toml
#says 1
mesh nodes 8 tets 2
frame 0 start
frame 1 stalled 1
frame 2 stalled 1
frame 3 stalled 1
frame 4 stalled 1
frame 5 stalled 1
frame 6 stalled 2
#has o_0006.msh
@plate
5 280 100 9
6 380 100 9
7 280 200 9
8 280 100 109
@elements

## a coefficient of a half
#file f.toml
@keys
friction = 128
@parts

#do run f.toml
#says 1
mesh nodes 8 tets 2
frame 0 start
frame 1 stalled 9
frame 2 stalled 4
frame 3 stalled 4
frame 4 stalled 4
frame 5 stalled 9
frame 6 stalled 2
#has o_0006.msh
@plate
5 174 100 13
6 274 101 7
7 173 199 8
8 180 104 113
@elements

## a coefficient of 2
#file f.toml
@keys
friction = 512
slip = 1
@parts

#do run f.toml
#says 1
mesh nodes 8 tets 2
frame 0 start
frame 1 stalled 5
frame 2 stalled 1
frame 3 stalled 1
frame 4 stalled 0
frame 5 stalled 0
frame 6 stalled 0
#has o_0006.msh
@plate
5 102 100 8
6 201 100 6
7 101 200 6
8 104 102 108
@elements
"#;

#[test]
fn friction_ends_a_slide(rt: HostRuntime) -> Result<(), AllocError> {
    holds(&rt, rt.alloc(), SLIDES)
}
