//! Worked cases of surfaces: meshes that have none, and bodies that meet at the start.

use crate::transcript::holds;
use std::alloc::AllocError;

// A second tetrahedron beside the first, which has corners at 0 and at 100 along each axis.
const SECOND_BODY: &str = r#"
#file first
$MeshFormat
2.2 0 8
$EndMeshFormat
$Nodes
8
1 0 0 0
2 100 0 0
3 0 100 0
4 0 0 100

#file elements
$EndNodes
$Elements
2
1 4 2 0 1 1 2 3 4
2 4 2 0 1 5 6 7 8
$EndElements

#file accepted
mesh nodes 8 tets 2
frame 0 start

## above, corner on corner
#file t.msh
@first
5 0 0 100
6 100 0 100
7 0 100 100
8 0 0 200
@elements

#do check 0 t.msh o
#says 7
geometry refused: meets VE 4 / 5 6

## one grid unit higher
#file t.msh
@first
5 0 0 101
6 100 0 101
7 0 100 101
8 0 0 201
@elements

#do check 0 t.msh o
#says 0
@accepted

## beside, with a corner on an edge
#file t.msh
@first
5 50 0 0
6 50 -100 0
7 150 -100 0
8 50 -100 100
@elements

#do check 0 t.msh o
#says 7
geometry refused: meets VE 5 / 1 2

## one grid unit off
#file t.msh
@first
5 50 -1 0
6 50 -101 0
7 150 -101 0
8 50 -101 100
@elements

#do check 0 t.msh o
#says 0
@accepted

## below, with a corner in a face
#file t.msh
@first
5 20 20 0
6 20 120 -100
7 120 20 -100
8 20 20 -100
@elements

#do check 0 t.msh o
#says 7
geometry refused: meets VT 5 / 1 2 3

## one grid unit lower
#file t.msh
@first
5 20 20 -1
6 20 120 -101
7 120 20 -101
8 20 20 -101
@elements

#do check 0 t.msh o
#says 0
@accepted

## through the first one
#file t.msh
@first
5 20 20 -50
6 60 20 -50
7 20 60 -50
8 20 20 150
@elements

#do check 0 t.msh o
#says 7
geometry refused: meets ET 5 8 / 1 2 3
"#;

#[test]
fn bodies_that_meet_and_bodies_that_do_not(rt: HostRuntime) -> Result<(), AllocError> {
    holds(&rt, rt.alloc(), SECOND_BODY)
}

const NO_SURFACE: &str = r#"
#file nodes
$MeshFormat
2.2 0 8
$EndMeshFormat
$Nodes
6
1 0 0 0
2 100 0 0
3 0 100 0
4 0 0 100
5 0 0 -100
6 50 50 100
$EndNodes
$Elements

#file t.msh
@nodes
3
11 4 2 0 1 1 2 3 4
12 4 2 0 1 1 3 2 5
13 4 2 0 1 1 2 3 6
$EndElements

#do check 0 t.msh o
#says 6
surface refused: face thrice 11 12 13
#lacks o_0000.msh

#file t.msh
@nodes
2
11 4 2 0 1 1 2 3 4
12 4 2 0 1 1 2 3 5
$EndElements

#do check 0 t.msh o
#says 6
surface refused: face same 11 12
#lacks o_0000.msh
"#;

#[test]
fn meshes_that_have_no_surface(rt: HostRuntime) -> Result<(), AllocError> {
    holds(&rt, rt.alloc(), NO_SURFACE)
}
