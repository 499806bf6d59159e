//! The blocks of the stack.
ghost use Rattle.std.specs.Prelude.{◌≡◌, ◌<◌, ◌++◌, ◌*◌, ◌^◌, ◌+ℤ◌, IfOk, OnOk, All, pos};
ghost use Rattle.std.specs.List.{flat_map, range_with_len};
ghost use Rattle.space3.specs.Box.{IsInTheBox};
ghost use Rattle.space3.specs.Vectors.{sum_of, vector};
ghost use Rattle.whole_laws.specs.Ranges.{IsFrom};
ghost use Rattle.work_gen.specs.Stack.{block_corner, block_places, block_tet, block_tets};

use space3::{Tags, Tet, V3};
use std::alloc::{AllocError, Global};

const EDGE: i64 = 100;

const CUBE_TETS: [[u32; 4]; 6] = [
    [0, 1, 3, 7],
    [0, 5, 1, 7],
    [0, 3, 2, 7],
    [0, 2, 6, 7],
    [0, 4, 5, 7],
    [0, 6, 4, 7],
];

/// The numbers of the nodes, eight for each block, from 1 on.
pub(crate) fn node_numbers(alloc: Global, blocks: u32) -> Result<Vec<u32>, AllocError>
    requires { blocks < 1024 }
    ensures { IfOk result (λ made. made.items ≡ range_with_len 1 (8 * blocks)) }
{
    let mut made = Vec::with_capacity(alloc, 8 * blocks as usize)?;
    for node in 0..8 * blocks {
        made.push(node + 1)?;
    }
    Ok(made)
}

/// The places of the nodes.
pub(crate) fn places(alloc: Global, blocks: u32) -> Result<Vec<V3>, AllocError>
    requires { blocks < 1024 }
    ensures places { IfOk result (λ made. made.items ≡ flat_map block_places (range_with_len 0 blocks)) }
    ensures in_box { IfOk result (λ made. All IsInTheBox made.items) }
{
    let mut made = Vec::with_capacity(alloc, 8 * blocks as usize)?;
    for block in 0..blocks {
        made.extend_from_slice(&block_places(block))?;
    }
    Ok(made)
}

// The places of a block's nodes.
fn block_places(block: u32) -> [V3; 8]
    requires { block < 1024 }
    ensures places { result ≡ block_places block }
    ensures in_box { All IsInTheBox result }
{
    [
        corner(block, 0, 0, 0),
        corner(block, EDGE, 0, 0),
        corner(block, 0, EDGE, 0),
        corner(block, EDGE, EDGE, 0),
        corner(block, 0, 0, EDGE),
        corner(block, EDGE, 0, EDGE),
        corner(block, 0, EDGE, EDGE),
        corner(block, EDGE, EDGE, EDGE),
    ]
}

// A place of a block, from its least corner.
fn corner(block: u32, x: i64, y: i64, z: i64) -> V3
    requires low { block < 1024 }
    requires x { IsFrom (pos 0) (pos 100) x }
    requires y { IsFrom (pos 0) (pos 100) y }
    requires z { IsFrom (pos 0) (pos 100) z }
    ensures place { result ≡ sum_of (block_corner block) (vector x y z) }
    ensures in_box { IsInTheBox result }
{
    V3 {
        x: along(10 * (block % 2), x),
        y,
        z: along(110 * block, z),
    }
}

fn along(start: u32, offset: i64) -> i64
    requires start { start < 2 ^ 20 }
    requires offset { IsFrom (pos 0) (pos 100) offset }
    ensures { result ≡ pos start +ℤ offset }
{
    i64::from(start) + offset
}

/// The tetrahedra.
pub(crate) fn tets(alloc: Global, blocks: u32) -> Result<Vec<Tet>, AllocError>
    requires { blocks < 1024 }
    ensures { IfOk result (λ made. made.items ≡ flat_map block_tets (range_with_len 0 blocks)) }
{
    let mut made = Vec::with_capacity(alloc, 6 * blocks as usize)?;
    for block in 0..blocks {
        push_block(alloc, &mut made, block)?;
    }
    Ok(made)
}

// Adds the tetrahedra of a block.
fn push_block(alloc: Global, made: &mut Vec<Tet>, block: u32) -> Result<(), AllocError>
    requires { block < 1024 }
    ensures { OnOk result (made.new.items ≡ made.old.items ++ block_tets block) }
{
    for tet in 0..6 {
        made.push(block_tet(alloc, block, tet)?)?;
    }
    Ok(())
}

// A tetrahedron of a block.
fn block_tet(alloc: Global, block: u32, tet: u32) -> Result<Tet, AllocError>
    requires block { block < 1024 }
    requires tet { tet < 6 }
    ensures { IfOk result (λ made. made ≡ block_tet block tet) }
{
    let tag = if block == 0 { 1 } else { 2 };
    let tags = Tags::of_slice(alloc, &[tag, block as i32 + 1])?;
    let corners = CUBE_TETS[tet as usize];
    let first = 8 * block;
    Ok(Tet {
        number: 6 * block + tet + 1,
        nodes: [
            first + corners[0],
            first + corners[1],
            first + corners[2],
            first + corners[3],
        ],
        tags,
    })
}
