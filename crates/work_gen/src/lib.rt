//! The stated stack: a scene and a mesh of so many blocks, made without a file.
//!
//! `stack`: the stack as a scene and a mesh. `blocks`: its blocks.
#![tactic(auto)]

mod blocks;
mod stack;

pub use stack::{MOST_BLOCKS, stack_scene};
