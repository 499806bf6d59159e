//! All that the program does outside, over any shelf and any console.
//!
//! `top` is the top call, `words` the command line, `commands` what each command does, `scene` and `mesh` the files that
//! are taken, `job` what a command works on, `grids` the digits of coordinates, `blocks` the
//! blocks of the stated stack, `motion` and `frames` the frames that it
//! shows, `frame_acts` the acts that show one, `sums` the sums of coordinates, `refusals` what ends a command before, `acts` the single acts, `numbered` the lines
//! that name tetrahedra and nodes, `frame_files` the names and texts of frames.
#![tactic(auto)]

mod acts;
mod blocks;
mod commands;
mod files;
mod frame_acts;
mod frame_files;
mod frames;
mod grids;
mod job;
mod mesh;
mod motion;
mod numbered;
mod refusals;
mod scene;
mod sums;
mod top;
mod words;

pub use top::{ipc_run, one_plan, plans_are_safe};
