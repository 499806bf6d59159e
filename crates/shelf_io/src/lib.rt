//! Named files and a console, as a program sees them.
//!
//! - `shelf`: what a device answers, as two traits. `whole`: reading, writing and saying all, over any device.
//! - `os`: the files and the output of the system, which tell nothing of content.
//! - `mem_shelf`, `mem_sink`: devices in memory, which tell all and fail at chosen calls. `mem_files`, `mem_work` and
//!   `faults` are their parts.
#![tactic(auto)]

mod faults;
mod mem_files;
mod mem_shelf;
mod mem_sink;
mod mem_work;
mod os;
mod shelf;
mod whole;

pub use mem_shelf::MemShelf;
pub use mem_sink::MemSink;
pub use os::{OsShelf, OsSink};
pub use shelf::{Failed, Shelf, Sink};
pub use whole::{ReadErr, read_all, say_all, write_all};
