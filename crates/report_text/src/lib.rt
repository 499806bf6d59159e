//! What is said of a simulation, as text: the lines of the console and the traces of frames.
//!
//! - `line`: what there is to say. `lines`: the text of a line. `traces`: the steps of a frame as a text.
//! - `words`: a name, a number or the end of a frame within a line.
#![tactic(auto)]

mod line;
mod lines;
mod traces;
mod words;

pub use line::Line;
pub use lines::line_text;
pub use traces::trace_text;
