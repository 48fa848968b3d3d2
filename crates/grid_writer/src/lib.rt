//! The text of a program with or without a grid of probes: its probes, and the heights of its cuts over the surface.
//! Bytes are written straight from the program. A new kind of line is added to the lines of programs first, and then
//! here to src/program.rt.
#![tactic(auto)]

mod laws;
mod parts;
mod probing;
mod program;

pub use laws::{plain_text_law, spelling_over_law};
pub use program::write_over;
