//! The command `sample`: the sample board of so many pads is milled over a shelf in memory, and what came of it is told in
//! a line (specs/Sampled). No file is read or written. What is milled how is known to the crates of `mill` alone, and the
//! line is put to the sink by the top call.
#![tactic(auto)]

mod board;
mod command;
mod figures;
mod words;

pub use command::{Sampling, sample};
pub use figures::Summary;
pub use words::read_words;
