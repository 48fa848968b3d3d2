//! The command `check`: it reads the layer of a side, a program by whomever it was made and the answers of its probe, and
//! finds whether the program cuts into the side's copper and which islands it leaves joined (specs/Checked). Nothing is
//! written. What is found of a program is known to the crate below; the lines are put to the sink by the top call.
#![tactic(auto)]

mod acceptance;
mod command;
mod contents;
mod inputs;
mod laws;
mod report;
mod words;

pub use acceptance::Accepted;
pub use command::{Joined, check};
pub use laws::{check_law, own_law};
pub use words::{CheckWords, read_words};
