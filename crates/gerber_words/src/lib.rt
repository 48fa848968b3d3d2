//! What the commands of a Gerber file say: the words of operations and G codes, and the extended commands between
//! percent signs, each from its text. What is in force, and what is painted, is no matter of this crate. A further
//! command is a variant of `Command`, a row of specs/Words or of specs/Extended, and its reading in the file of its subject.
#![tactic(auto)]

mod commands;
mod definitions;
mod deprecated;
mod extended;
mod numerals;
mod repeats;
mod settings;
mod texts;
mod words;

pub use commands::{
    Act, ApertureText, AxisFormat, Command, Digits, Format, Interpolation, Operation,
};
pub use texts::read_command;
