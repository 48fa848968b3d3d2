//! Tests of readers, writers, programs and orders, one file for each crate that they call: what no clause says of a
//! text that was worked out by hand. They stand here and not in those crates, which so are proved once. Anything may
//! be added; nothing is built on this crate.
#![tactic(auto)]

#[cfg(test)]
mod image;
#[cfg(test)]
mod jobs;
#[cfg(test)]
mod lexer;
#[cfg(test)]
mod macros;
#[cfg(test)]
mod programs;
#[cfg(test)]
mod reading;
#[cfg(test)]
mod runs;
#[cfg(test)]
mod sample_boards;
