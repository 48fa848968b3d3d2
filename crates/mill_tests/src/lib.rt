//! Tests of sides that are milled, on shelves and sinks in memory: what no clause says of words and boards that were
//! worked out by hand. They stand here and not in the crates that they call, which so are proved once. Anything may be
//! added; nothing is built on this crate.
#![tactic(auto)]

#[cfg(test)]
mod faults;
#[cfg(test)]
mod lines;
#[cfg(test)]
mod sides;
#[cfg(test)]
mod whole_boards;
#[cfg(test)]
mod words;
