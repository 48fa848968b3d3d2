//! Tests of holes, outlines, tiles and levels, on shelves and sinks in memory: boards that were worked out by hand. Anything
//! may be added; nothing is built on this crate.
#![tactic(auto)]

#[cfg(test)]
mod drill_files;
#[cfg(test)]
mod holes;
#[cfg(test)]
mod levels;
#[cfg(test)]
mod outlines;
#[cfg(test)]
mod prefixes;
#[cfg(test)]
mod tiles;
