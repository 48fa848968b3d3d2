//! Tests of the lowest crates: numbers, places and shelves, arcs, shapes and apertures. They stand here and not in
//! those crates since a crate with tests is proved twice. Anything may be added; nothing is built on this crate.
#![tactic(auto)]

#[cfg(test)]
mod chains;
#[cfg(test)]
mod decimals;
#[cfg(test)]
mod drawn;
#[cfg(test)]
mod macros;
#[cfg(test)]
mod shapes;
#[cfg(test)]
mod shelves;
#[cfg(test)]
mod templates;
