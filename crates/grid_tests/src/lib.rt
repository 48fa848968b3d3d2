//! Tests of the crates of cells, planes and geometry, in a file a crate. They stand here and not in those crates since
//! a crate with tests is proved twice. A test says what no clause does: worked examples, and values told by hand.
#![tactic(auto)]

#[cfg(test)]
mod areas;
#[cfg(test)]
mod classes;
#[cfg(test)]
mod clearances;
#[cfg(test)]
mod covers;
#[cfg(test)]
mod frames;
#[cfg(test)]
mod joined;
#[cfg(test)]
mod labels;
#[cfg(test)]
mod many_edges;
#[cfg(test)]
mod places;
#[cfg(test)]
mod segments;
#[cfg(test)]
mod traces;
