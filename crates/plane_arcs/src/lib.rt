//! Points in the range turned about the origin, and circular arcs as chains of chords, by whole numbers alone.
//! The sines and roots that they rest on are fixed_num's; what a file says of an arc or an angle does not belong
//! here.
#![tactic(auto)]

ghost use Rattle.plane_arcs.specs.Chains.{ChainLaw};

mod arcs;
mod sums;
mod turned;
mod vectors;

pub use arcs::{Arc, ArcError, arc_chain};
pub use turned::{point_at, rotate};
pub use vectors::length_of;

/// A chain begins with the start of its arc and ends with its end, and the last quarter holds that end.
pub fn chain_law()
    ensures { ChainLaw }
{}
