//! Orders of points: the nearest first, and tours that no reversal of a stretch shortens. What they are
//! stands in specs/Orders and specs/Tours and may not change; how a reversal is found to shorten may.
#![tactic(auto)]

mod nearest;
mod tours;

pub use nearest::{nearest_order, one_order_law};
pub use tours::{Sweeps, improve, one_tour_law};
