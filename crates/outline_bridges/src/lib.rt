//! Bridges that hold a board while its outline is cut: where they stand on chains (specs/Bridges), and cuts
//! that are lifted over them (specs/Steps, specs/Corners). A chain is a list of cells, as chain_walk has it.
#![tactic(auto)]

mod laws;
mod lifts;
mod places;
mod steps;

pub use laws::{cut_law, over_law};
pub use lifts::lift;
pub use places::place;
pub use steps::{Lifting, Step};
