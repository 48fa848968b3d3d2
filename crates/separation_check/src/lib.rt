//! What a set of visited centres sweeps, the classes of cells that it leaves, and which islands stand
//! in one class. The definitions of chains, islands and groups stand in cell_sets (specs/Chains,
//! specs/Groups), and no file here may repeat them. How groups are found may change, their order not.
#![tactic(auto)]

mod grouping;
mod labels;
mod laws;
mod meetings;
mod sweeps;

pub use grouping::{Group, groups};
pub use labels::{LabelFault, check_labels, relabel};
pub use laws::{inner_law, pair_law};
pub use sweeps::mark_swept;
