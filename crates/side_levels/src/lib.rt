//! What the run of a side's program over a probed board does: the levelled program goes along the same cells, at the
//! depth of work over the surface. All of it is laws over definitions of the crates below: no code belongs here.
#![tactic(auto)]

mod laws;

pub use laws::{lattice_law, levelled_run_law, levelled_side_law, probed_law};
