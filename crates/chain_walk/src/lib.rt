//! The walks along the cells of a plane: one list of cells for each component, and the corners of such a
//! list; and the runs of its cells along their rows. What a walk is stands in specs/Walk, what a run is in
//! specs/RowRuns, and neither may change; how the way back is kept, and how the cells are gone over, may.
#![tactic(auto)]

mod corners;
mod rows;
mod walks;

use board_base::{Cell, Items};

/// The cells that a walk or a run goes through, in their order.
pub type Chain = Items<Cell>;

pub use corners::{corner_law, merge_runs, turn_law};
pub use rows::{one_row_runs_law, row_run_law, row_runs};
pub use walks::{chains, one_walk_law, walk_law};
