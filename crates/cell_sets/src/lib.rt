//! Sets of cells on the plane without border: chains, islands, groups, clearance, contour, sweep and
//! count, and the laws of milling between islands. There is no code here, and no frame: a definition
//! that names the grid belongs into cell_grid. All files of proofs/ are for the crates above.
#![tactic(auto)]

ghost use Rattle.cell_sets.specs.Barrier.{Barrier, GroupsPast};
ghost use Rattle.cell_sets.specs.Reached.{Sweep, ScaledSweep};
ghost use Rattle.cell_sets.specs.Islands.{OneCount};
ghost use Rattle.cell_sets.specs.Cleared.{Clearing};
ghost use Rattle.cell_sets.specs.Passes.{Passes, PassesPart, PassesGroup, RowsClear};

/// A chain from a kept cell that the visited cells let through is one that all allowed cells let through.
pub fn barrier_law()
    ensures { Barrier }
{}

/// The groups past the visited cells are those past all allowed cells.
pub fn groups_law()
    ensures { GroupsPast }
{}

/// Each point of a swept cell is at most the radius from the visited centre.
pub fn sweep_law()
    ensures { Sweep }
{}

/// The same with all lengths in a smaller unit.
pub fn scaled_sweep_law()
    ensures { ScaledSweep }
{}

/// The islands are as many by one numbering as by another.
pub fn one_count_law()
    ensures { OneCount }
{}

/// The visited cells of the contour and the clearing rows sweep each cell of the box that all allowed cells sweep.
pub fn clearing_law()
    ensures { Clearing }
{}

/// The visited cells of several passes and the clearing rows are allowed, and part what all allowed cells part.
pub fn passes_law()
    ensures { Passes }
{}

/// A chain from a kept cell that the visited cells of the passes and rows let through is one that all allowed
/// cells let through.
pub fn passes_part_law()
    ensures { PassesPart }
{}

/// The groups past the visited cells of the passes and rows are those past all allowed cells.
pub fn passes_group_law()
    ensures { PassesGroup }
{}

/// With clearing rows at the stride of the job the visited cells sweep each cell of the box that all allowed
/// cells sweep.
pub fn rows_clear_law()
    ensures { RowsClear }
{}
