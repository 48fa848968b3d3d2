//! Programs over a probed board: what the run of their lines does, with each list of answers that fits the grid. There
//! is no code here, but laws alone; a new kind of line over a grid is added to specs/Moves, and they are proved again.
#![tactic(auto)]

ghost use Rattle.grid_runs.specs.RunLaw.{ExactDepthLaw, GridRunLaw, GridStrokeLaw};
ghost use Rattle.grid_runs.specs.Surface.{SurfaceRangeLaw};

use mill_program::height_law;

/// The lines of a program over a grid run to their end with each list of answers that fits, and make its moves over
/// the surface that these answers give.
pub fn grid_run_law()
    ensures { GridRunLaw }
{
    height_law();
}

/// The run of a program over a grid cuts what its tool runs say, stroke by stroke, with each corner over the surface;
/// no other move is low.
pub fn grid_stroke_law()
    ensures { GridStrokeLaw }
{}

/// Each corner of a program is reached at exactly its height above the surface there, and each end of a move below the
/// safe height, with the spindle turning, stands at such a corner.
pub fn exact_depth_law()
    ensures { ExactDepthLaw }
{}

/// The surface that fitting answers give is no further from zero than the range of the probes, everywhere.
pub fn surface_range_law()
    ensures { SurfaceRangeLaw }
{}
