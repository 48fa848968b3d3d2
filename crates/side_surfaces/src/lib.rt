//! What the run of a side's program does, over each surface that the probes may find or over none: each copy of the
//! board is milled as the board alone would be, at the depth of work above the surface. All of it is laws over
//! definitions of the crates below: no code belongs here.
#![tactic(auto)]

ghost use Rattle.side_surfaces.specs.Flat.{FlatSideLaw};
ghost use Rattle.side_surfaces.specs.Levelled.{LevelledSidesLaw};

use grid_runs::grid_stroke_law;
use program_check::flat_law;
use side_levels::{lattice_law, levelled_run_law, probed_law};
use side_runs::alone_law;

/// The levelled program of a side mills it over each surface.
pub fn levelled_sides_law()
    ensures { LevelledSidesLaw }
{
    alone_law();
    lattice_law();
    probed_law();
    levelled_run_law();
    grid_stroke_law();
}

/// Without a grid all of this is what it is of the program as it stands.
pub fn flat_side_law()
    ensures { FlatSideLaw }
{
    flat_law();
}
