// What the levelled program of a side is, and what its run does.
ghost use Rattle.side_levels.specs.Lattices.{LatticeLaw};
ghost use Rattle.side_levels.specs.Probed.{ProbedLaw};
ghost use Rattle.side_levels.specs.LevelledSide.{LevelledSideLaw, LevelledRunLaw};

use grid_runs::grid_run_law;

/// The program of a side may be levelled, and goes then along the same cells.
pub fn lattice_law()
    ensures { LatticeLaw }
{}

/// The frame of a side may be probed, and the levelled program can be run over the grid of probes.
pub fn probed_law()
    ensures { ProbedLaw }
{}

/// Over each surface that answers within the range give, the moves of the levelled program mill the side.
pub fn levelled_side_law()
    ensures { LevelledSideLaw }
{}

/// The lines of the levelled program run to their end, and make such moves.
pub fn levelled_run_law()
    ensures { LevelledRunLaw }
{
    grid_run_law();
}
