// What the check of a program stands on.
ghost use Rattle.program_check.specs.Hits.{OneHit};
ghost use Rattle.program_check.specs.Sound.{ClearLaw, MarkLaw, PartsLaw, UnitLaw};
ghost use Rattle.program_check.specs.Planes.{PlaneLaw, FlatLaw};
ghost use Rattle.program_check.specs.Whole.{WholeLaw};
ghost use Rattle.program_check.specs.Scan.{RisingLaw, ScanLaw};
ghost use Rattle.program_check.specs.Own.{AlongLaw, OwnClearLaw, OwnMarkLaw, OwnChainLaw, OwnFrameLaw, OwnLaw};

/// One line and one cell at most are named as hit.
pub fn one_hit_law()
    ensures { OneHit }
{}

/// Where no kept cell is hit, the run doesn't bite.
pub fn clear_law()
    ensures { ClearLaw }
{}

/// Marked cells are wholly swept.
pub fn mark_law()
    ensures { MarkLaw }
{}

/// The groups past the marks have each pair of islands that cells not wholly swept join.
pub fn parts_law()
    ensures { PartsLaw }
{}

/// Near in the units of the machine is near in nanometres.
pub fn unit_law()
    ensures { UnitLaw }
{}

/// What is near a move along cells is near one of their centres, by half a diagonal more.
pub fn along_law()
    ensures { AlongLaw }
{}

/// Moves that follow allowed cells hit no kept cell.
pub fn own_clear_law()
    ensures { OwnClearLaw }
{}

/// Each cell that visited cells sweep is near enough to a move that passes them.
pub fn own_mark_law()
    ensures { OwnMarkLaw }
{}

/// A chain of unmarked cells from a kept cell is one past all that the allowed cells sweep.
pub fn own_chain_law()
    ensures { OwnChainLaw }
{}

/// A program that follows allowed cells and passes the visited ones passes the check, and the groups that are
/// printed have only pairs that are listed.
pub fn own_law()
    ensures { OwnLaw }
{}

/// The moves of a run are of rising lines.
pub fn rising_law()
    ensures { RisingLaw }
{}

/// The first move that hits a cell, and the first cell that it hits, are named.
pub fn scan_law()
    ensures { ScanLaw }
{}

/// The groups of the cells that a grid leaves free are those that are printed.
pub fn plane_law()
    ensures { PlaneLaw }
{}

/// Over a flat surface a move is deep by its heights alone.
pub fn flat_law()
    ensures { FlatLaw }
{}

/// The moves of a run begin and end at whole nanometres of X and Y.
pub fn whole_law()
    ensures { WholeLaw }
{}

/// Contours lie in the frame.
pub fn own_frame_law()
    ensures { OwnFrameLaw }
{}
