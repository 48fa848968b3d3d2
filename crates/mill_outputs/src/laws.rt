// What Done means, and that what is made is one.
ghost use Rattle.mill_outputs.specs.Done.{AfterDone};
ghost use Rattle.mill_outputs.specs.Headline.{OfSides, IsTextOf, LevelsFront, NeverBites, PassesVisited, SweepsVisited, FollowsWalks, Clears, Counts, Separates, OfHoles, DrillsHoles, OfOutline, CutsBoardOut, LeavesBridges};
ghost use Rattle.mill_outputs.specs.Written.{OneOfEach};

use drill_plan::{few_diameters_law, limits_law, one_plan_law};
use drill_program::tiled_holes_law;
use grid_writer::spelling_over_law;
use one_programs::{one_outline_law, one_side_law};
use outline_tiles::tiled_outline_law;
use side_runs::{apart_law, tiled_side_law, tiled_strokes_law};
use side_surfaces::{flat_side_law, levelled_sides_law};
use tiling::{one_tile_law, shifts_law, tile_value_law, tiled_program_law};

/// Each image has one program, and each drill file one drill list.
pub fn one_of_each_law()
    ensures { OneOfEach }
{
    one_side_law();
    one_plan_law();
    one_outline_law();
}

/// What was written for each side, for the holes and for the outline after Done, from the bytes read to the bytes written.
pub fn headline_law()
    ensures words { AfterDone (OfSides IsTextOf) }
    ensures levelled { AfterDone LevelsFront }
    ensures no_bite { AfterDone (OfSides NeverBites) }
    ensures visited { AfterDone (OfSides PassesVisited) }
    ensures swept { AfterDone (OfSides SweepsVisited) }
    ensures walks { AfterDone (OfSides FollowsWalks) }
    ensures clearing { AfterDone (OfSides Clears) }
    ensures counts { AfterDone (OfSides Counts) }
    ensures separates { AfterDone (OfSides Separates) }
    ensures holes { AfterDone (OfHoles DrillsHoles) }
    ensures outline { AfterDone (OfOutline CutsBoardOut) }
    ensures bridges { AfterDone (OfOutline LeavesBridges) }
{
    few_diameters_law();
    limits_law();
    tiled_holes_law();
    tiled_side_law();
    tiled_strokes_law();
    tiled_outline_law();
    tile_value_law();
    shifts_law();
    apart_law();
    tiled_program_law();
    one_tile_law();
    flat_side_law();
    levelled_sides_law();
    spelling_over_law();
}
