// What Done means, and what is answered to a program that `mill` made.
ghost use Rattle.checking.specs.Sound.{IsSound, IsExact, AfterDone};
ghost use Rattle.mill_outputs.specs.Done.{AfterDone as AfterMill};
ghost use Rattle.mill_outputs.specs.Headline.{OfSides};
ghost use Rattle.checking.specs.Own.{GivesOwn, OwnPasses};

use cell_sets::one_count_law;
use grid_writer::spelling_over_law;
use program_check::{clear_law, own_clear_law, parts_law};
use rs274_sim::reading_law;
use side_levels::levelled_run_law;
use side_runs::{apart_law, own_moves_law, own_side_law};
use side_surfaces::levelled_sides_law;
use tiling::{one_tile_law, shifts_law, tile_value_law, tiled_program_law};

/// What holds after Done of any program that was checked: the lines that were put name all that it leaves joined, and it
/// doesn't bite.
pub fn check_law()
    ensures sound { AfterDone IsSound }
    ensures exact { AfterDone IsExact }
{
    clear_law();
    parts_law();
    reading_law();
}

/// The program of a side that `mill` makes of the same job and image passes, over its grid of probes, if any, and only islands that its report lists are told.
pub fn own_law()
    ensures written { AfterMill (OfSides GivesOwn) }
    ensures passes { OwnPasses }
{
    check_law();
    one_count_law();
    reading_law();
    own_clear_law();
    own_side_law();
    own_moves_law();
    levelled_run_law();
    tile_value_law();
    shifts_law();
    tiled_program_law();
    apart_law();
    one_tile_law();
    levelled_sides_law();
    spelling_over_law();
}
