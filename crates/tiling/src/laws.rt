// The laws of programs in tiles: what they are, what their runs do in each tile, and when they run at all.
ghost use Rattle.tiling.specs.Stretches.{CopiesLaw, TiledProgramLaw};
ghost use Rattle.tiling.specs.Alike.{CutsAlikeLaw, LowAlikeLaw, StretchLaw, TileStrokesLaw};
ghost use Rattle.tiling.specs.Laws.{OneShiftLaw, OneTileLaw, ShiftsLaw, SomeShiftsLaw, TileValueLaw, WantedLaw};

use mill_program::{one_strokes_law, run_law, stroke_law};

/// The low moves of the run of a program in tiles are the copies of those of the plain run in every tile, and no others.
pub fn copies_law()
    ensures { CopiesLaw }
{}

/// The run of a program of one tool run in tiles has a stretch for each tile, and each of them, moved back to the
/// first tile, cuts the strokes of the plain run.
pub fn stretch_law()
    ensures { StretchLaw }
{}

/// Moves that cut the same strokes cut what the others cut, and the low ones among them are the same.
pub fn alike_law()
    ensures cuts { CutsAlikeLaw }
    ensures low { LowAlikeLaw }
{
    one_strokes_law();
}

/// The run of a program of one tool run in tiles cuts in each tile what the tool run says, stroke by stroke, and
/// nothing else.
pub fn tile_strokes_law()
    ensures { TileStrokesLaw }
{
    run_law();
    stroke_law();
    stretch_law();
    alike_law();
}

/// What a program in tiles has to cut: the copies of what the plain program has to cut, tile after tile.
pub fn wanted_law()
    ensures { WantedLaw }
{}

/// A program that can run can do so in tiles, where no corner is past the range.
pub fn tiled_program_law()
    ensures { TiledProgramLaw }
{}

/// A program in one tile is the program as it stands.
pub fn one_tile_law()
    ensures { OneTileLaw }
{}

/// Tiles that are counted in cells stand so many nanometres apart; where there are tiles, there are shifts; and the
/// only tile stands where the board does.
pub fn shifts_law()
    ensures cells { ShiftsLaw }
    ensures some { SomeShiftsLaw }
    ensures one { OneShiftLaw }
{}

/// What `tile` answers is the program in tiles, and no corner of it is past the range.
pub fn tile_value_law()
    ensures { TileValueLaw }
{}
