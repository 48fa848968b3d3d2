// What the run of a side's program does.
ghost use Rattle.side_runs.specs.OwnSide.{SideTestsLaw, OwnSideLaw, OwnMovesLaw, OwnCheckLaw};
ghost use Rattle.side_runs.specs.Sides.{TiledSideLaw};
ghost use Rattle.side_runs.specs.SideStrokes.{TiledStrokesLaw};
ghost use Rattle.side_runs.specs.TileStretches.{TileStretchesLaw};
ghost use Rattle.side_runs.specs.TiledSide.{TiledValueLaw};
ghost use Rattle.side_runs.specs.Alone.{AloneLaw, ApartLaw};

use tiling::{
    alike_law, copies_law, one_tile_law, shifts_law, stretch_law, tile_value_law,
    tiled_program_law, wanted_law,
};

/// The cells that a side's program may visit and those that it visits have tests, and the latter part the former.
pub fn side_tests_law()
    ensures { SideTestsLaw }
{}

/// The program of a side goes along visited cells and passes each of them, and stays in its frame.
pub fn own_side_law()
    ensures { OwnSideLaw }
{}

/// Moves that are a side's own pass its check, and what is printed of them is listed by the plan.
pub fn own_moves_law()
    ensures { OwnMovesLaw }
{}

/// So it is with the program of a side.
pub fn own_check_law()
    ensures { OwnCheckLaw }
{}

/// The program of a side in tiles mills each copy of the board, and parts the copies.
pub fn tiled_side_law()
    ensures { TiledSideLaw }
{
    copies_law();
}

/// The program of a side in tiles goes along the walks in each tile, and cuts nothing else.
pub fn tiled_strokes_law()
    ensures { TiledStrokesLaw }
{
    wanted_law();
}

/// Each tile's stretch of that run mills the board, once it is moved back.
pub fn tile_stretches_law()
    ensures { TileStretchesLaw }
{
    stretch_law();
    alike_law();
}

/// In one tile all of this is what it is of the board.
pub fn alone_law()
    ensures { AloneLaw }
{
    one_tile_law();
}

/// Tiles in rows are apart where the steps are no smaller than the frame.
pub fn apart_law()
    ensures { ApartLaw }
{}

/// What `tile` answers for the program of a side, where the steps are no smaller than the frame.
pub fn tiled_value_law()
    ensures { TiledValueLaw }
{
    tile_value_law();
    shifts_law();
    tiled_program_law();
    apart_law();
    tiled_side_law();
    tiled_strokes_law();
    tile_stretches_law();
}
