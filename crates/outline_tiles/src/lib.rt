//! What the program that cuts a board out does in tiles: in each of them what it does on the board alone. How a board
//! is cut out is outline_plan's, and what tiles are is tiling's.
#![tactic(auto)]

ghost use Rattle.outline_tiles.specs.Tiled.{TiledOutlineLaw};

use mill_program::run_law;
use outline_bridges::over_law;
use tiling::{alike_law, stretch_law};

/// The run of the program of an outline in tiles has a stretch for each tile, and in each of them, moved back to the
/// first tile, nothing reaches into the board, each bridge stands, each step of each level of each walk is cut, and
/// nothing else.
pub fn tiled_outline_law()
    ensures { TiledOutlineLaw }
{
    run_law();
    over_law();
    stretch_law();
    alike_law();
}
