// The eight ways from a cell to its neighbours.
ghost use Rattle.std.specs.Prelude.{◌≡◌, ◌<◌, false, pos, negsuc, ◌≤ℤ◌, IfSome, IsNone};
ghost use Rattle.cell_grid.specs.Place.{IsFrame, InFrame};
ghost use Rattle.cell_grid.specs.Cells.{in_frame};
ghost use Rattle.islands.specs.Ways.{east_of, north_of, neighbour_of};

use board_base::Cell;
use cell_grid::{Frame, is_in_frame};

// How far a way leads to the east.
#[inline(always)]
fn east(way: u32) -> i32
    requires { way < 8 }
    ensures value { result ≡ east_of way }
    ensures west { negsuc 0 ≤ℤ result }
    ensures east { result ≤ℤ pos 1 }
{
    match way {
        0 => 1,
        1 => 1,
        2 => 0,
        3 => -1,
        4 => -1,
        5 => -1,
        6 => 0,
        _ => 1,
    }
}

// How far a way leads to the north.
#[inline(always)]
fn north(way: u32) -> i32
    requires { way < 8 }
    ensures value { result ≡ north_of way }
    ensures south { negsuc 0 ≤ℤ result }
    ensures north { result ≤ℤ pos 1 }
{
    match way {
        0 => 0,
        1 => 1,
        2 => 1,
        3 => 1,
        4 => 0,
        _ => -1,
    }
}

// The cell next to a cell of the frame, in one of the eight ways.
#[tactic(auto, unfolding(crate::specs::Ways::neighbour_of))]
#[inline(always)]
fn step(frame: Frame, c: Cell, way: u32) -> Cell
    requires frame { IsFrame frame }
    requires cell { InFrame frame c }
    requires way { way < 8 }
    ensures { result ≡ neighbour_of c way }
{
    Cell {
        i: c.i + east(way),
        j: c.j + north(way),
    }
}

/// The neighbour of a cell in one of the eight ways E, NE, N, NW, W, SW, S, SE, counted from 0, where
/// it is in the frame.
#[inline(always)]
pub fn neighbour(frame: Frame, c: Cell, way: u32) -> Option<Cell>
    requires frame { IsFrame frame }
    requires cell { InFrame frame c }
    requires way { way < 8 }
    ensures some { IfSome result (λ b. (b ≡ neighbour_of c way) × InFrame frame b) }
    ensures none { IsNone result → in_frame frame (neighbour_of c way) ≡ false }
{
    let b = step(frame, c, way);
    if is_in_frame(frame, b) { Some(b) } else { None }
}
