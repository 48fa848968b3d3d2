// The cells round a cell, and what is written of one.
ghost use Rattle.std.specs.Prelude.{◌≡◌, pos, ◌+ℤ◌, ◌-ℤ◌, ◌≤ℤ◌, negsuc, ◌<◌, ◌≤◌, cond, slice_set};
ghost use Rattle.cell_grid.specs.Place.{IsFrame, InFrame, place_of};
ghost use Rattle.contours.specs.Contour.{IsInner, added_to, moved as moved_of};

use board_base::Cell;
use cell_grid::{Frame, Plane, Workbench};

// The cell some rows north.
#[tactic(auto, unfolding(crate::specs::Contour::moved))]
pub(crate) fn moved(c: Cell, rows: i32) -> Cell
    requires cell { IsInner 1000000002 c }
    requires south { negsuc 0 ≤ℤ rows }
    requires north { rows ≤ℤ pos 1 }
    ensures value { result ≡ moved_of c rows }
{
    Cell {
        i: c.i,
        j: c.j + rows,
    }
}

// The cell to the east.
pub(crate) fn east_of(c: Cell) -> Cell
    requires { IsInner 1000000001 c }
    ensures column { result.i ≡ c.i +ℤ pos 1 }
    ensures row { result.j ≡ c.j }
    ensures inner { IsInner 1000000002 result }
{
    Cell { i: c.i + 1, j: c.j }
}

// The cell west of the one in column `x` and row `y` of the frame.
pub(crate) fn west_of(frame: Frame, x: u32, y: u32) -> Cell
    requires frame { IsFrame frame }
    requires x { x ≤ frame.width }
    requires y { y < frame.height }
    ensures column { result.i ≡ (frame.i0 +ℤ pos x) -ℤ pos 1 }
    ensures row { result.j ≡ frame.j0 +ℤ pos y }
    ensures inner { IsInner 1000000001 result }
{
    Cell {
        i: frame.i0 + x as i32 - 1,
        j: frame.j0 + y as i32,
    }
}

// Writes whether a cell is on the contour, adds it to the visited cells if so, and counts it.
#[inline(always)]
pub(crate) fn trace(bench: &mut Workbench, c: Cell, on: bool) -> u64
    requires { InFrame (bench.old).frame c }
    ensures written { bench.new
        ≡ record bench.old {
          pass = slice_set (bench.old).pass (place_of (bench.old).frame c) on;
          visited = added_to (bench.old).visited (place_of (bench.old).frame c) on;
        } }
    ensures count { result ≡ cond on 1 0 }
{
    bench.set(Plane::Pass, c, on);
    if on {
        bench.set(Plane::Visited, c, true);
        1
    } else {
        0
    }
}
