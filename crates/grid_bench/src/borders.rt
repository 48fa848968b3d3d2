// Whether the clearances of the border of a frame are above a limit.
ghost use Rattle.std.specs.Prelude.{◌≡◌, ◌<◌, ◌+◌, ◌*◌, IsTrue, nat_lt, true, slice_index};
ghost use Rattle.board_base.specs.declared.places.Cell.{Cell};
ghost use Rattle.cell_grid.specs.Cells.{is_above as is_above_of, IsOnBorder};
ghost use Rattle.grid_bench.specs.Borders.{IsRowAbove, IsColumnAbove};

use cell_grid::{Workbench, cell_at};

// Whether the clearance in column `x` and row `y` is above `g`.
fn is_above(bench: &Workbench, g: u64, x: u32, y: u32) -> bool
    requires x { x < (bench.now).frame.width }
    requires y { y < (bench.now).frame.height }
    ensures { result ≡ nat_lt g (slice_index (bench.now).clearances (y * (bench.now).frame.width + x)) }
{
    g < bench.clearance(cell_at(bench.frame(), x, y)) as u64
}

// Whether each clearance of a row is above `g`.
fn is_row_above(bench: &Workbench, g: u64, y: u32) -> bool
    requires { y < (bench.now).frame.height }
    ensures { IsTrue result → IsRowAbove (bench.now).frame (bench.now).clearances g y }
{
    'cells: for x in 0..bench.frame().width {
        if !is_above(bench, g, x, y) {
            return false;
        }
    }
    true
}

// Whether each clearance of a column is above `g`.
fn is_column_above(bench: &Workbench, g: u64, x: u32) -> bool
    requires { x < (bench.now).frame.width }
    ensures { IsTrue result → IsColumnAbove (bench.now).frame (bench.now).clearances g x }
{
    'cells: for y in 0..bench.frame().height {
        if !is_above(bench, g, x, y) {
            return false;
        }
    }
    true
}

/// Whether the grid has a cell, and the clearance of each cell on its border is above `g`.
pub fn is_border_above(bench: &Workbench, g: u64) -> bool
    ensures { IsTrue result → (c : Cell) → IsOnBorder (bench.now).frame c → is_above_of (bench.now).frame (bench.now).clearances g c ≡ true }
{
    let frame = bench.frame();
    if frame.width == 0 {
        return false;
    }
    if frame.height == 0 {
        return false;
    }
    if !is_column_above(bench, g, 0) {
        return false;
    }
    if !is_column_above(bench, g, frame.width - 1) {
        return false;
    }
    if !is_row_above(bench, g, 0) {
        return false;
    }
    is_row_above(bench, g, frame.height - 1)
}
