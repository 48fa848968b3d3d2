// The clearances by comparing each cell with each kept cell.
ghost use Rattle.std.specs.Prelude.{◌≡◌, ◌<◌};
ghost use Rattle.board_base.specs.declared.places.Cell.{Cell};
ghost use Rattle.cell_grid.specs.Place.{InFrame};
ghost use Rattle.cell_grid.specs.Cells.{in_plane, number_in};
ghost use Rattle.cell_sets.specs.Clearance.{IsClearance};
ghost use Rattle.centre_field.specs.Distances.{IsLeastSquare};

use crate::gaps::square_gap;
use cell_grid::{Plane, Workbench, cell_at};

// The least squared index distance from the cell in column `x` and row `y` to a kept cell, or
// `u32::MAX` where no cell is kept.
fn plain_least(bench: &Workbench, x: u32, y: u32) -> u32
    requires x { x < (bench.now).frame.width }
    requires y { y < (bench.now).frame.height }
    ensures { IsLeastSquare bench.now x y result }
{
    let frame = bench.frame();
    let mut least = u32::MAX;
    'rows: for b in 0..frame.height {
        'cells: for a in 0..frame.width {
            if bench.get(Plane::Kept, cell_at(frame, a, b)) {
                let square = (square_gap(x, a) + square_gap(y, b)) as u32;
                least = least.min(square);
            }
        }
    }
    least
}

/// Stores for each cell of the frame the least squared index distance to a kept cell, or 4,294,967,295
/// where no cell is kept, by comparing each cell with each kept cell: the slow program that says what
/// a clearance is.
pub fn plain_clearance(bench: &mut Workbench)
    ensures rest { bench.new ≡ record bench.old { clearances = (bench.new).clearances } }
    ensures least { (c : Cell) → InFrame (bench.old).frame c
        → IsClearance (in_plane (bench.old).frame (bench.old).kept) c
        (number_in (bench.old).frame 4294967295 (bench.new).clearances c) }
{
    let frame = bench.frame();
    'rows: for y in 0..frame.height {
        'cells: for x in 0..frame.width {
            let least = plain_least(bench, x, y);
            bench.set_clearance(cell_at(frame, x, y), least);
        }
    }
}
