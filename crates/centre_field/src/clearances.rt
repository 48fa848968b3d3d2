// The clearances by two passes: along the columns, then along each row.
ghost use Rattle.std.specs.Prelude.{◌≡◌, ◌<◌, ℕ};
ghost use Rattle.board_base.specs.declared.places.Cell.{Cell};
ghost use Rattle.cell_grid.specs.Place.{InFrame};
ghost use Rattle.cell_grid.specs.Cells.{in_plane, number_in};
ghost use Rattle.cell_sets.specs.Clearance.{IsClearance};

use crate::columns::sweep_columns;
use crate::rows::finish_rows;
use cell_grid::Workbench;

/// Stores for each cell of the frame the least squared index distance to a kept cell, or 4,294,967,295
/// where no cell is kept.
pub fn clearance(bench: &mut Workbench)
    ensures rest { bench.new ≡ record bench.old { clearances = (bench.new).clearances; scratch = (bench.new).scratch } }
    ensures least { (c : Cell) → InFrame (bench.old).frame c
        → IsClearance (in_plane (bench.old).frame (bench.old).kept) c
        (number_in (bench.old).frame 4294967295 (bench.new).clearances c) }
{
    // A side has at most 32,768 cells.
    let _frame = bench.frame();
    sweep_columns(bench);
    finish_rows(bench);
}
