// The classes of a forest are numbered.
ghost use Rattle.std.specs.Prelude.{◌≡◌, ◌<◌, ◌≤◌, ◌+◌, ◌⊎◌, ℕ, slice_index};
ghost use Rattle.cell_grid.specs.Place.{cells_of};
ghost use Rattle.cell_grid.specs.Grid.{plane_of};
ghost use Rattle.islands.specs.Taken.{is_taken};
ghost use Rattle.islands.specs.Floods.{ChangesNumbers};
ghost use Rattle.islands.specs.Classes.{IsNumbered};
ghost use Rattle.islands.specs.Forests.{nodes, IsJoined, IsFirstRun, IsLaterRun};

use crate::forests::pointed;
use cell_grid::{Plane, Workbench};

// Gives the cells of a run the number of its class: the next one where its first cell is the first of the
// class, else that of the cell it points to. Gives the last number.
fn number_run(bench: &mut Workbench, outer: u32, count: u32, first: u32, past: u32) -> u32
    requires order { first < past }
    requires inside { past ≤ cells_of bench.old.frame }
    requires points { 0 < slice_index (nodes outer bench.old.works) (slice_index bench.old.works first) }
    requires few { count ≤ 67108866 }
    ensures { IsFirstRun bench.old bench.new count first past result ⊎ IsLaterRun bench.old bench.new outer count first past result }
{
    let _whole = bench.frame();
    let up = bench.work_at(first);
    if up == first + 2 {
        bench.fill_works(first, past, count + 1);
        count + 1
    } else {
        let number = pointed(bench, outer, up);
        bench.fill_works(first, past, number);
        count
    }
}

// Gives each taken cell the number of its class, run by run in the order of rows. Gives the last number.
pub(crate) fn number_cells(bench: &mut Workbench, plane: Plane, on: bool, outer: u32) -> u32
    requires small { outer ≤ 1 }
    requires joined { IsJoined bench.old.frame (is_taken on bench.old.frame (plane_of bench.old plane)) outer bench.old.works (cells_of bench.old.frame) }
    ensures rest { ChangesNumbers bench.old bench.new }
    ensures numbered { IsNumbered bench.old.frame (is_taken on bench.old.frame (plane_of bench.old plane)) outer (bench.new).works result }
{
    let frame = bench.frame();
    let mut count = outer;
    'rows: for y in 0..frame.height {
        let end = y * frame.width + frame.width;
        let mut at = y * frame.width;
        'runs: while at < end {
            let first = bench.next_place(plane, on, at, end);
            let past = bench.next_place(plane, !on, first, end);
            if first < past {
                let _whole = bench.frame();
                count = number_run(bench, outer, count, first, past);
            }
            at = past;
        }
    }
    count
}
