// The numbering of classes.
ghost use Rattle.std.specs.Prelude.{◌≡◌, ◌<◌, ◌≤◌, ◌+◌, ◌↔◌, ℕ, false, not, IsTrue, slice_index};
ghost use Rattle.board_base.specs.declared.places.Cell.{Cell};
ghost use Rattle.cell_grid.specs.Place.{cells_of};
ghost use Rattle.cell_grid.specs.Grid.{plane_of};
ghost use Rattle.cell_grid.specs.Cells.{in_plane, number_in};
ghost use Rattle.cell_sets.specs.Chains.{IsBefore, IsClasses};
ghost use Rattle.cell_sets.specs.Islands.{AreIslands};
ghost use Rattle.islands.specs.Taken.{is_taken, outer_number};
ghost use Rattle.islands.specs.Floods.{ChangesNumbers};
ghost use Rattle.islands.specs.Classes.{IsNumbered};

use crate::counts::number_cells;
use crate::joins::join_cells;
use cell_grid::{Plane, Workbench};

// The number of all cells outside the frame.
fn outer(on: bool) -> u32
    ensures { result ≡ outer_number on }
{
    if on { 0 } else { 1 }
}

// Numbers the classes of the taken cells: where `on`, those of the plane are taken, else all others, with
// those outside the frame. Gives the last number.
fn number_taken(bench: &mut Workbench, plane: Plane, on: bool) -> u32
    requires { (k : ℕ) → slice_index bench.old.works k ≡ 0 }
    ensures rest { ChangesNumbers bench.old bench.new }
    ensures numbered { IsNumbered bench.old.frame (is_taken on bench.old.frame (plane_of bench.old plane)) (outer_number on) (bench.new).works result }
{
    let outer = outer(on);
    join_cells(bench, plane, on, outer);
    number_cells(bench, plane, on, outer)
}

/// Numbers the classes of a plane's cells in the working labels, from 1 on, in the order of their
/// first cells, and gives their count. All other cells have the working label 0.
pub fn number_classes(bench: &mut Workbench, plane: Plane) -> u32
    ensures rest { ChangesNumbers bench.old bench.new }
    ensures islands { AreIslands (in_plane bench.old.frame (plane_of bench.old plane)) (number_in bench.old.frame 0 (bench.new).works) result }
    ensures most { result ≤ cells_of bench.old.frame }
{
    bench.clear_works();
    number_taken(bench, plane, true)
}

/// Numbers the classes of the cells that are not in a plane in the working labels, and gives the last
/// number. All cells outside the frame are of class 1, and so are the cells that chains link to them;
/// the numbers from 2 on stand in the order of their first cells. The plane's cells have 0.
pub fn number_rest(bench: &mut Workbench, plane: Plane) -> u32
    ensures rest { ChangesNumbers bench.old bench.new }
    ensures classes { IsClasses (λ c. not (in_plane bench.old.frame (plane_of bench.old plane) c)) (number_in bench.old.frame 1 (bench.new).works) }
    ensures few { (c : Cell) → number_in bench.old.frame 1 (bench.new).works c ≤ result }
    ensures order { (c : Cell) (u : ℕ) → 1 < u → u < number_in bench.old.frame 1 (bench.new).works c
        → (b : Cell) × (IsBefore b c × (number_in bench.old.frame 1 (bench.new).works b ≡ u)) }
    ensures present { (u : ℕ) → 1 < u → u ≤ result → (b : Cell) × (number_in bench.old.frame 1 (bench.new).works b ≡ u) }
    ensures most { result ≤ cells_of bench.old.frame + 1 }
{
    bench.clear_works();
    number_taken(bench, plane, false)
}
