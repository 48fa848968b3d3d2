// The clearing rows of a box.
ghost use Rattle.std.specs.Prelude.{◌≡◌, ◌↔◌, ◌<◌, true, ◌&&◌, ◌||◌, count_by};
ghost use Rattle.board_base.specs.declared.places.Cell.{Cell};
ghost use Rattle.cell_grid.specs.Place.{InFrame};
ghost use Rattle.cell_grid.specs.Cells.{in_plane};
ghost use Rattle.cell_sets.specs.Cleared.{IsOnClearingRow};
ghost use Rattle.contours.specs.Rows.{is_cleared_row as is_cleared_row_of, is_cleared_column};

use crate::cells::{trace, west_of};
use board_base::{Cell, CellBox};
use cell_grid::{Plane, Workbench, cell_at};

// Whether the row of a cell is a clearing row of the box.
#[tactic(auto, unfolding(crate::specs::Rows::is_cleared_row))]
fn is_cleared_row(inner: CellBox, stride: u32, c: Cell) -> bool
    requires { 0 < stride }
    ensures { result ≡ is_cleared_row_of stride inner c.j }
{
    if c.j < inner.j0 || inner.j1 < c.j {
        return false;
    }
    inner.j1 <= c.j || c.j.abs_diff(inner.j0) % stride == 0
}

// Whether a cell is in a column of the box and in Allowed, and its row is a clearing row.
#[tactic(auto, unfolding(crate::specs::Rows::is_cleared_column), using(cell_grid::proofs::CellsLaws::in_frame_true))]
#[inline(always)]
fn is_cleared(bench: &Workbench, inner: CellBox, c: Cell, row: bool) -> bool
    requires { InFrame (bench.now).frame c }
    ensures { result ≡ (row && is_cleared_column inner (in_plane (bench.now).frame (bench.now).allowed) c) }
{
    row && (inner.i0 <= c.i && (c.i <= inner.i1 && bench.get(Plane::Allowed, c)))
}

/// Makes Pass the cells of Allowed that lie on the clearing rows of the box: its bottom row, each row a
/// whole number of strides above it, and its top row. Adds Pass to Visited, and gives its size.
pub fn rows(bench: &mut Workbench, stride: u32, inner: CellBox) -> u64
    requires stride { 0 < stride }
    ensures rest { bench.new ≡ record bench.old { pass = (bench.new).pass; visited = (bench.new).visited } }
    ensures rows { (c : Cell) → in_plane (bench.old).frame (bench.new).pass c ≡ true
        ↔ (IsOnClearingRow stride inner c × (in_plane (bench.old).frame (bench.old).allowed c ≡ true)) }
    ensures visited { (c : Cell)
        → in_plane (bench.old).frame (bench.new).visited c
        ≡ (in_plane (bench.old).frame (bench.old).visited c || in_plane (bench.old).frame (bench.new).pass c) }
    ensures size { result ≡ count_by (λ p. p) (bench.new).pass }
{
    let frame = bench.frame();
    let mut count = 0;
    'rows: for y in 0..frame.height {
        let cleared = is_cleared_row(inner, stride, west_of(frame, 0, y));
        'cells: for x in 0..frame.width {
            let c = cell_at(frame, x, y);
            let on = is_cleared(bench, inner, c, cleared);
            count += trace(bench, c, on);
        }
    }
    count
}
