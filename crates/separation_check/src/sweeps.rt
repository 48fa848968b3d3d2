// Which cells a segment sweeps.
ghost use Rattle.std.specs.Prelude.{◌≡◌, ◌||◌, true};
ghost use Rattle.board_base.specs.declared.places.Cell.{Cell};
ghost use Rattle.board_base.specs.Lattice.{IsPitch, centre_of};
ghost use Rattle.board_base.specs.Places.{IsNearPlace, IsSpan};
ghost use Rattle.board_base.specs.Near.{near_of};
ghost use Rattle.cell_grid.specs.Place.{InFrame};
ghost use Rattle.cell_grid.specs.Cells.{in_plane};
ghost use Rattle.cell_grid.specs.Windows.{IsInWindow, IsWindowOf};

use board_base::{Cell, Point, centre};
use cell_grid::{Frame, Plane, Window, Workbench, cell_at, window_of};
use plane_geom::{near, reach};

// The columns and rows of a frame that hold the cells near a segment.
fn window_near(frame: Frame, a: Point, b: Point, d: i64) -> Window
    requires pitch { IsPitch frame.pitch }
    requires a { IsNearPlace a }
    requires b { IsNearPlace b }
    requires d { IsSpan d }
    ensures each { (c : Cell) → InFrame frame c → near_of (centre_of frame.pitch c) a b d ≡ true → IsInWindow frame result c }
    ensures inside { IsWindowOf frame result }
{
    window_of(frame, reach(a, b, d, frame.pitch))
}

// Whether the centre of a cell is near a segment.
fn is_near(frame: Frame, c: Cell, a: Point, b: Point, d: i64) -> bool
    requires pitch { IsPitch frame.pitch }
    requires cell { IsNearPlace (centre_of frame.pitch c) }
    requires a { IsNearPlace a }
    requires b { IsNearPlace b }
    requires d { IsSpan d }
    ensures { result ≡ near_of (centre_of frame.pitch c) a b d }
{
    near(centre(c, frame.pitch), a, b, d)
}

/// Adds to Swept the cells of the frame whose centres are near the segment `ab` with `d`: twice the
/// distance is at most `d`. Lengths are in nanometres.
pub fn mark_swept(bench: &mut Workbench, a: Point, b: Point, d: i64)
    requires pitch { IsPitch (bench.old).frame.pitch }
    requires centres { (c : Cell) → InFrame (bench.old).frame c → IsNearPlace (centre_of (bench.old).frame.pitch c) }
    requires a { IsNearPlace a }
    requires b { IsNearPlace b }
    requires d { IsSpan d }
    ensures rest { bench.new ≡ record bench.old { swept = (bench.new).swept } }
    ensures marks { (c : Cell) → InFrame (bench.old).frame c
        → in_plane (bench.old).frame (bench.new).swept c ≡ (in_plane (bench.old).frame (bench.old).swept c || near_of (centre_of (bench.old).frame.pitch c) a b d) }
{
    let frame = bench.frame();
    let window = window_near(frame, a, b, d);
    'rows: for y in window.rows.from..window.rows.to {
        'cells: for x in window.columns.from..window.columns.to {
            let c = cell_at(frame, x, y);
            if is_near(frame, c, a, b, d) {
                bench.set(Plane::Swept, c, true);
            }
        }
    }
}
