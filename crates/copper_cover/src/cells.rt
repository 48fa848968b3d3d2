// The kept cells of a frame, object by object.
ghost use Rattle.std.specs.Prelude.{◌≡◌, ℤ, pos, ◌-ℤ◌, ◌≤ℤ◌, ◌<ℤ◌, ◌↔◌, true, false};
ghost use Rattle.board_base.specs.declared.places.Cell.{Cell};
ghost use Rattle.board_base.specs.Places.{IsNearPlace};
ghost use Rattle.board_base.specs.Lattice.{IsPitch, centre_of, half_diagonal_of, IsCellReach};
ghost use Rattle.cell_grid.specs.Place.{InFrame};
ghost use Rattle.cell_grid.specs.Cells.{in_plane};
ghost use Rattle.cell_grid.specs.Grid.{HasRows};
ghost use Rattle.shape_parts.specs.Shapes.{shape_touches};
ghost use Rattle.shape_parts.specs.BoxLaw.{HasSquare};
ghost use Rattle.shape_parts.specs.Boxes.{IsBounds};
ghost use Rattle.copper_cover.specs.Kept.{keeps, keeps_after};
ghost use Rattle.cell_grid.specs.Windows.{IsInWindow, IsWindowOf};

use crate::objects::kept_after;
use board_base::{Bounds, centre, half_diagonal};
use cell_grid::{Frame, Plane, Window, Workbench, cell_at, cells_within, window_of};
use shape_parts::Painted;

// The columns and rows of the frame whose centres are in the rectangle grown by `h` on each side.
pub(crate) fn window_round(frame: Frame, bounds: Bounds, h: i64) -> Window
    requires pitch { IsPitch frame.pitch }
    requires bounds { IsBounds bounds }
    requires reach { IsCellReach h }
    ensures holds { (c : Cell) → InFrame frame c → IsInWindow frame result c ↔ HasSquare bounds (centre_of frame.pitch c) (pos 0 -ℤ h) }
    ensures inside { IsWindowOf frame result }
{
    let cells = cells_within(bounds, h, frame.pitch);
    window_of(frame, cells)
}

// Takes all cells out of the plane of kept cells.
pub(crate) fn clear(bench: &mut Workbench)
    ensures rest { bench.new ≡ record bench.old { kept = (bench.new).kept } }
    ensures kept { (c : Cell) → InFrame (bench.old).frame c → in_plane (bench.old).frame (bench.new).kept c ≡ false }
{
    bench.clear(Plane::Kept);
}

// Paints an object over the cells of a window, outside which it touches none.
fn paint_window(bench: &mut Workbench, object: &Painted, h: i64, window: Window)
    requires pitch { IsPitch (bench.old).frame.pitch }
    requires centres { (c : Cell) → InFrame (bench.old).frame c → IsNearPlace (centre_of (bench.old).frame.pitch c) }
    requires h { h ≡ half_diagonal_of (bench.old).frame.pitch }
    requires reach { IsCellReach h }
    requires inside { IsWindowOf (bench.old).frame window }
    requires round { (c : Cell) → InFrame (bench.old).frame c
        → shape_touches (centre_of (bench.old).frame.pitch c) (half_diagonal_of (bench.old).frame.pitch) object.now.shape ≡ true → IsInWindow (bench.old).frame window c }
    ensures rest { bench.new ≡ record bench.old { kept = (bench.new).kept } }
    ensures kept { (c : Cell) → InFrame (bench.old).frame c
        → in_plane (bench.old).frame (bench.new).kept c
        ≡ keeps_after (bench.old).frame.pitch (in_plane (bench.old).frame (bench.old).kept c) object.now c }
{
    let frame = bench.frame();
    'rows: for y in window.rows.from..window.rows.to {
        'cells: for x in window.columns.from..window.columns.to {
            let c = cell_at(frame, x, y);
            let was = bench.get(Plane::Kept, c);
            let kept = kept_after(was, object, centre(c, frame.pitch), h);
            bench.set(Plane::Kept, c, kept);
        }
    }
}

// Paints an object over the cells that it may touch.
fn paint(bench: &mut Workbench, object: &Painted, h: i64)
    requires pitch { IsPitch (bench.old).frame.pitch }
    requires centres { (c : Cell) → InFrame (bench.old).frame c → IsNearPlace (centre_of (bench.old).frame.pitch c) }
    requires h { h ≡ half_diagonal_of (bench.old).frame.pitch }
    requires reach { IsCellReach h }
    ensures rest { bench.new ≡ record bench.old { kept = (bench.new).kept } }
    ensures kept { (c : Cell) → InFrame (bench.old).frame c
        → in_plane (bench.old).frame (bench.new).kept c
        ≡ keeps_after (bench.old).frame.pitch (in_plane (bench.old).frame (bench.old).kept c) object.now c }
{
    match object.shape.bounds() {
        None => {}
        Some(bounds) => {
            let window = window_round(bench.frame(), bounds, h);
            paint_window(bench, object, h, window);
        }
    }
}

/// Makes Kept the cells of the frame that the painted objects keep, cell by cell: the slow program of the
/// definition, for what `cover` does by rows.
pub fn plain_cover(bench: &mut Workbench, painted: &Vec<Painted>)
    requires rows { HasRows bench.old }
    requires pitch { IsPitch (bench.old).frame.pitch }
    requires centres { (c : Cell) → InFrame (bench.old).frame c → IsNearPlace (centre_of (bench.old).frame.pitch c) }
    ensures rest { bench.new ≡ record bench.old { kept = (bench.new).kept } }
    ensures kept { (c : Cell) → InFrame (bench.old).frame c
        → in_plane (bench.old).frame (bench.new).kept c ≡ keeps (bench.old).frame.pitch painted.now.items c }
{
    clear(bench);
    let h = half_diagonal(bench.frame().pitch);
    'objects: for object in painted {
        paint(bench, object, h);
    }
}
