// The kept cells of a frame, row by row.
ghost use Rattle.std.specs.Prelude.{◌≡◌, ℤ, pos, ◌+ℤ◌, ◌≤ℤ◌, ◌<ℤ◌, ◌<◌, ◌+◌, true, false, length, replicate};
ghost use Rattle.board_base.specs.declared.places.Cell.{Cell};
ghost use Rattle.board_base.specs.Places.{IsNearPlace};
ghost use Rattle.board_base.specs.Lattice.{IsPitch, centre_of, middle, half_diagonal_of, IsCellReach};
ghost use Rattle.cell_grid.specs.Place.{IsFrame, InFrame};
ghost use Rattle.cell_grid.specs.Cells.{in_plane};
ghost use Rattle.cell_grid.specs.Grid.{HasRows};
ghost use Rattle.cell_grid.specs.Rows.{off_rows};
ghost use Rattle.shape_parts.specs.Shapes.{shape_touches};
ghost use Rattle.copper_cover.specs.Kept.{keeps, keeps_after};
ghost use Rattle.cell_grid.specs.Windows.{IsInWindow, IsWindowOf};
ghost use Rattle.copper_cover.specs.Rows.{AreWide};

use crate::cells::{clear, window_round};
use crate::columns::Row;
use crate::rows::{bit_after, fill};
use board_base::{centre, half_diagonal};
use cell_grid::{Frame, Plane, RowBits, Window, Workbench, cell_at};
use shape_parts::Painted;

// The row of cells from a cell of the frame on.
fn row_from(frame: Frame, x: u32, y: u32, h: i64) -> Row
    requires frame { IsFrame frame }
    requires pitch { IsPitch frame.pitch }
    requires x { x < frame.width }
    requires y { y < frame.height }
    ensures column { result.first.i ≡ frame.i0 +ℤ pos x }
    ensures row { result.first.j ≡ frame.j0 +ℤ pos y }
    ensures height { result.y ≡ middle frame.pitch result.first.j }
    ensures pitch { result.pitch ≡ frame.pitch }
    ensures h { result.h ≡ h }
{
    let first = cell_at(frame, x, y);
    let c = centre(first, frame.pitch);
    Row {
        first,
        y: c.y,
        pitch: frame.pitch,
        h,
    }
}

// Paints an object over the cells of a window, outside which it touches none. The rows of bits are as long
// as the window is wide.
fn sweep_window(
    bench: &mut Workbench,
    object: &Painted,
    h: i64,
    window: Window,
    touched: &mut [bool],
    covered: &mut [bool],
    held: &mut [bool],
    near: &mut [bool],
)
    requires pitch { IsPitch (bench.old).frame.pitch }
    requires centres { (c : Cell) → InFrame (bench.old).frame c → IsNearPlace (centre_of (bench.old).frame.pitch c) }
    requires h { h ≡ half_diagonal_of (bench.old).frame.pitch }
    requires reach { IsCellReach h }
    requires inside { IsWindowOf (bench.old).frame window }
    requires round { (c : Cell) → InFrame (bench.old).frame c
        → shape_touches (centre_of (bench.old).frame.pitch c) (half_diagonal_of (bench.old).frame.pitch) object.now.shape ≡ true → IsInWindow (bench.old).frame window c }
    requires some { 0 < length touched.old }
    requires touched { window.columns.from + length touched.old ≡ window.columns.to }
    requires covered { length covered.old ≡ length touched.old }
    requires held { length held.old ≡ length touched.old }
    requires near { length near.old ≡ length touched.old }
    ensures rest { bench.new ≡ record bench.old { kept = (bench.new).kept } }
    ensures kept { (c : Cell) → InFrame (bench.old).frame c
        → in_plane (bench.old).frame (bench.new).kept c
        ≡ keeps_after (bench.old).frame.pitch (in_plane (bench.old).frame (bench.old).kept c) object.now c }
{
    let frame = bench.frame();
    'rows: for y in window.rows.from..window.rows.to {
        let row = row_from(frame, window.columns.from, y, h);
        fill(touched, covered, held, near, object.shape.pieces(), row);
        'cells: for x in window.columns.from..window.columns.to {
            let k = (x - window.columns.from) as usize;
            let c = cell_at(frame, x, y);
            let was = bench.get(Plane::Kept, c);
            let kept = bit_after(object.dark, touched[k], covered[k], was);
            bench.set(Plane::Kept, c, kept);
        }
    }
}

// Paints an object over the cells of a window, with rows of bits that are as long as a row of the frame.
fn sweep(
    bench: &mut Workbench,
    object: &Painted,
    h: i64,
    window: Window,
    touched: &mut Vec<bool>,
    covered: &mut Vec<bool>,
    held: &mut Vec<bool>,
    near: &mut Vec<bool>,
)
    requires pitch { IsPitch (bench.old).frame.pitch }
    requires centres { (c : Cell) → InFrame (bench.old).frame c → IsNearPlace (centre_of (bench.old).frame.pitch c) }
    requires h { h ≡ half_diagonal_of (bench.old).frame.pitch }
    requires reach { IsCellReach h }
    requires inside { IsWindowOf (bench.old).frame window }
    requires round { (c : Cell) → InFrame (bench.old).frame c
        → shape_touches (centre_of (bench.old).frame.pitch c) (half_diagonal_of (bench.old).frame.pitch) object.now.shape ≡ true → IsInWindow (bench.old).frame window c }
    requires touched { length touched.old.items ≡ (bench.old).frame.width }
    requires covered { length covered.old.items ≡ (bench.old).frame.width }
    requires held { length held.old.items ≡ (bench.old).frame.width }
    requires near { length near.old.items ≡ (bench.old).frame.width }
    ensures rest { bench.new ≡ record bench.old { kept = (bench.new).kept } }
    ensures kept { (c : Cell) → InFrame (bench.old).frame c
        → in_plane (bench.old).frame (bench.new).kept c
        ≡ keeps_after (bench.old).frame.pitch (in_plane (bench.old).frame (bench.old).kept c) object.now c }
    ensures touched { length touched.new.items ≡ (bench.old).frame.width }
    ensures covered { length covered.new.items ≡ (bench.old).frame.width }
    ensures held { length held.new.items ≡ (bench.old).frame.width }
    ensures near { length near.new.items ≡ (bench.old).frame.width }
{
    if window.columns.to <= window.columns.from {
        return;
    }
    let n = (window.columns.to - window.columns.from) as usize;
    let touched = &mut touched[..n];
    let covered = &mut covered[..n];
    let held = &mut held[..n];
    let near = &mut near[..n];
    sweep_window(bench, object, h, window, touched, covered, held, near);
}

// Paints an object over the cells that it may touch.
fn paint(bench: &mut Workbench, object: &Painted, h: i64, rows: &mut RowBits)
    requires pitch { IsPitch (bench.old).frame.pitch }
    requires centres { (c : Cell) → InFrame (bench.old).frame c → IsNearPlace (centre_of (bench.old).frame.pitch c) }
    requires h { h ≡ half_diagonal_of (bench.old).frame.pitch }
    requires reach { IsCellReach h }
    requires wide { AreWide rows.old (bench.old).frame.width }
    ensures rest { bench.new ≡ record bench.old { kept = (bench.new).kept } }
    ensures kept { (c : Cell) → InFrame (bench.old).frame c
        → in_plane (bench.old).frame (bench.new).kept c
        ≡ keeps_after (bench.old).frame.pitch (in_plane (bench.old).frame (bench.old).kept c) object.now c }
    ensures wide { AreWide rows.new (bench.old).frame.width }
{
    match object.shape.bounds() {
        None => {}
        Some(bounds) => {
            let window = window_round(bench.frame(), bounds, h);
            sweep(
                bench,
                object,
                h,
                window,
                &mut rows.touched,
                &mut rows.covered,
                &mut rows.held,
                &mut rows.near,
            );
        }
    }
}

// Paints the objects in their order.
fn paint_all(bench: &mut Workbench, painted: &Vec<Painted>, rows: &mut RowBits)
    requires pitch { IsPitch (bench.old).frame.pitch }
    requires centres { (c : Cell) → InFrame (bench.old).frame c → IsNearPlace (centre_of (bench.old).frame.pitch c) }
    requires wide { AreWide rows.old (bench.old).frame.width }
    ensures rest { bench.new ≡ record bench.old { kept = (bench.new).kept } }
    ensures kept { (c : Cell) → InFrame (bench.old).frame c
        → in_plane (bench.old).frame (bench.new).kept c ≡ keeps (bench.old).frame.pitch painted.now.items c }
    ensures wide { AreWide rows.new (bench.old).frame.width }
{
    clear(bench);
    let h = half_diagonal(bench.frame().pitch);
    'objects: for object in painted {
        paint(bench, object, h, rows);
    }
}

// Takes all bits off.
fn wipe(bits: &mut Vec<bool>, n: usize)
    requires { length bits.old.items ≡ n }
    ensures { bits.new.items ≡ replicate n false }
{
    bits.fill(false);
}

// Takes the bits of all rows off.
fn wipe_rows(rows: &mut RowBits, n: usize)
    requires { AreWide rows.old n }
    ensures { rows.new ≡ off_rows n }
{
    wipe(&mut rows.touched, n);
    wipe(&mut rows.covered, n);
    wipe(&mut rows.held, n);
    wipe(&mut rows.near, n);
}

/// Makes Kept the cells of the frame that the painted objects keep, whatever was kept before. The
/// centre of each cell of the frame has to lie within 500.1 mm of both axes. The objects are painted in
/// their order, each over the cells round its own rectangle alone, row by row: a part costs little in a row
/// that it isn't near. The grid's rows of bits have to lie in their place, and do so afterwards.
pub fn cover(bench: &mut Workbench, painted: &Vec<Painted>)
    requires rows { HasRows bench.old }
    requires pitch { IsPitch (bench.old).frame.pitch }
    requires centres { (c : Cell) → InFrame (bench.old).frame c → IsNearPlace (centre_of (bench.old).frame.pitch c) }
    ensures rest { bench.new ≡ record bench.old { kept = (bench.new).kept } }
    ensures kept { (c : Cell) → InFrame (bench.old).frame c
        → in_plane (bench.old).frame (bench.new).kept c ≡ keeps (bench.old).frame.pitch painted.now.items c }
{
    if let Some(rows) = bench.take_rows() {
        let mut rows = rows;
        paint_all(bench, painted, &mut rows);
        wipe_rows(&mut rows, bench.frame().width as usize);
        bench.give_rows(rows);
    }
}
