// The columns of a row of cells. Lengths are in nanometres.
ghost use Rattle.std.specs.Prelude.{◌≡◌, ℕ, ℤ, pos, ◌≤ℤ◌, ◌<◌, ◌≤◌, unsigned_abs, true};
ghost use Rattle.board_base.specs.Places.{IsNearPlace, IsNearCoordinate, IsSpan};
ghost use Rattle.board_base.specs.Near.{near_of};
ghost use Rattle.cell_grid.specs.Windows.{IsInSpan};
ghost use Rattle.copper_cover.specs.Rows.{east_of, is_over as is_over_of, is_under as is_under_of, misses, IsRow, centre_in};

use board_base::{Cell, Point, centre};
use cell_grid::{Span, span_of};
use plane_geom::reach;

// A row of cells from the first one on: the height of their centres, the pitch, and half the diagonal of
// a cell.
#[derive(Clone, Copy)]
pub(crate) struct Row {
    pub(crate) first: Cell,
    pub(crate) y: i64,
    pub(crate) pitch: i64,
    pub(crate) h: i64,
}

// The cell so many columns east.
#[tactic(auto, unfolding(crate::specs::Rows::east_of))]
fn east(c: Cell, k: u32) -> Cell
    requires first { unsigned_abs c.i ≤ 1000000000 }
    requires few { k ≤ 32768 }
    ensures { result ≡ east_of c k }
{
    Cell {
        i: c.i + k as i32,
        j: c.j,
    }
}

// The centre of a cell of a row.
pub(crate) fn centre_at(row: Row, k: u32, n: u32) -> Point
    requires row { IsRow row n }
    requires k { k < n }
    ensures value { result ≡ centre_in row k }
    ensures near { IsNearPlace result }
{
    centre(east(row.first, k), row.pitch)
}

// Whether a height is more than half of `d` above a row.
#[tactic(auto, unfolding(crate::specs::Rows::is_over))]
fn is_over(y: i64, d: i64, a: i64) -> bool
    requires y { IsNearCoordinate y }
    requires a { IsNearCoordinate a }
    requires d { IsSpan d }
    ensures { result ≡ is_over_of y d a }
{
    2 * y + d < 2 * a
}

// Whether a height is more than half of `d` below a row.
#[tactic(auto, unfolding(crate::specs::Rows::is_under))]
fn is_under(y: i64, d: i64, a: i64) -> bool
    requires y { IsNearCoordinate y }
    requires a { IsNearCoordinate a }
    requires d { IsSpan d }
    ensures { result ≡ is_under_of y d a }
{
    2 * a < 2 * y - d
}

// Whether both ends of a segment stand more than half of `d` above a row, or both below it.
pub(crate) fn misses_row(y: i64, d: i64, a: i64, b: i64) -> bool
    requires y { IsNearCoordinate y }
    requires a { IsNearCoordinate a }
    requires b { IsNearCoordinate b }
    requires d { IsSpan d }
    ensures { result ≡ misses y d a b }
{
    if is_over(y, d, a) {
        is_over(y, d, b)
    } else if is_under(y, d, a) {
        is_under(y, d, b)
    } else {
        false
    }
}

// The columns of a row of `n` cells among which are all whose centres are near a segment.
pub(crate) fn columns_near(a: Point, b: Point, d: i64, row: Row, n: u32) -> Span
    requires a { IsNearPlace a }
    requires b { IsNearPlace b }
    requires d { IsSpan d }
    requires row { IsRow row n }
    ensures holds { (k : ℕ) → k < n → near_of (centre_in row k) a b d ≡ true → IsInSpan result k }
    ensures from { result.from ≤ n }
    ensures to { result.to ≤ n }
{
    let cells = reach(a, b, d, row.pitch);
    span_of(cells.i0, cells.i1, row.first.i, n)
}
