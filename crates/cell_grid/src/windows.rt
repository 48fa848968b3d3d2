// Some columns and rows of a frame.
ghost use Rattle.std.specs.Prelude.{◌≡◌, ℕ, ℤ, pos, ◌+ℤ◌, ◌≤ℤ◌, ◌<◌, ◌≤◌, ◌^◌, ◌↔◌, unsigned_abs};
ghost use Rattle.board_base.specs.declared.places.Cell.{Cell};
ghost use Rattle.board_base.specs.Lattice.{IsInBox};
ghost use Rattle.cell_grid.specs.Place.{InFrame};
ghost use Rattle.cell_grid.specs.Windows.{IsInSpan, IsInWindow, IsWindowOf};

use crate::frames::Frame;
use board_base::CellBox;

/// The numbers from `from` on and before `to`.
#[derive(Clone, Copy, Debug, PartialEq, Eq)]
pub struct Span {
    pub from: u32,
    pub to: u32,
}

/// Some columns and rows of a frame, counted from its south-west corner.
#[derive(Clone, Copy, Debug, PartialEq, Eq)]
pub struct Window {
    pub columns: Span,
    pub rows: Span,
}

// How many of `n` columns or rows from `first` on are before `i`.
fn steps_to(i: i64, first: i64, n: u32) -> u32
    requires i { unsigned_abs i ≤ 2 ^ 40 }
    requires first { unsigned_abs first ≤ 2 ^ 40 }
    ensures past { (k : ℕ) → k < n → (result ≤ k) ↔ (i ≤ℤ (first +ℤ pos k)) }
    ensures most { result ≤ n }
{
    if i <= first {
        return 0;
    }
    let k = (i - first) as u64;
    if k < n as u64 { k as u32 } else { n }
}

/// The columns or rows from `low` to `high`, of `n` from `first` on, counted from 0.
pub fn span_of(low: i32, high: i32, first: i32, n: u32) -> Span
    ensures holds { (k : ℕ) → k < n → IsInSpan result k ↔ (low ≤ℤ (first +ℤ pos k) × (first +ℤ pos k) ≤ℤ high) }
    ensures from { result.from ≤ n }
    ensures to { result.to ≤ n }
{
    let end = high as i64 + 1;
    Span {
        from: steps_to(low as i64, first as i64, n),
        to: steps_to(end, first as i64, n),
    }
}

/// The columns and rows of the frame whose cells are in the box.
pub fn window_of(frame: Frame, cells: CellBox) -> Window
    ensures holds { (c : Cell) → InFrame frame c → IsInWindow frame result c ↔ IsInBox cells c }
    ensures inside { IsWindowOf frame result }
{
    let columns = span_of(cells.i0, cells.i1, frame.i0, frame.width);
    let rows = span_of(cells.j0, cells.j1, frame.j0, frame.height);
    Window { columns, rows }
}
