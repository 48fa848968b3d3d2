// The kept cells that low moves strike.
ghost use Rattle.std.specs.Prelude.{◌≡◌, ◌<◌, ◌≤◌, pos, ◌+ℤ◌, ◌*ℤ◌, true, MatchOption};
ghost use Rattle.std.specs.List.{All};
ghost use Rattle.board_base.specs.declared.places.Cell.{Cell};
ghost use Rattle.board_base.specs.Lattice.{IsPitch, centre_of};
ghost use Rattle.board_base.specs.Places.{IsNearPlace, IsSpan};
ghost use Rattle.board_base.specs.Near.{near_of};
ghost use Rattle.cell_grid.specs.Place.{InFrame, column_of};
ghost use Rattle.cell_grid.specs.Windows.{IsInSpan, IsInWindow, IsWindowOf};
ghost use Rattle.rs274_sim.specs.Cutter.{nanometre, IsLow};
ghost use Rattle.side_check.specs.Ends.{HasNearEnds};
ghost use Rattle.side_check.specs.Struck.{IsFirstCell, IsFirstOfRow, is_struck as is_struck_in, is_struck_by, AreHarmless, IsFirstStrike};

use crate::heights::{is_low, under};
use board_base::{Cell, Move, Point, centre};
use cell_grid::{Frame, Plane, Span, Window, Workbench, cell_at, window_of};
use plane_geom::{near, reach};

/// What a move strikes: a kept cell, and the line of the move.
#[derive(Clone, Copy, Debug, PartialEq, Eq)]
pub(crate) struct Strike {
    pub(crate) cell: Cell,
    pub(crate) line: u32,
}

// The columns and rows of a frame that hold the cells near a segment.
fn window_near(frame: Frame, a: Point, b: Point, d: i64) -> Window
    requires pitch { IsPitch frame.pitch }
    requires a { IsNearPlace a }
    requires b { IsNearPlace b }
    requires d { IsSpan d }
    ensures each { (c : Cell) → InFrame frame c → near_of (centre_of frame.pitch c) a b d ≡ true → IsInWindow frame result c }
    ensures inside { IsWindowOf frame result }
{
    window_of(frame, reach(a, b, d, frame.pitch))
}

// Whether a cell is kept and its centre near a segment.
fn is_struck(bench: &Workbench, c: Cell, a: Point, b: Point, d: i64) -> bool
    requires pitch { IsPitch bench.now.frame.pitch }
    requires inside { InFrame bench.now.frame c }
    requires centre { IsNearPlace (centre_of bench.now.frame.pitch c) }
    requires a { IsNearPlace a }
    requires b { IsNearPlace b }
    requires d { IsSpan d }
    ensures { result ≡ is_struck_in bench.now a b d c }
{
    if !bench.get(Plane::Kept, c) {
        return false;
    }
    near(centre(c, bench.frame().pitch), a, b, d)
}

// The first kept cell near a segment, of these columns of a row.
fn struck_in_row(
    bench: &Workbench,
    columns: Span,
    y: u32,
    a: Point,
    b: Point,
    d: i64,
) -> Option<Cell>
    requires pitch { IsPitch bench.now.frame.pitch }
    requires centres { (c : Cell) → InFrame bench.now.frame c → IsNearPlace (centre_of bench.now.frame.pitch c) }
    requires columns { columns.to ≤ bench.now.frame.width }
    requires row { y < bench.now.frame.height }
    requires all { (c : Cell) → is_struck_in bench.now a b d c ≡ true → IsInSpan columns (column_of bench.now.frame c) }
    requires a { IsNearPlace a }
    requires b { IsNearPlace b }
    requires d { IsSpan d }
    ensures { MatchOption result
        ((c : Cell) → c.j ≡ bench.now.frame.j0 +ℤ pos y → is_struck_in bench.now a b d c ≡ true → ⊥)
        (λ c. (c.j ≡ bench.now.frame.j0 +ℤ pos y) × IsFirstOfRow (is_struck_in bench.now a b d) c) }
{
    let frame = bench.frame();
    for x in columns.from..columns.to {
        let c = cell_at(frame, x, y);
        if is_struck(bench, c, a, b, d) {
            return Some(c);
        }
    }
    None
}

// The first kept cell near a segment.
fn first_struck(bench: &Workbench, a: Point, b: Point, d: i64) -> Option<Cell>
    requires pitch { IsPitch bench.now.frame.pitch }
    requires centres { (c : Cell) → InFrame bench.now.frame c → IsNearPlace (centre_of bench.now.frame.pitch c) }
    requires a { IsNearPlace a }
    requires b { IsNearPlace b }
    requires d { IsSpan d }
    ensures { MatchOption result
        ((c : Cell) → is_struck_in bench.now a b d c ≡ true → ⊥)
        (IsFirstCell (is_struck_in bench.now a b d)) }
{
    let window = window_near(bench.frame(), a, b, d);
    for y in window.rows.from..window.rows.to {
        if let Some(c) = struck_in_row(bench, window.columns, y, a, b, d) {
            return Some(c);
        }
    }
    None
}

// The first kept cell that a move strikes, where the move is low.
fn struck_by(bench: &Workbench, d: i64, safe: i64, m: &Move) -> Option<Cell>
    requires pitch { IsPitch bench.now.frame.pitch }
    requires centres { (c : Cell) → InFrame bench.now.frame c → IsNearPlace (centre_of bench.now.frame.pitch c) }
    requires d { IsSpan d }
    requires ends { HasNearEnds m.now }
    ensures { MatchOption result
        (IsLow (safe *ℤ nanometre) m.now → (c : Cell) → is_struck_by bench.now d m.now c ≡ true → ⊥)
        (λ c. IsLow (safe *ℤ nanometre) m.now × IsFirstCell (is_struck_by bench.now d m.now) c) }
{
    if !is_low(m, safe) {
        return None;
    }
    first_struck(bench, under(m.from), under(m.to), d)
}

/// The first low move that strikes a kept cell, and its first such cell.
pub(crate) fn first_strike(
    bench: &Workbench,
    d: i64,
    safe: i64,
    moves: &Vec<Move>,
) -> Option<Strike>
    requires pitch { IsPitch bench.now.frame.pitch }
    requires centres { (c : Cell) → InFrame bench.now.frame c → IsNearPlace (centre_of bench.now.frame.pitch c) }
    requires d { IsSpan d }
    requires ends { All HasNearEnds moves.now.items }
    ensures { MatchOption result
        (AreHarmless bench.now d safe moves.now.items)
        (λ s. IsFirstStrike bench.now d safe moves.now.items s.cell s.line) }
{
    for m in moves {
        if let Some(cell) = struck_by(bench, d, safe, m) {
            return Some(Strike { cell, line: m.line });
        }
    }
    None
}
