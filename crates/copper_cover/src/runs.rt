// The columns of a row whose centres are near a segment. They have no gap, so that their ends are found by
// halving. Lengths are in nanometres.
ghost use Rattle.std.specs.Prelude.{◌≡◌, ◌<◌, ◌≤◌, ◌+◌, ℕ, true, false, cond, IfSome, None, length, slice_index_or};
ghost use Rattle.board_base.specs.Places.{IsNearPlace, IsSpan};
ghost use Rattle.board_base.specs.Near.{near_of};
ghost use Rattle.cell_grid.specs.Windows.{IsInSpan};
ghost use Rattle.copper_cover.specs.Rows.{IsRow, centre_in, is_near_in, is_in_span};

use crate::columns::{Row, centre_at, columns_near};
use board_base::Point;
use cell_grid::Span;
use plane_geom::near;

// About where a segment is nearest to the height `y`. A search begins there and finds the same from anywhere,
// so that no number has to fit.
fn x_near(a: Point, b: Point, y: i64) -> i64 {
    let run = b.x.wrapping_sub(a.x);
    let height = y.max(a.y.min(b.y)).min(a.y.max(b.y)).wrapping_sub(a.y);
    let along = run
        .wrapping_mul(height)
        .checked_div(b.y.wrapping_sub(a.y))
        .unwrap_or(run / 2);
    a.x.wrapping_add(along)
}

// The column of a span that most likely is near a segment, where one is.
fn likely(row: Row, n: u32, span: Span, a: Point, b: Point) -> u32
    requires row { IsRow row n }
    requires some { span.from < span.to }
    ensures { IsInSpan span result }
{
    let x = x_near(a, b, row.y);
    let column = x.wrapping_div(row.pitch).wrapping_sub(row.first.i as i64);
    if column <= span.from as i64 {
        span.from
    } else if span.to as i64 <= column {
        span.to - 1
    } else {
        column as u32
    }
}

// Whether the centre of a column is near a segment.
#[inline(always)]
fn is_near_at(row: Row, n: u32, a: Point, b: Point, d: i64, k: u32) -> bool
    requires row { IsRow row n }
    requires a { IsNearPlace a }
    requires b { IsNearPlace b }
    requires d { IsSpan d }
    requires k { k < n }
    ensures { result ≡ is_near_in row a b d k }
{
    near(centre_at(row, k, n), a, b, d)
}

// A column of a span that is near a segment, where one is.
fn some_near(row: Row, n: u32, span: Span, a: Point, b: Point, d: i64) -> Option<u32>
    requires row { IsRow row n }
    requires to { span.to ≤ n }
    requires a { IsNearPlace a }
    requires b { IsNearPlace b }
    requires d { IsSpan d }
    ensures inside { IfSome result (IsInSpan span) }
    ensures near { IfSome result (λ k. is_near_in row a b d k ≡ true) }
    ensures none { result ≡ None → (k : ℕ) → span.from ≤ k → k < span.to → is_near_in row a b d k ≡ false }
{
    if span.to <= span.from {
        return None;
    }
    let guess = likely(row, n, span, a, b);
    if is_near_at(row, n, a, b, d, guess) {
        return Some(guess);
    }
    'columns: for k in span.from..span.to {
        if is_near_at(row, n, a, b, d, k) {
            return Some(k);
        }
    }
    None
}

// The first column from `low` on that is near a segment, up to `high`, which is.
fn first_near(row: Row, n: u32, low: u32, high: u32, a: Point, b: Point, d: i64) -> u32
    requires row { IsRow row n }
    requires order { low ≤ high }
    requires high { high < n }
    requires a { IsNearPlace a }
    requires b { IsNearPlace b }
    requires d { IsSpan d }
    requires near { is_near_in row a b d high ≡ true }
    ensures low { low ≤ result }
    ensures high { result ≤ high }
    ensures near { is_near_in row a b d result ≡ true }
    ensures before { (k : ℕ) → low ≤ k → k < result → is_near_in row a b d k ≡ false }
{
    let mut from = low;
    let mut to = high;
    'halves: while from < to {
        let middle = from + (to - from) / 2;
        if is_near_at(row, n, a, b, d, middle) {
            to = middle;
        } else {
            from = middle + 1;
        }
    }
    to
}

// The end of the columns from `low` on and before `high` that are near a segment, as `low` is.
fn end_near(row: Row, n: u32, low: u32, high: u32, a: Point, b: Point, d: i64) -> u32
    requires row { IsRow row n }
    requires order { low < high }
    requires high { high ≤ n }
    requires a { IsNearPlace a }
    requires b { IsNearPlace b }
    requires d { IsSpan d }
    requires near { is_near_in row a b d low ≡ true }
    ensures low { low < result }
    ensures high { result ≤ high }
    ensures near { (k : ℕ) → k + 1 ≡ result → is_near_in row a b d k ≡ true }
    ensures after { (k : ℕ) → result ≤ k → k < high → is_near_in row a b d k ≡ false }
{
    let mut from = low;
    let mut to = high;
    'halves: while 1 < to - from {
        let middle = from + (to - from) / 2;
        if is_near_at(row, n, a, b, d, middle) {
            from = middle;
        } else {
            to = middle;
        }
    }
    to
}

// The columns of a row of `n` cells whose centres are near a segment.
pub(crate) fn columns_at(row: Row, n: u32, a: Point, b: Point, d: i64) -> Span
    requires row { IsRow row n }
    requires a { IsNearPlace a }
    requires b { IsNearPlace b }
    requires d { IsSpan d }
    ensures holds { (k : ℕ) → k < n → is_near_in row a b d k ≡ is_in_span result k }
    ensures from { result.from ≤ n }
    ensures to { result.to ≤ n }
{
    let span = columns_near(a, b, d, row, n);
    match some_near(row, n, span, a, b, d) {
        None => Span { from: 0, to: 0 },
        Some(k) => Span {
            from: first_near(row, n, span.from, k, a, b, d),
            to: end_near(row, n, k, span.to, a, b, d),
        },
    }
}

// Turns the bits of a span on, or off.
pub(crate) fn mark(bits: &mut [bool], span: Span, on: bool)
    requires from { span.from ≤ length bits.old }
    requires to { span.to ≤ length bits.old }
    ensures len { length bits.new ≡ length bits.old }
    ensures bits { (k : ℕ) → k < length bits.old
        → slice_index_or bits.new k false ≡ cond (is_in_span span k) on (slice_index_or bits.old k false) }
{
    'columns: for k in span.from..span.to {
        bits[k as usize] = on;
    }
}
