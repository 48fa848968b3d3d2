// The least squares along a row, by the columns that are the nearest somewhere.
ghost use Rattle.std.specs.Prelude.{◌≡◌, ◌≢◌, ◌<◌, ◌≤◌, ◌+◌, ◌*◌, ℕ, suc};
ghost use Rattle.centre_field.specs.Distances.{square_gap as square_of};
ghost use Rattle.centre_field.specs.Columns.{number_at};
ghost use Rattle.centre_field.specs.Rows.{column_at, start_at, square_at, listed_at, IsShort, AreDistances, AreDistancesFrom, IsListing, IsLeastInRow, IsLeastInSpan, WritesSpan, FinishesRow, AreLeastInRows, start_from};

use crate::gaps::square_gap;
use cell_grid::{Workbench, place_at};

// A column that has the nearest kept cell from `start` on, up to where the next listed column starts;
// `square` is the squared distance along the column.
#[derive(Clone, Copy)]
struct ListedColumn {
    column: u32,
    start: u32,
    square: u64,
}

// The column that is listed at `j`.
#[inline(always)]
fn listed(bench: &Workbench, j: u32) -> ListedColumn
    requires j { j < (bench.now).frame.width }
    requires short { IsShort (bench.now).frame.width (bench.now).scratch j }
    ensures column { result.column ≡ column_at (bench.now).scratch j }
    ensures start { result.start ≡ start_at (bench.now).scratch j }
    ensures square { result.square ≡ square_at (bench.now).scratch j }
    ensures wide { (bench.now).frame.width ≤ 32768 }
{
    // A side has at most 32,768 cells.
    let _frame = bench.frame();
    ListedColumn {
        column: bench.scratch(3 * j) as u32,
        start: bench.scratch(3 * j + 1) as u32,
        square: bench.scratch(3 * j + 2),
    }
}

// Lists a column at `j`.
#[tactic(auto, unfolding(crate::specs::Rows::listed_at))]
#[inline(always)]
fn list(bench: &mut Workbench, j: u32, entry: ListedColumn)
    requires { j < (bench.old).frame.width }
    ensures { bench.new
        ≡ record bench.old { scratch = listed_at (bench.old).scratch j entry.column entry.start entry.square } }
{
    // A side has at most 32,768 cells.
    let _frame = bench.frame();
    bench.set_scratch(3 * j, entry.column as u64);
    bench.set_scratch(3 * j + 1, entry.start as u64);
    bench.set_scratch(3 * j + 2, entry.square);
}

// The squared distance from column `x` of the row to the nearest kept cell of a column, whose squared
// distance along the column is `square`.
#[inline(always)]
fn value(x: u32, column: u32, square: u64) -> u64
    requires x { x < 32768 }
    requires column { column < 32768 }
    requires square { square ≤ 1073676289 }
    ensures value { result ≡ square_of x column + square }
    ensures small { result ≤ 2147352578 }
{
    square_gap(x, column) + square
}

// How many of the first `n` listed columns stay when column `b` enters: up to the last one that is no
// farther than `b` where it starts.
fn staying(bench: &Workbench, n: u32, b: u32, square: u64) -> u32
    requires n { n ≤ (bench.now).frame.width }
    requires b { b < 32768 }
    requires square { square ≤ 1073676289 }
    requires short { (j : ℕ) → j < n → IsShort (bench.now).frame.width (bench.now).scratch j }
    ensures few { result ≤ n }
    ensures gone { (j : ℕ) → result ≤ j → j < n
        → square_of (start_at (bench.now).scratch j) b + square
        < square_of (start_at (bench.now).scratch j) (column_at (bench.now).scratch j)
        + square_at (bench.now).scratch j }
    ensures top { (k : ℕ) → suc k ≡ result
        → square_of (start_at (bench.now).scratch k) (column_at (bench.now).scratch k)
        + square_at (bench.now).scratch k
        ≤ square_of (start_at (bench.now).scratch k) b + square }
{
    let mut m = n;
    'last: while 0 < m {
        let last = listed(bench, m - 1);
        if value(last.start, last.column, last.square) <= value(last.start, b, square) {
            return m;
        }
        m -= 1;
    }
    0
}

// From where on the nearest kept cell is that of column `b` and no more that of a column before it.
#[tactic(auto, unfolding(crate::specs::Rows::start_from))]
#[inline(always)]
fn start_after(column: u32, column_square: u64, b: u32, square: u64) -> u64
    requires order { column < b }
    requires b { b < 32768 }
    requires column_square { column_square ≤ 1073676289 }
    requires square { square ≤ 1073676289 }
    ensures { result ≡ start_from column column_square b square }
{
    let left = column as u64 * column as u64 + column_square;
    let right = b as u64 * b as u64 + square;
    if right < left {
        0
    } else {
        (right - left) / (2 * (b - column)) as u64 + 1
    }
}

// Column `b` enters the list of `n` columns from `from` on and before it, and the new number of columns is given.
fn enter(bench: &mut Workbench, y: u32, from: u32, n: u32, b: u32, distance: u32) -> u32
    requires from { from ≤ b }
    requires b { b < (bench.old).frame.width }
    requires distance { distance ≡ number_at bench.old b y }
    requires short { distance < 32768 }
    requires listing { IsListing bench.old y from (bench.old).scratch n b }
    ensures rest { bench.new ≡ record bench.old { scratch = (bench.new).scratch } }
    ensures listing { IsListing bench.old y from (bench.new).scratch result (b + 1) }
{
    let width = bench.frame().width;
    let square = distance as u64 * distance as u64;
    let m = staying(bench, n, b, square);
    if m == 0 {
        list(
            bench,
            0,
            ListedColumn {
                column: b,
                start: 0,
                square,
            },
        );
        return 1;
    }
    let last = listed(bench, m - 1);
    let start = start_after(last.column, last.square, b, square);
    if start < width as u64 {
        list(
            bench,
            m,
            ListedColumn {
                column: b,
                start: start as u32,
                square,
            },
        );
        return m + 1;
    }
    m
}

// Lists the columns of row `y` from `from` up to `to`, from its distances along the columns, and gives
// their number.
fn list_span(bench: &mut Workbench, y: u32, from: u32, to: u32) -> u32
    requires y { y < (bench.old).frame.height }
    requires order { from ≤ to }
    requires to { to ≤ (bench.old).frame.width }
    requires distances { AreDistancesFrom bench.old y from }
    ensures rest { bench.new ≡ record bench.old { scratch = (bench.new).scratch } }
    ensures listing { IsListing bench.old y from (bench.new).scratch result to }
{
    let frame = bench.frame();
    let mut n = 0;
    'columns: for b in from..to {
        let distance = bench.clearance_at(place_at(frame, b, y));
        if distance != u32::MAX {
            n = enter(bench, y, from, n, b, distance);
        }
    }
    n
}

// Where in the list the nearest column at `x` stands, at `k` or after it.
#[inline(always)]
fn nearest(bench: &Workbench, n: u32, k: u32, x: u32) -> u32
    requires n { n ≤ (bench.now).frame.width }
    requires k { k < n }
    requires short { (j : ℕ) → j < n → IsShort (bench.now).frame.width (bench.now).scratch j }
    requires started { start_at (bench.now).scratch k ≤ x }
    ensures inside { result < n }
    ensures started { start_at (bench.now).scratch result ≤ x }
    ensures next { suc result < n → x < start_at (bench.now).scratch (suc result) }
{
    // A side has at most 32,768 cells.
    let _frame = bench.frame();
    let mut j = k;
    'further: while j + 1 < n {
        if x < listed(bench, j + 1).start {
            return j;
        }
        j += 1;
    }
    j
}

// Writes the least square at each place of row `y` from `from` up to `to`, from the list of its columns.
fn write_span(bench: &mut Workbench, y: u32, from: u32, to: u32, n: u32)
    requires y { y < (bench.old).frame.height }
    requires order { from ≤ to }
    requires to { to ≤ (bench.old).frame.width }
    requires some { 0 < n }
    requires listing { IsListing bench.old y from (bench.old).scratch n to }
    ensures rest { bench.new ≡ record bench.old { clearances = (bench.new).clearances } }
    ensures span { WritesSpan (IsLeastInSpan bench.old y from to) bench.old bench.new y from to }
{
    let frame = bench.frame();
    let mut k = 0;
    'places: for x in from..to {
        k = nearest(bench, n, k, x);
        let column = listed(bench, k);
        let least = value(x, column.column, column.square) as u32;
        bench.set_clearance_at(place_at(frame, x, y), least);
    }
}

// The columns of row `y` from `from` up to `to` get their least squares over the columns of that span.
fn finish_span(bench: &mut Workbench, y: u32, from: u32, to: u32)
    requires y { y < (bench.old).frame.height }
    requires order { from ≤ to }
    requires to { to ≤ (bench.old).frame.width }
    requires distances { AreDistancesFrom bench.old y from }
    ensures rest { bench.new
        ≡ record bench.old { clearances = (bench.new).clearances; scratch = (bench.new).scratch } }
    ensures span { WritesSpan (IsLeastInSpan bench.old y from to) bench.old bench.new y from to }
{
    let n = list_span(bench, y, from, to);
    if 0 < n {
        write_span(bench, y, from, to, n);
    }
}

// The first column of row `y` at or after `from` that has no kept cell in the row, or the end of the row.
fn gap_start(bench: &Workbench, y: u32, from: u32) -> u32
    requires y { y < (bench.now).frame.height }
    requires from { from ≤ (bench.now).frame.width }
    ensures low { from ≤ result }
    ensures high { result ≤ (bench.now).frame.width }
    ensures kept { (a : ℕ) → from ≤ a → a < result → number_at bench.now a y ≡ 0 }
    ensures found { result < (bench.now).frame.width → number_at bench.now result y ≢ 0 }
{
    let frame = bench.frame();
    'columns: for x in from..frame.width {
        if bench.clearance_at(place_at(frame, x, y)) != 0 {
            return x;
        }
    }
    frame.width
}

// The first column of row `y` at or after `from` that has a kept cell in the row, or the end of the row.
fn gap_end(bench: &Workbench, y: u32, from: u32) -> u32
    requires y { y < (bench.now).frame.height }
    requires from { from ≤ (bench.now).frame.width }
    ensures low { from ≤ result }
    ensures high { result ≤ (bench.now).frame.width }
    ensures far { (a : ℕ) → from ≤ a → a < result → number_at bench.now a y ≢ 0 }
    ensures found { result < (bench.now).frame.width → number_at bench.now result y ≡ 0 }
{
    let frame = bench.frame();
    'columns: for x in from..frame.width {
        if bench.clearance_at(place_at(frame, x, y)) == 0 {
            return x;
        }
    }
    frame.width
}

// From the distances along columns to the least squares, in row `y`: gap by gap between kept cells.
fn finish_row(bench: &mut Workbench, y: u32)
    requires y { y < (bench.old).frame.height }
    requires distances { AreDistances bench.old y }
    ensures { FinishesRow bench.old bench.new y }
{
    let width = bench.frame().width;
    let mut from = 0;
    'gaps: while from < width {
        let start = gap_start(bench, y, from);
        let end = gap_end(bench, y, start);
        if start < end {
            finish_span(bench, y, start.max(1) - 1, (end + 1).min(width));
        }
        from = end;
    }
}

// From the distances along columns to the least squares, in all rows.
pub(crate) fn finish_rows(bench: &mut Workbench)
    requires { (y : ℕ) → y < (bench.old).frame.height → AreDistances bench.old y }
    ensures rest { bench.new
        ≡ record bench.old { clearances = (bench.new).clearances; scratch = (bench.new).scratch } }
    ensures least { AreLeastInRows bench.old bench.new }
{
    let frame = bench.frame();
    'rows: for y in 0..frame.height {
        finish_row(bench, y);
    }
}
