// Rows of bits by marks: each edge that crosses a row turns the mark of the first column at or right of the
// crossing, and an odd number of marks up to a column says that the area holds its centre.
ghost use Rattle.std.specs.Prelude.{◌≡◌, ℕ, ◌<◌, ◌≤◌, ◌*◌, ◌||◌, ℤ, pos, ◌+ℤ◌, ◌-ℤ◌, ◌≤ℤ◌, unsigned_abs, leb, int_le, int_lt, false, length, slice_index_or, replicate};
ghost use Rattle.board_base.specs.Places.{IsNearCoordinate, IsNearPlace};
ghost use Rattle.board_base.specs.Lattice.{IsPitch, IsLimit, half_of};
ghost use Rattle.poly_area.specs.Crossing.{xor};
ghost use Rattle.poly_area.specs.Area.{edges_of, edge_at, crosses, area_holds, on_row, odd_of};
ghost use Rattle.poly_area.specs.Blocks.{block_edges};
ghost use Rattle.poly_area.specs.Rows.{column_x, centre_at, running};

use crate::{Block, Poly};
use board_base::{Point, first_at};

// Half of a pitch.
#[tactic(auto, unfolding(board_base::specs::Lattice::half_of))]
fn half(pitch: i64) -> i64
    requires { IsPitch pitch }
    ensures value { result ≡ half_of pitch }
    ensures size { unsigned_abs result ≤ 200000 }
{
    pitch.div_euclid(2)
}

// The way from `west` to `x`, and half a pitch: a column of a lattice whose first middle is at `west` is
// at `x` or right of it where its own middle is at this limit or past it.
fn limit_of(x: i64, west: i64, pitch: i64) -> i64
    requires x { IsNearCoordinate x }
    requires west { IsNearCoordinate west }
    requires pitch { IsPitch pitch }
    ensures value { result ≡ (x -ℤ west) +ℤ half_of pitch }
    ensures size { IsLimit result }
{
    x - west + half(pitch)
}

// A column that isn't left of the first one, as a number.
fn number_of(column: i32) -> usize
    requires { pos 0 ≤ℤ column }
    ensures { pos result ≡ column }
{
    column as usize
}

// A column, clipped to so many.
fn clipped(column: i32, width: usize) -> usize
    ensures { (k : ℕ) → k < width → leb result k ≡ int_le column (pos k) }
{
    if column <= 0 {
        return 0;
    }
    let k = number_of(column);
    if k < width { k } else { width }
}

// The first of the columns whose centre is at `x` or right of it, or their number where there is none.
fn first_column(x: i64, west: i64, pitch: i64, width: usize) -> usize
    requires x { IsNearCoordinate x }
    requires west { IsNearCoordinate west }
    requires pitch { IsPitch pitch }
    ensures { (k : ℕ) → k < width → leb result k ≡ int_le x (column_x west pitch k) }
{
    let limit = limit_of(x, west, pitch);
    clipped(first_at(limit, pitch), width)
}

// Turns the mark of a column, where there is one.
fn flip(marks: &mut [bool], c: usize)
    ensures { (k : ℕ) → k < length marks.new → running marks.new k ≡ xor (running marks.old k) (leb c k) }
{
    if c < marks.len() {
        marks[c] = !marks[c];
    }
}

// Turns the mark of the first column at or right of the place where the edge crosses the row.
fn flip_edge(marks: &mut [bool], poly: &Poly, edge: u32, y: i64, west: i64, pitch: i64)
    requires edge { edge < length (edges_of poly.now) }
    requires west { IsNearCoordinate west }
    requires pitch { IsPitch pitch }
    ensures { (k : ℕ) → k < length marks.new
        → running marks.new k ≡ xor (running marks.old k) (crosses (on_row (column_x west pitch k) y) (edge_at poly.now edge)) }
{
    match poly.row_toggle(edge, y) {
        Some(x) => {
            let c = first_column(x, west, pitch, marks.len());
            flip(marks, c);
        }
        None => {}
    }
}

// Whether a block stands on one side of the row: none of its edges crosses it.
fn passes(block: Block, y: i64) -> bool
    ensures { result ≡ (int_le block.high y || int_lt y block.low) }
{
    if block.high <= y { true } else { y < block.low }
}

// Turns a mark for each edge of a block that crosses the row, edge by edge.
fn flip_each(marks: &mut [bool], poly: &Poly, block: u32, y: i64, west: i64, pitch: i64)
    requires block { 16 * block < length (edges_of poly.now) }
    requires west { IsNearCoordinate west }
    requires pitch { IsPitch pitch }
    ensures { (k : ℕ) → k < length marks.new
        → running marks.new k ≡ xor (running marks.old k) (odd_of (crosses (on_row (column_x west pitch k) y)) (block_edges (edges_of poly.now) block)) }
{
    let end = poly.block_end(block);
    'edges: for edge in 16 * block..end {
        flip_edge(marks, poly, edge, y, west, pitch);
    }
}

// Turns a mark for each edge of a block that crosses the row.
fn flip_block(marks: &mut [bool], poly: &Poly, block: u32, y: i64, west: i64, pitch: i64)
    requires block { 16 * block < length (edges_of poly.now) }
    requires west { IsNearCoordinate west }
    requires pitch { IsPitch pitch }
    ensures { (k : ℕ) → k < length marks.new
        → running marks.new k ≡ xor (running marks.old k) (odd_of (crosses (on_row (column_x west pitch k) y)) (block_edges (edges_of poly.now) block)) }
{
    if passes(poly.block(block), y) {
        return;
    }
    flip_each(marks, poly, block, y, west, pitch);
}

// Turns a mark for each edge that crosses the row.
fn flip_edges(marks: &mut [bool], poly: &Poly, y: i64, west: i64, pitch: i64)
    requires west { IsNearCoordinate west }
    requires pitch { IsPitch pitch }
    ensures { (k : ℕ) → k < length marks.new
        → running marks.new k ≡ xor (running marks.old k) (area_holds (on_row (column_x west pitch k) y) poly.now) }
{
    'all: for block in 0..poly.blocks() {
        flip_block(marks, poly, block, y, west, pitch);
    }
}

// Turns marks into their running parity.
fn run_parity(marks: &mut [bool])
    ensures { (k : ℕ) → k < length marks.new → slice_index_or marks.new k false ≡ running marks.old k }
{
    let mut odd = false;
    'columns: for k in 0..marks.len() {
        if marks[k] {
            odd = !odd;
        }
        marks[k] = odd;
    }
}

// Takes all marks off.
fn clear(marks: &mut [bool])
    ensures { marks.new ≡ replicate (length marks.old) false }
{
    marks.fill(false);
}

/// Which of a row's centres the area holds, written over whatever stood in the marks: mark `k` is the
/// centre `k` steps of the pitch east of the first, all in nanometres.
pub fn row_bits(marks: &mut [bool], poly: &Poly, first: Point, pitch: i64)
    requires first { IsNearPlace first }
    requires pitch { IsPitch pitch }
    ensures { (k : ℕ) → k < length marks.new → slice_index_or marks.new k false ≡ area_holds (centre_at first pitch k) poly.now }
{
    clear(marks);
    flip_edges(marks, poly, first.y, first.x, pitch);
    run_parity(marks);
}
