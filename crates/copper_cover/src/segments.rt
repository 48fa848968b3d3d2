// What a disc or a capsule, as a segment of some width, makes of the bits of a row. Lengths are in
// nanometres.
ghost use Rattle.std.specs.Prelude.{◌≡◌, ℕ, ℤ, pos, ◌≤ℤ◌, ◌<ℤ◌, ◌<◌, ◌≤◌, false, int_lt, length, slice_index_or};
ghost use Rattle.board_base.specs.Lattice.{IsCellReach};
ghost use Rattle.board_base.specs.Places.{IsNearPlace};
ghost use Rattle.shape_parts.specs.declared.shape.Part.TheVariants.{Capsule};
ghost use Rattle.shape_parts.specs.Parts.{IsWidth, grown, shrunk, twice, part_touches, part_covers};
ghost use Rattle.copper_cover.specs.Rows.{IsRow, centre_in, is_in_span, bit_after as bit_after_of};

use crate::columns::{Row, misses_row};
use crate::rows::double;
use crate::runs::{columns_at, mark};
use board_base::Point;
use cell_grid::Span;

// Whether the first is below the second.
fn is_below(a: i64, b: i64) -> bool
    ensures { result ≡ int_lt a b }
{
    a < b
}

// The width `d` with the reach of a cell more on each side.
#[tactic(auto, unfolding(shape_parts::specs::Parts::grown))]
fn wider(d: i64, h: i64) -> i64
    requires d { IsWidth d }
    requires reach { IsCellReach h }
    ensures value { result ≡ grown d h }
    ensures low { pos 0 <ℤ result }
    ensures high { result ≤ℤ pos 1000400000 }
{
    d + 2 * h
}

// The width `d` with the reach of a cell less on each side.
#[tactic(auto, unfolding(shape_parts::specs::Parts::shrunk, shape_parts::specs::Parts::twice))]
fn narrower(d: i64, h: i64) -> i64
    requires d { IsWidth d }
    requires reach { IsCellReach h }
    requires wide { twice h <ℤ d }
    ensures value { result ≡ shrunk d h }
    ensures low { pos 0 ≤ℤ result }
    ensures high { result ≤ℤ pos 1000000000 }
{
    d - 2 * h
}

// The columns of a row of `n` cells that a segment of the width `d` touches.
fn touched_columns(row: Row, n: u32, a: Point, b: Point, d: i64) -> Span
    requires row { IsRow row n }
    requires a { IsNearPlace a }
    requires b { IsNearPlace b }
    requires d { IsWidth d }
    ensures holds { (k : ℕ) → k < n → part_touches (centre_in row k) row.h (Capsule a b d) ≡ is_in_span result k }
    ensures from { result.from ≤ n }
    ensures to { result.to ≤ n }
{
    if is_below(0, d) {
        columns_at(row, n, a, b, wider(d, row.h))
    } else {
        Span { from: 0, to: 0 }
    }
}

// The columns of a row of `n` cells that a segment of the width `d` covers.
fn covered_columns(row: Row, n: u32, a: Point, b: Point, d: i64) -> Span
    requires row { IsRow row n }
    requires a { IsNearPlace a }
    requires b { IsNearPlace b }
    requires d { IsWidth d }
    ensures holds { (k : ℕ) → k < n → part_covers (centre_in row k) row.h (Capsule a b d) ≡ is_in_span result k }
    ensures from { result.from ≤ n }
    ensures to { result.to ≤ n }
{
    if is_below(double(row.h), d) {
        columns_at(row, n, a, b, narrower(d, row.h))
    } else {
        Span { from: 0, to: 0 }
    }
}

// What a segment makes of the bits: of those of a run of columns that it touches, and of one that it covers.
fn step_segment(
    touched: &mut [bool],
    covered: &mut [bool],
    a: Point,
    b: Point,
    d: i64,
    on: bool,
    row: Row,
)
    requires row { IsRow row (length touched.old) }
    requires covered { length covered.old ≡ length touched.old }
    requires a { IsNearPlace a }
    requires b { IsNearPlace b }
    requires d { IsWidth d }
    ensures touched { (k : ℕ) → k < length touched.new
        → slice_index_or touched.new k false
        ≡ bit_after_of on (part_touches (centre_in row k) row.h (Capsule a b d)) (part_covers (centre_in row k) row.h (Capsule a b d)) (slice_index_or touched.old k false) }
    ensures covered { (k : ℕ) → k < length covered.new
        → slice_index_or covered.new k false
        ≡ bit_after_of on (part_covers (centre_in row k) row.h (Capsule a b d)) (part_touches (centre_in row k) row.h (Capsule a b d)) (slice_index_or covered.old k false) }
{
    let n = touched.len() as u32;
    let touches = touched_columns(row, n, a, b, d);
    let covers = covered_columns(row, n, a, b, d);
    if on {
        mark(touched, touches, true);
        mark(covered, covers, true);
    } else {
        mark(touched, covers, false);
        mark(covered, touches, false);
    }
}

// What a segment makes of the bits; nothing at little cost where it misses the row.
pub(crate) fn add_segment(
    touched: &mut [bool],
    covered: &mut [bool],
    a: Point,
    b: Point,
    d: i64,
    on: bool,
    row: Row,
)
    requires row { IsRow row (length touched.old) }
    requires covered { length covered.old ≡ length touched.old }
    requires a { IsNearPlace a }
    requires b { IsNearPlace b }
    requires d { IsWidth d }
    ensures touched { (k : ℕ) → k < length touched.new
        → slice_index_or touched.new k false
        ≡ bit_after_of on (part_touches (centre_in row k) row.h (Capsule a b d)) (part_covers (centre_in row k) row.h (Capsule a b d)) (slice_index_or touched.old k false) }
    ensures covered { (k : ℕ) → k < length covered.new
        → slice_index_or covered.new k false
        ≡ bit_after_of on (part_covers (centre_in row k) row.h (Capsule a b d)) (part_touches (centre_in row k) row.h (Capsule a b d)) (slice_index_or covered.old k false) }
{
    if misses_row(row.y, wider(d, row.h), a.y, b.y) {
        return;
    }
    step_segment(touched, covered, a, b, d, on, row);
}
