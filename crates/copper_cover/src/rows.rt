// The bits of a row of cells: which cells a shape touches, and which it covers. Lengths are in nanometres.
ghost use Rattle.std.specs.Prelude.{◌≡◌, ℕ, ℤ, pos, ◌≤ℤ◌, ◌<ℤ◌, ◌<◌, ◌*◌, false, not, ◌&&◌, ◌||◌, length, replicate, slice_index_or};
ghost use Rattle.std.specs.List.{All, list_any};
ghost use Rattle.board_base.specs.Lattice.{IsCellReach};
ghost use Rattle.board_base.specs.Places.{IsNearPlace, IsSpan};
ghost use Rattle.board_base.specs.Near.{near_of};
ghost use Rattle.poly_area.specs.Area.{edges_of, edge_at, is_near, area_near, area_holds};
ghost use Rattle.poly_area.specs.Blocks.{block_edges};
ghost use Rattle.shape_parts.specs.declared.shape.Part.TheVariants.{Area};
ghost use Rattle.shape_parts.specs.Parts.{IsPiece, twice, part_touches, part_covers};
ghost use Rattle.shape_parts.specs.Shapes.{shape_touches, shape_covers};
ghost use Rattle.copper_cover.specs.Rows.{IsRow, centre_in, bit_after as bit_after_of};

use crate::columns::{Row, centre_at, columns_near, misses_row};
use crate::segments::add_segment;
use board_base::{Point, centre};
use plane_geom::near;
use poly_area::{Poly, row_bits};
use shape_parts::{Part, Piece};

// What a part or an object makes of a bit.
pub(crate) fn bit_after(on: bool, adds: bool, takes: bool, bit: bool) -> bool
    ensures { result ≡ bit_after_of on adds takes bit }
{
    if on {
        if bit { true } else { adds }
    } else if bit {
        !takes
    } else {
        false
    }
}

// Twice the reach of a cell.
#[tactic(auto, unfolding(shape_parts::specs::Parts::twice))]
pub(crate) fn double(h: i64) -> i64
    requires reach { IsCellReach h }
    ensures value { result ≡ twice h }
    ensures low { pos 0 <ℤ result }
    ensures high { result ≤ℤ pos 400000 }
{
    2 * h
}

// Takes all bits off.
fn clear(bits: &mut [bool])
    ensures { bits.new ≡ replicate (length bits.old) false }
{
    bits.fill(false);
}

// Whether a bit is on, or a point is near a segment.
fn near_or(bit: bool, q: Point, a: Point, b: Point, d: i64) -> bool
    requires q { IsNearPlace q }
    requires a { IsNearPlace a }
    requires b { IsNearPlace b }
    requires d { IsSpan d }
    ensures { result ≡ (bit || near_of q a b d) }
{
    if bit { true } else { near(q, a, b, d) }
}

// Turns the bits on whose centres are near a segment.
fn mark_near(bits: &mut [bool], a: Point, b: Point, d: i64, row: Row)
    requires a { IsNearPlace a }
    requires b { IsNearPlace b }
    requires d { IsSpan d }
    requires row { IsRow row (length bits.old) }
    ensures { (k : ℕ) → k < length bits.new
        → slice_index_or bits.new k false ≡ (slice_index_or bits.old k false || near_of (centre_in row k) a b d) }
{
    let n = bits.len() as u32;
    let columns = columns_near(a, b, d, row, n);
    'columns: for k in columns.from..columns.to {
        let q = centre_at(row, k, n);
        let bit = near_or(bits[k as usize], q, a, b, d);
        bits[k as usize] = bit;
    }
}

// Turns the bits on whose centres are near an edge.
fn mark_edge(bits: &mut [bool], poly: &Poly, edge: u32, d: i64, row: Row)
    requires edge { edge < length (edges_of poly.now) }
    requires d { IsSpan d }
    requires row { IsRow row (length bits.old) }
    ensures { (k : ℕ) → k < length bits.new
        → slice_index_or bits.new k false ≡ (slice_index_or bits.old k false || is_near (centre_in row k) d (edge_at poly.now edge)) }
{
    let (a, b) = poly.edge(edge);
    if misses_row(row.y, d, a.y, b.y) {
        return;
    }
    mark_near(bits, a, b, d, row);
}

// Turns the bits on whose centres are near an edge of a block, edge by edge.
fn mark_each(bits: &mut [bool], poly: &Poly, block: u32, d: i64, row: Row)
    requires block { 16 * block < length (edges_of poly.now) }
    requires d { IsSpan d }
    requires row { IsRow row (length bits.old) }
    ensures { (k : ℕ) → k < length bits.new
        → slice_index_or bits.new k false ≡ (slice_index_or bits.old k false || list_any (is_near (centre_in row k) d) (block_edges (edges_of poly.now) block)) }
{
    let end = poly.block_end(block);
    'edges: for edge in 16 * block..end {
        mark_edge(bits, poly, edge, d, row);
    }
}

// Turns the bits on whose centres are near an edge of a block; none at little cost where it misses the row.
fn mark_block(bits: &mut [bool], poly: &Poly, block: u32, d: i64, row: Row)
    requires block { 16 * block < length (edges_of poly.now) }
    requires d { IsSpan d }
    requires row { IsRow row (length bits.old) }
    ensures { (k : ℕ) → k < length bits.new
        → slice_index_or bits.new k false ≡ (slice_index_or bits.old k false || list_any (is_near (centre_in row k) d) (block_edges (edges_of poly.now) block)) }
{
    let bounds = poly.block(block);
    if misses_row(row.y, d, bounds.low, bounds.high) {
        return;
    }
    mark_each(bits, poly, block, d, row);
}

// Which centres are near an edge of an area, over whatever stood in the bits.
fn near_row(bits: &mut [bool], poly: &Poly, d: i64, row: Row)
    requires d { IsSpan d }
    requires row { IsRow row (length bits.old) }
    ensures { (k : ℕ) → k < length bits.new → slice_index_or bits.new k false ≡ area_near (centre_in row k) d poly.now }
{
    clear(bits);
    'all: for block in 0..poly.blocks() {
        mark_block(bits, poly, block, d, row);
    }
}

// Which centres an area holds, over whatever stood in the bits.
fn held_row(bits: &mut [bool], poly: &Poly, row: Row)
    requires row { IsRow row (length bits.old) }
    ensures { (k : ℕ) → k < length bits.new → slice_index_or bits.new k false ≡ area_holds (centre_in row k) poly.now }
{
    row_bits(bits, poly, centre(row.first, row.pitch), row.pitch);
}

// Whether an area touches a cell, by the edges near the centre and what the area holds.
fn touches_by(near: bool, held: bool) -> bool
    ensures { result ≡ (near || held) }
{
    if near { true } else { held }
}

// Whether it covers the cell.
fn covers_by(near: bool, held: bool) -> bool
    ensures { result ≡ (not near && held) }
{
    if near { false } else { held }
}

// What an area makes of the bits of touched and of covered cells, by the centres that it holds and those
// that are near an edge.
fn step_bits(touched: &mut [bool], covered: &mut [bool], held: &[bool], near: &[bool], on: bool)
    requires covered { length covered.old ≡ length touched.old }
    requires held { length held.now ≡ length touched.old }
    requires near { length near.now ≡ length touched.old }
    ensures touched { (k : ℕ) → k < length touched.new
        → slice_index_or touched.new k false
        ≡ bit_after_of on (slice_index_or near.now k false || slice_index_or held.now k false) (not (slice_index_or near.now k false) && slice_index_or held.now k false) (slice_index_or touched.old k false) }
    ensures covered { (k : ℕ) → k < length covered.new
        → slice_index_or covered.new k false
        ≡ bit_after_of on (not (slice_index_or near.now k false) && slice_index_or held.now k false) (slice_index_or near.now k false || slice_index_or held.now k false) (slice_index_or covered.old k false) }
{
    'columns: for k in 0..touched.len() {
        let touches = touches_by(near[k], held[k]);
        let covers = covers_by(near[k], held[k]);
        touched[k] = bit_after(on, touches, covers, touched[k]);
        covered[k] = bit_after(on, covers, touches, covered[k]);
    }
}

// What an area makes of the bits of touched and of covered cells.
fn add_area(
    touched: &mut [bool],
    covered: &mut [bool],
    held: &mut [bool],
    near: &mut [bool],
    poly: &Poly,
    on: bool,
    row: Row,
)
    requires row { IsRow row (length touched.old) }
    requires covered { length covered.old ≡ length touched.old }
    requires held { length held.old ≡ length touched.old }
    requires near { length near.old ≡ length touched.old }
    ensures touched { (k : ℕ) → k < length touched.new
        → slice_index_or touched.new k false
        ≡ bit_after_of on (part_touches (centre_in row k) row.h (Area poly.now)) (part_covers (centre_in row k) row.h (Area poly.now)) (slice_index_or touched.old k false) }
    ensures covered { (k : ℕ) → k < length covered.new
        → slice_index_or covered.new k false
        ≡ bit_after_of on (part_covers (centre_in row k) row.h (Area poly.now)) (part_touches (centre_in row k) row.h (Area poly.now)) (slice_index_or covered.old k false) }
{
    held_row(held, poly, row);
    near_row(near, poly, double(row.h), row);
    step_bits(touched, covered, held, near, on);
}

// What a piece makes of the bits of touched and of covered cells.
fn add_piece(
    touched: &mut [bool],
    covered: &mut [bool],
    held: &mut [bool],
    near: &mut [bool],
    piece: &Piece,
    row: Row,
)
    requires row { IsRow row (length touched.old) }
    requires covered { length covered.old ≡ length touched.old }
    requires held { length held.old ≡ length touched.old }
    requires near { length near.old ≡ length touched.old }
    requires piece { IsPiece piece.now }
    ensures touched { (k : ℕ) → k < length touched.new
        → slice_index_or touched.new k false
        ≡ bit_after_of piece.now.on (part_touches (centre_in row k) row.h piece.now.part) (part_covers (centre_in row k) row.h piece.now.part) (slice_index_or touched.old k false) }
    ensures covered { (k : ℕ) → k < length covered.new
        → slice_index_or covered.new k false
        ≡ bit_after_of piece.now.on (part_covers (centre_in row k) row.h piece.now.part) (part_touches (centre_in row k) row.h piece.now.part) (slice_index_or covered.old k false) }
{
    match &piece.part {
        Part::Disc { c, d } => add_segment(touched, covered, *c, *c, *d, piece.on, row),
        Part::Capsule { a, b, d } => add_segment(touched, covered, *a, *b, *d, piece.on, row),
        Part::Area { poly } => add_area(touched, covered, held, near, poly, piece.on, row),
    }
}

// Which cells of a row a shape touches and which it covers, over whatever stood in the bits.
pub(crate) fn fill(
    touched: &mut [bool],
    covered: &mut [bool],
    held: &mut [bool],
    near: &mut [bool],
    pieces: &[Piece],
    row: Row,
)
    requires row { IsRow row (length touched.old) }
    requires covered { length covered.old ≡ length touched.old }
    requires held { length held.old ≡ length touched.old }
    requires near { length near.old ≡ length touched.old }
    requires pieces { All IsPiece pieces.now }
    ensures touched { (k : ℕ) → k < length touched.new → slice_index_or touched.new k false ≡ shape_touches (centre_in row k) row.h pieces.now }
    ensures covered { (k : ℕ) → k < length covered.new → slice_index_or covered.new k false ≡ shape_covers (centre_in row k) row.h pieces.now }
{
    clear(touched);
    clear(covered);
    'pieces: for piece in pieces {
        add_piece(touched, covered, held, near, piece, row);
    }
}
