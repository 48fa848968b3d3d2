// Ways along the segments of an outline, from one end to the other.
ghost use Rattle.std.specs.Prelude.{◌≡◌, ℕ, ◌^◌, ◌<◌, ◌≤◌, ◌++◌, vec_len, IfOk, OnOk};
ghost use Rattle.std.specs.List.{All, flat_map};
ghost use Rattle.board_base.specs.Places.{IsPlace};
ghost use Rattle.shape_parts.specs.Parts.{IsPart, IsPiece};
ghost use Rattle.outline_loops.specs.Segments.{is_same as is_same_of};
ghost use Rattle.outline_loops.specs.Ways.{rank_of, place_of, way_of, from_of, to_of, back_of, line_ways, part_ways, piece_ways, object_ways, drawn_ways, HasParts, IsWay, AreWays};

use board_base::Point;
use shape_parts::{Painted, Part, Piece};
use std::alloc::{AllocError, Global};

// How far coordinates reach from zero, in nanometres.
const REACH: i64 = 500_000_000;

// More than a row of points has.
const ROW: u64 = 1 << 30;

/// More ranks than there are.
pub(crate) const RANKS: u128 = 1 << 60;

// The place of a point in the order of rows.
#[tactic(auto, unfolding(crate::specs::Ways::rank_of))]
fn rank(p: Point) -> u64
    requires { IsPlace p }
    ensures value { result ≡ rank_of p }
    ensures small { result < 2 ^ 60 }
{
    (p.y + REACH) as u64 * ROW + (p.x + REACH) as u64
}

// The point with this rank.
#[tactic(auto, unfolding(crate::specs::Ways::place_of))]
fn place(rank: u64) -> Point
    requires { rank < 2 ^ 60 }
    ensures { result ≡ place_of rank }
{
    Point {
        x: (rank % ROW) as i64 - REACH,
        y: (rank / ROW) as i64 - REACH,
    }
}

// The way from one point to another.
#[tactic(auto, unfolding(crate::specs::Ways::way_of))]
fn way(a: Point, b: Point) -> u128
    requires a { IsPlace a }
    requires b { IsPlace b }
    ensures value { result ≡ way_of a b }
    ensures small { result < 2 ^ 120 }
{
    rank(a) as u128 * RANKS + rank(b) as u128
}

/// Where a way begins.
#[tactic(auto, unfolding(crate::specs::Ways::from_of))]
pub(crate) fn start(way: u128) -> Point
    requires { way < 2 ^ 120 }
    ensures { result ≡ from_of way }
{
    place((way / RANKS) as u64)
}

/// Where a way ends.
#[tactic(auto, unfolding(crate::specs::Ways::to_of))]
pub(crate) fn end(way: u128) -> Point
    requires { way < 2 ^ 120 }
    ensures { result ≡ to_of way }
{
    place((way % RANKS) as u64)
}

/// The way back.
#[tactic(auto, unfolding(crate::specs::Ways::back_of))]
pub(crate) fn back(way: u128) -> u128
    requires { way < 2 ^ 120 }
    ensures { result ≡ back_of way }
{
    way % RANKS * RANKS + way / RANKS
}

// Whether two points are one.
#[tactic(auto, unfolding(crate::specs::Segments::is_same))]
pub(crate) fn is_same(p: Point, q: Point) -> bool
    ensures { result ≡ is_same_of p q }
{
    p.x == q.x && p.y == q.y
}

// Adds both ways along a line of some length.
fn add_line(ways: &mut Vec<u128>, a: Point, b: Point) -> Result<(), AllocError>
    requires a { IsPlace a }
    requires b { IsPlace b }
    ensures { OnOk result (ways.new.items ≡ ways.old.items ++ line_ways a b) }
{
    if is_same(a, b) {
        return Ok(());
    }
    ways.push(way(a, b))?;
    ways.push(way(b, a))?;
    Ok(())
}

// Adds the ways along the centre line of a piece that is on.
fn add_piece(ways: &mut Vec<u128>, piece: &Piece) -> Result<(), AllocError>
    requires { IsPiece piece.now }
    ensures { OnOk result (ways.new.items ≡ ways.old.items ++ piece_ways piece.now) }
{
    if !piece.on {
        return Ok(());
    }
    match &piece.part {
        Part::Disc { .. } => Ok(()),
        Part::Capsule { a, b, .. } => add_line(ways, *a, *b),
        Part::Area { .. } => Ok(()),
    }
}

// Adds the ways along the centre lines of some pieces.
fn add_pieces(ways: &mut Vec<u128>, pieces: &[Piece]) -> Result<(), AllocError>
    requires { All IsPiece pieces.now }
    ensures { OnOk result (ways.new.items ≡ ways.old.items ++ flat_map piece_ways pieces.now) }
{
    'pieces: for piece in pieces {
        add_piece(ways, piece)?;
    }
    Ok(())
}

// Adds the ways along the centre lines of a dark object.
fn add_object(ways: &mut Vec<u128>, object: &Painted) -> Result<(), AllocError>
    ensures value { OnOk result (ways.new.items ≡ ways.old.items ++ object_ways object.now) }
    ensures parts { HasParts object.now }
{
    if !object.dark {
        return Ok(());
    }
    add_pieces(ways, object.shape.pieces())?;
    Ok(())
}

// The ways along the centre lines of all dark objects.
fn drawn(alloc: Global, painted: &Vec<Painted>) -> Result<Vec<u128>, AllocError>
    ensures value { IfOk result (λ ways. ways.items ≡ drawn_ways painted.now.items) }
    ensures parts { OnOk result (All HasParts painted.now.items) }
{
    let mut ways = Vec::new(alloc);
    'objects: for object in painted {
        add_object(&mut ways, object)?;
    }
    Ok(ways)
}

/// The ways along the segments of the outline, each once, in their order.
pub(crate) fn ways(alloc: Global, painted: &Vec<Painted>) -> Result<Vec<u128>, AllocError>
    ensures { IfOk result (λ ways. AreWays painted.now.items ways.items) }
{
    let mut ways = drawn(alloc, painted)?;
    ways.sort_unstable();
    ways.dedup();
    Ok(ways)
}
