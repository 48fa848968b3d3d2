//! Vector lines: the corners of a line of a width between two points.
ghost use Rattle.std.specs.Prelude.{◌≡◌, ◌*◌, ◌<◌, ◌≤◌, ◌⊎◌, ◌*ℤ◌, neg_ℤ, pos, ◌==◌, unsigned_abs, length, MatchResult, IfOk, Ok, Err};
ghost use Rattle.std.specs.Option.{IfSome};
ghost use Rattle.fixed_num.specs.Rounding.{round_div_of, IsNearest};
ghost use Rattle.plane_arcs.specs.Vectors.{IsUpTo, vector as vector_of, vector_length};
ghost use Rattle.shape_parts.specs.Parts.{IsWidth};
ghost use Rattle.apertures.specs.declared.aperture.ApertureError.TheVariants.{Memory};
ghost use Rattle.apertures.specs.Figures.{IsBounded};
ghost use Rattle.apertures.specs.Primitives.{side_of as side_of_way, opposite as opposite_of, line_corners as line_corners_of, turned_area as turned_area_of, turned_line as turned_line_of};

use crate::aperture::ApertureError;
use crate::turns::{added, turned_area};
use board_base::Point;
use fixed_num::round_div;
use number_laws::product;
use plane_arcs::length_of;
use shape_parts::Part;
use std::alloc::Global;

// The way from a point to another.
#[tactic(auto, unfolding(plane_arcs::specs::Vectors::vector))]
fn way(from: Point, to: Point) -> Point
    requires from { IsUpTo 30000000000000000 from }
    requires to { IsUpTo 30000000000000000 to }
    ensures value { result ≡ vector_of from to }
    ensures size { IsUpTo 60000000000000000 result }
{
    Point {
        x: to.x - from.x,
        y: to.y - from.y,
    }
}

// A coordinate of a way times a width.
fn by_width(v: i64, w: i64) -> i128
    ensures value { result ≡ v *ℤ w }
    ensures size { unsigned_abs result ≡ unsigned_abs v * unsigned_abs w }
{
    product(v, w)
}

// The length of a way, cut.
fn length(v: Point) -> u64
    requires { IsUpTo 60000000000000000 v }
    ensures value { result ≡ vector_length v }
    ensures sides { IsUpTo result v }
    ensures bound { result ≤ 100000000000000000 }
{
    length_of(v)
}

// The quotient by a number, to the nearest.
fn by_number(v: i128, n: u64) -> i128
    requires { 0 < n }
    ensures value { result ≡ round_div_of v (pos n) }
    ensures nearest { IsNearest v (pos n) result }
{
    round_div(v, n as i128)
}

// A number that fits a coordinate.
fn narrow(v: i128) -> i64
    requires { unsigned_abs v ≤ 1000000000 }
    ensures { result ≡ v }
{
    v as i64
}

// A coordinate of the side of a line: half of a width by the way along the other axis.
fn side_along(v: i64, w: i64, length: u64) -> i64
    requires v { unsigned_abs v ≤ length }
    requires length { 0 < length }
    requires bound { length ≤ 100000000000000000 }
    requires w { IsWidth w }
    ensures value { result ≡ round_div_of (v *ℤ w) (pos (2 * length)) }
    ensures size { unsigned_abs result ≤ 1000000000 }
{
    narrow(by_number(by_width(v, w), 2 * length))
}

// From a line to its side.
#[tactic(auto, unfolding(crate::specs::Primitives::side_of))]
fn side_of(v: Point, w: i64) -> Point
    requires v { IsUpTo 60000000000000000 v }
    requires some { 0 < vector_length v }
    requires w { IsWidth w }
    ensures value { result ≡ side_of_way v w }
    ensures size { IsUpTo 1000000000 result }
{
    let length = length(v);
    Point {
        x: side_along(-v.y, w, length),
        y: side_along(v.x, w, length),
    }
}

// The opposite way.
fn opposite(v: Point) -> Point
    requires { IsUpTo 1000000000 v }
    ensures value { result ≡ opposite_of v }
    ensures size { IsUpTo 1000000000 result }
{
    Point { x: -v.x, y: -v.y }
}

// The four corners of a line.
#[tactic(auto, unfolding(crate::specs::Primitives::line_corners))]
fn line_corners(a: Point, b: Point, side: Point) -> [Point; 4]
    requires a { IsUpTo 30000000000000000 a }
    requires b { IsUpTo 30000000000000000 b }
    requires side { IsUpTo 1000000000 side }
    ensures { result ≡ line_corners_of a b side }
{
    let other = opposite(side);
    [
        added(a, side),
        added(b, side),
        added(b, other),
        added(a, other),
    ]
}

// Whether two points are one.
fn has_no_length(a: Point, b: Point) -> bool
    requires a { IsUpTo 30000000000000000 a }
    requires b { IsUpTo 30000000000000000 b }
    ensures { result ≡ (vector_length (vector_of a b) == 0) }
{
    length(way(a, b)) == 0
}

// The corners of a line of a width between two points.
fn corners_of(a: Point, b: Point, w: i64) -> [Point; 4]
    requires a { IsUpTo 30000000000000000 a }
    requires b { IsUpTo 30000000000000000 b }
    requires some { 0 < vector_length (vector_of a b) }
    requires w { IsWidth w }
    ensures { result ≡ line_corners_of a b (side_of_way (vector_of a b) w) }
{
    line_corners(a, b, side_of(way(a, b), w))
}

// A line of a width between two points, turned.
fn turned_corners(
    alloc: Global,
    a: Point,
    b: Point,
    w: i64,
    turn: u64,
) -> Result<Part, ApertureError>
    requires a { IsUpTo 30000000000000000 a }
    requires b { IsUpTo 30000000000000000 b }
    requires some { 0 < vector_length (vector_of a b) }
    requires w { IsWidth w }
    requires turn { turn < 360000000 }
    ensures value { MatchResult result (λ p. turned_area_of turn (line_corners_of a b (side_of_way (vector_of a b) w)) ≡ Ok p)
        (λ e. (e ≡ Memory) ⊎ (turned_area_of turn (line_corners_of a b (side_of_way (vector_of a b) w)) ≡ Err e)) }
    ensures bounded { IfOk result IsBounded }
{
    turned_area(alloc, &corners_of(a, b, w), turn)
}

// A line of a width between two points, turned; none where it has no length.
#[tactic(auto, unfolding(crate::specs::Primitives::turned_line))]
pub(crate) fn turned_line(
    alloc: Global,
    a: Point,
    b: Point,
    w: i64,
    turn: u64,
) -> Result<Option<Part>, ApertureError>
    requires a { IsUpTo 30000000000000000 a }
    requires b { IsUpTo 30000000000000000 b }
    requires w { IsWidth w }
    requires turn { turn < 360000000 }
    ensures value { MatchResult result (λ p. turned_line_of turn a b w ≡ Ok p)
        (λ e. (e ≡ Memory) ⊎ (turned_line_of turn a b w ≡ Err e)) }
    ensures bounded { IfOk result (λ p. IfSome p IsBounded) }
{
    if has_no_length(a, b) {
        return Ok(None);
    }
    let part = turned_corners(alloc, a, b, w, turn)?;
    Ok(Some(part))
}
