//! Vectors from the centre of a circle, in whole nanometres. Each is a point as seen from the centre.
ghost use Rattle.std.specs.Prelude.{◌≡◌, ◌≤◌, ◌<◌, ◌+◌, ◌*◌, ◌^◌, ◌*ℤ◌, ◌+ℤ◌, ◌-ℤ◌, pos, unsigned_abs, false};
ghost use Rattle.fixed_num.specs.Rounding.{round_div_of, IsNearest};
ghost use Rattle.board_base.specs.Places.{same_point};
ghost use Rattle.plane_arcs.specs.Vectors.{IsFarCoordinate, IsArcPlace, IsUpTo, vector as vector_of, added as sum_of, is_zero as is_zero_of, dot as dot_of, cross as cross_of, vector_length, scaled_to as scaled_of, brought_to as brought_of, between as between_of, quarter_on as quarter_of, ends_in as ends_of, last_quarter as last_of};

use crate::sums::{minus, plus};
use board_base::Point;
use fixed_num::{isqrt, round_div};
use number_laws::product;

// The way from a coordinate to another.
fn gap(from: i64, to: i64) -> i64
    requires from { IsFarCoordinate from }
    requires to { IsFarCoordinate to }
    ensures value { result ≡ to -ℤ from }
    ensures size { unsigned_abs result ≤ 60000000000000 }
{
    to - from
}

/// The vector from a point to another.
#[tactic(auto, unfolding(crate::specs::Vectors::vector))]
pub fn vector(from: Point, to: Point) -> Point
    requires from { IsArcPlace from }
    requires to { IsArcPlace to }
    ensures value { result ≡ vector_of from to }
    ensures size { IsUpTo 60000000000000 result }
{
    Point {
        x: gap(from.x, to.x),
        y: gap(from.y, to.y),
    }
}

/// The sum of two vectors.
#[tactic(auto, unfolding(crate::specs::Vectors::added))]
pub fn sum(a: Point, b: Point) -> Point
    requires a { IsUpTo 100000000000000 a }
    requires b { IsUpTo 100000000000000 b }
    ensures value { result ≡ sum_of a b }
    ensures size { IsUpTo 200000000000000 result }
{
    Point {
        x: a.x + b.x,
        y: a.y + b.y,
    }
}

/// Whether two vectors are the same.
pub fn is_same(a: Point, b: Point) -> bool
    ensures { result ≡ same_point a b }
{
    a.x == b.x && a.y == b.y
}

/// Whether a vector has no length.
pub fn is_zero(v: Point) -> bool
    ensures { result ≡ is_zero_of v }
{
    v.x == 0 && v.y == 0
}

// The product of two coordinates.
fn by(a: i64, b: i64) -> i128
    requires a { unsigned_abs a ≤ 100000000000000000 }
    requires b { unsigned_abs b ≤ 100000000000000000 }
    ensures value { result ≡ a *ℤ b }
    ensures size { unsigned_abs result ≤ 10000000000000000000000000000000000 }
{
    product(a, b)
}

// The product that is 0 where two vectors are at right angles.
#[tactic(auto, unfolding(crate::specs::Vectors::dot))]
fn dot(a: Point, b: Point) -> i128
    requires a { IsUpTo 100000000000000000 a }
    requires b { IsUpTo 100000000000000000 b }
    ensures { result ≡ dot_of a b }
{
    let along = by(a.x, b.x);
    let across = by(a.y, b.y);
    plus(along, across)
}

// The product that tells on which side of a vector another one lies.
#[tactic(auto, unfolding(crate::specs::Vectors::cross))]
fn cross(a: Point, b: Point) -> i128
    requires a { IsUpTo 200000000000000 a }
    requires b { IsUpTo 200000000000000 b }
    ensures { result ≡ cross_of a b }
{
    let down = by(a.x, b.y);
    let up = by(a.y, b.x);
    minus(down, up)
}

/// The length of a vector, cut. No coordinate is larger.
#[tactic(auto, unfolding(crate::specs::Vectors::vector_length))]
pub fn length_of(v: Point) -> u64
    requires { IsUpTo 100000000000000000 v }
    ensures value { result ≡ vector_length v }
    ensures square { result * result ≤ unsigned_abs (dot_of v v) }
    ensures sides { IsUpTo result v }
{
    isqrt(dot(v, v).unsigned_abs()) as u64
}

/// The length of the vector to an end of an arc, cut.
pub fn radius_of(v: Point) -> u64
    requires { IsUpTo 60000000000000 v }
    ensures value { result ≡ vector_length v }
    ensures bound { result ≤ 100000000000000 }
{
    length_of(v)
}

// A coordinate times a length.
fn times_length(v: i64, length: u64) -> i128
    ensures value { result ≡ v *ℤ pos length }
    ensures size { unsigned_abs result ≡ unsigned_abs v * length }
{
    v as i128 * length as i128
}

// The quotient by a length, to the nearest.
fn by_length(v: i128, length: u64) -> i128
    requires { 0 < length }
    ensures value { result ≡ round_div_of v (pos length) }
    ensures nearest { IsNearest v (pos length) result }
{
    round_div(v, length as i128)
}

// A number that fits a coordinate.
fn narrow(v: i128) -> i64
    requires { unsigned_abs v ≤ 100000000000000 }
    ensures { result ≡ v }
{
    v as i64
}

// A coordinate of a vector of this length, where the vector is brought to another.
#[tactic(auto, unfolding(crate::specs::Vectors::scaled_to))]
fn scaled_to(radius: u64, length: u64, v: i64) -> i64
    requires radius { radius ≤ 100000000000000 }
    requires length { 0 < length }
    requires inside { unsigned_abs v ≤ length }
    ensures value { result ≡ scaled_of radius length v }
    ensures size { unsigned_abs result ≤ radius }
{
    narrow(by_length(times_length(v, radius), length))
}

// A vector of some length, brought to another.
#[tactic(auto, unfolding(crate::specs::Vectors::brought_to))]
fn brought_to(radius: u64, m: Point) -> Point
    requires radius { radius ≤ 100000000000000 }
    requires m { IsUpTo 200000000000000 m }
    requires some { is_zero_of m ≡ false }
    ensures value { result ≡ brought_of radius m }
    ensures size { IsUpTo radius result }
{
    let length = length_of(m);
    Point {
        x: scaled_to(radius, length, m.x),
        y: scaled_to(radius, length, m.y),
    }
}

/// The vector half way between two on a circle of this radius.
#[tactic(auto, unfolding(crate::specs::Vectors::between))]
pub fn between(radius: u64, a: Point, c: Point) -> Point
    requires radius { radius ≤ 100000000000000 }
    requires a { IsUpTo 100000000000000 a }
    requires c { IsUpTo 100000000000000 c }
    ensures value { result ≡ between_of radius a c }
    ensures size { IsUpTo 100000000000000 result }
{
    let both = sum(a, c);
    if is_zero(both) {
        a
    } else {
        brought_to(radius, both)
    }
}

/// A vector turned by 90 degrees.
#[tactic(auto, unfolding(crate::specs::Vectors::quarter_on))]
pub fn quarter_on(ccw: bool, q: Point) -> Point
    requires { IsUpTo 100000000000000 q }
    ensures value { result ≡ quarter_of ccw q }
    ensures size { IsUpTo 100000000000000 result }
{
    if ccw {
        Point { x: -q.y, y: q.x }
    } else {
        Point { x: q.y, y: -q.x }
    }
}

// Whether a vector lies past another, by at most 90 degrees.
#[tactic(auto, unfolding(crate::specs::Vectors::ends_in))]
fn ends_in(ccw: bool, q: Point, v: Point) -> bool
    requires q { IsUpTo 100000000000000 q }
    requires v { IsUpTo 100000000000000 v }
    ensures { result ≡ ends_of ccw q v }
{
    let side = cross(q, v);
    let past = if ccw { 0 < side } else { side < 0 };
    0 <= dot(q, v) && past
}

/// How many whole quarters lie between two vectors.
#[tactic(auto, unfolding(crate::specs::Vectors::last_quarter))]
pub fn last_quarter(ccw: bool, u: Point, v: Point) -> u32
    requires u { IsUpTo 100000000000000 u }
    requires v { IsUpTo 100000000000000 v }
    ensures value { result ≡ last_of ccw u v }
    ensures few { result ≤ 3 }
{
    let second = quarter_on(ccw, u);
    let third = quarter_on(ccw, second);
    if ends_in(ccw, u, v) {
        0
    } else if ends_in(ccw, second, v) {
        1
    } else if ends_in(ccw, third, v) {
        2
    } else {
        3
    }
}
