// The rectangle round a shape.
ghost use Rattle.std.specs.Prelude.{◌≡◌, ℤ, ℕ, pos, ◌+ℤ◌, ◌-ℤ◌, ◌≤ℤ◌, ◌<ℤ◌, int_lt, List, Option, Some, None, cond};
ghost use Rattle.std.specs.List.{All};
ghost use Rattle.std.specs.Int.{int_min, int_max};
ghost use Rattle.board_base.specs.Places.{IsPlace};
ghost use Rattle.shape_parts.specs.declared.shape.Part.TheVariants.{Area};
ghost use Rattle.shape_parts.specs.Parts.{IsPart, IsPiece, IsWidth};
ghost use Rattle.shape_parts.specs.Boxes.{half_up as half_up_of, around as around_of, hull as hull_of, widened as widened_of, part_box, piece_box, shape_box, AreBounds};

use crate::shape::{Part, Piece};
use board_base::{Bounds, Point};
use poly_area::Poly;

// The lesser of two.
fn least(a: i64, b: i64) -> i64
    ensures { result ≡ int_min a b }
{
    if b < a { b } else { a }
}

// The greater of two.
fn greatest(a: i64, b: i64) -> i64
    ensures { result ≡ int_max a b }
{
    if b < a { a } else { b }
}

// Half of a width, rounded up.
#[tactic(auto, unfolding(crate::specs::Boxes::half_up))]
fn half_up(d: i64) -> i64
    requires { IsWidth d }
    ensures value { result ≡ half_up_of d }
    ensures low { pos 0 ≤ℤ result }
    ensures high { result ≤ℤ pos 500000000 }
{
    (d + 1).div_euclid(2)
}

// The square of half side `r` round `p`.
#[tactic(auto, unfolding(crate::specs::Boxes::around))]
fn around(p: Point, r: i64) -> Bounds
    requires p { IsPlace p }
    requires r_low { pos 0 ≤ℤ r }
    requires r_high { r ≤ℤ pos 500000000 }
    ensures x0 { result.x0 ≡ (around_of p r).x0 }
    ensures y0 { result.y0 ≡ (around_of p r).y0 }
    ensures x1 { result.x1 ≡ (around_of p r).x1 }
    ensures y1 { result.y1 ≡ (around_of p r).y1 }
{
    Bounds {
        x0: p.x - r,
        y0: p.y - r,
        x1: p.x + r,
        y1: p.y + r,
    }
}

/// The least rectangle that holds both.
#[tactic(auto, unfolding(crate::specs::Boxes::hull))]
pub fn hull(a: Bounds, b: Bounds) -> Bounds
    ensures x0 { result.x0 ≡ (hull_of a b).x0 }
    ensures y0 { result.y0 ≡ (hull_of a b).y0 }
    ensures x1 { result.x1 ≡ (hull_of a b).x1 }
    ensures y1 { result.y1 ≡ (hull_of a b).y1 }
{
    Bounds {
        x0: least(a.x0, b.x0),
        y0: least(a.y0, b.y0),
        x1: greatest(a.x1, b.x1),
        y1: greatest(a.y1, b.y1),
    }
}

// A rectangle, or none yet, grown by the square round a point.
fn widened(r: i64, to: Option<Bounds>, p: Point) -> Option<Bounds>
    requires p { IsPlace p }
    requires r_low { pos 0 ≤ℤ r }
    requires r_high { r ≤ℤ pos 500000000 }
    requires bounds { AreBounds to }
    ensures value { result ≡ widened_of r to p }
    ensures bounds { AreBounds result }
{
    match to {
        None => Some(around(p, r)),
        Some(b) => Some(hull(b, around(p, r))),
    }
}

// Grown by the points of an area.
fn with_area(to: Option<Bounds>, poly: &Poly) -> Option<Bounds>
    requires { AreBounds to }
    ensures value { result ≡ part_box to (Area poly.now) }
    ensures bounds { AreBounds result }
{
    let mut all = to;
    'edges: for k in 0..poly.edges() {
        let (from, _) = poly.edge(k);
        all = widened(0, all, from);
    }
    all
}

// Grown by a part.
fn with_part(to: Option<Bounds>, part: &Part) -> Option<Bounds>
    requires part { IsPart part.now }
    requires bounds { AreBounds to }
    ensures value { result ≡ part_box to part.now }
    ensures bounds { AreBounds result }
{
    match part {
        Part::Disc { c, d } => if *d > 0 {
            widened(half_up(*d), to, *c)
        } else {
            to
        },
        Part::Capsule { a, b, d } => if *d > 0 {
            let r = half_up(*d);
            widened(r, widened(r, to, *a), *b)
        } else {
            to
        },
        Part::Area { poly } => with_area(to, poly),
    }
}

// Grown by a piece.
fn with_piece(to: Option<Bounds>, piece: &Piece) -> Option<Bounds>
    requires piece { IsPiece piece.now }
    requires bounds { AreBounds to }
    ensures value { result ≡ piece_box to piece.now }
    ensures bounds { AreBounds result }
{
    if piece.on {
        with_part(to, &piece.part)
    } else {
        to
    }
}

// The rectangle round all on pieces.
pub(crate) fn box_round(pieces: &[Piece]) -> Option<Bounds>
    requires { All IsPiece pieces.now }
    ensures value { result ≡ shape_box pieces.now }
    ensures bounds { AreBounds result }
{
    let mut all = None;
    'pieces: for piece in pieces {
        all = with_piece(all, piece);
    }
    all
}
