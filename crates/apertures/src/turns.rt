//! Points of a primitive turned about the origin of its macro.
ghost use Rattle.std.specs.Prelude.{◌≡◌, ◌<◌, ◌≤◌, ◌+◌, ◌⊎◌, ◌*ℤ◌, ◌+ℤ◌, neg_ℤ, ◌∷◌, [], length, unsigned_abs, MatchResult, IfOk, IfSome, Ok, Err, pos, ◌==◌, if◌then◌else◌};
ghost use Rattle.std.specs.List.{All};
ghost use Rattle.board_base.specs.Places.{IsPlace};
ghost use Rattle.plane_arcs.specs.Turned.{point_at as point_at_of, rotated};
ghost use Rattle.plane_arcs.specs.Vectors.{IsUpTo, vector as vector_of, added as added_of, vector_length};
ghost use Rattle.plane_arcs.specs.Arcs.{points_round};
ghost use Rattle.shape_parts.specs.Parts.{IsWidth};
ghost use Rattle.apertures.specs.declared.aperture.ApertureError.TheVariants.{Memory};
ghost use Rattle.apertures.specs.Figures.{IsBounded};
ghost use Rattle.apertures.specs.Primitives.{turned_point as turned_point_of, turned_points as turned_points_of, turned_area as turned_area_of, turned_disc as turned_disc_of, turned_box as turned_box_of};

use crate::aperture::ApertureError;
use crate::outlines::corners;
use crate::parts::area;
use crate::texts::add;
use board_base::Point;
use plane_arcs::{point_at, rotate};
use shape_parts::Part;
use std::alloc::{AllocError, Global};

// The point turned about the origin, but not by no turn, where it is then in the range.
fn turned(p: Point, turn: u64) -> Option<Point>
    requires { turn < 360000000 }
    ensures value { result ≡ (if turn == 0 then point_at_of p.x p.y else rotated p (pos turn)) }
    ensures place { IfSome result IsPlace }
{
    if turn == 0 {
        point_at(p.x as i128, p.y as i128)
    } else {
        rotate(p, turn as i64)
    }
}

// The point turned about the origin, or past the range.
pub(crate) fn turned_point(p: Point, turn: u64) -> Result<Point, ApertureError>
    requires { turn < 360000000 }
    ensures value { MatchResult result (λ q. turned_point_of turn p ≡ Ok q) (λ e. turned_point_of turn p ≡ Err e) }
    ensures place { IfOk result IsPlace }
{
    match turned(p, turn) {
        Some(q) => Ok(q),
        None => Err(ApertureError::OutOfRange),
    }
}

// All points turned, where all are then in the range.
fn turned_points(alloc: Global, points: &[Point], turn: u64) -> Result<Vec<Point>, ApertureError>
    requires { turn < 360000000 }
    ensures value { MatchResult result (λ v. turned_points_of turn points.now ≡ Ok v.items)
        (λ e. (e ≡ Memory) ⊎ (turned_points_of turn points.now ≡ Err e)) }
    ensures places { IfOk result (λ v. All IsPlace v.items) }
    ensures count { IfOk result (λ v. length v.items ≡ length points.now) }
{
    let mut turned = Vec::new(alloc);
    'points: for p in points {
        let q = turned_point(*p, turn)?;
        add(&mut turned, q)?;
    }
    Ok(turned)
}

// The area of one loop through these points, turned.
pub(crate) fn turned_area(alloc: Global, points: &[Point], turn: u64) -> Result<Part, ApertureError>
    requires turn { turn < 360000000 }
    requires low { 3 ≤ length points.now }
    requires high { length points.now ≤ 5000 }
    ensures value { MatchResult result (λ p. turned_area_of turn points.now ≡ Ok p)
        (λ e. (e ≡ Memory) ⊎ (turned_area_of turn points.now ≡ Err e)) }
    ensures bounded { IfOk result IsBounded }
{
    let turned = turned_points(alloc, points, turn)?;
    Ok(area(alloc, &turned)?)
}

// The disc about a point that is turned.
pub(crate) fn turned_disc(p: Point, d: i64, turn: u64) -> Result<Part, ApertureError>
    requires d { IsWidth d }
    requires turn { turn < 360000000 }
    ensures value { MatchResult result (λ part. turned_disc_of turn p d ≡ Ok part) (λ e. turned_disc_of turn p d ≡ Err e) }
    ensures bounded { IfOk result IsBounded }
{
    let c = turned_point(p, turn)?;
    Ok(Part::Disc { c, d })
}

// A point moved by a vector.
#[tactic(auto, unfolding(plane_arcs::specs::Vectors::added))]
pub(crate) fn added(p: Point, v: Point) -> Point
    requires p { IsUpTo 30000000000000000 p }
    requires v { IsUpTo 1000000000 v }
    ensures { result ≡ added_of p v }
{
    Point {
        x: p.x + v.x,
        y: p.y + v.y,
    }
}

// The points where vectors end that begin at a point.
#[tactic(auto, using(crate::proofs::MacroLaws::place_short))]
pub(crate) fn points_about(
    alloc: Global,
    p: Point,
    vectors: &[Point],
) -> Result<Vec<Point>, AllocError>
    requires p { IsUpTo 30000000000000000 p }
    requires vectors { All IsPlace vectors.now }
    ensures value { IfOk result (λ v. v.items ≡ points_round p vectors.now) }
    ensures count { IfOk result (λ v. length v.items ≡ length vectors.now) }
{
    let mut points = Vec::new(alloc);
    'vectors: for v in vectors {
        points.push(added(p, *v))?;
    }
    Ok(points)
}

// A box about a point, turned.
pub(crate) fn turned_box(
    alloc: Global,
    p: Point,
    w: i64,
    h: i64,
    turn: u64,
) -> Result<Part, ApertureError>
    requires p { IsUpTo 30000000000000000 p }
    requires w { IsWidth w }
    requires h { IsWidth h }
    requires turn { turn < 360000000 }
    ensures value { MatchResult result (λ part. turned_box_of turn p w h ≡ Ok part)
        (λ e. (e ≡ Memory) ⊎ (turned_box_of turn p w h ≡ Err e)) }
    ensures bounded { IfOk result IsBounded }
{
    let points = points_about(alloc, p, &corners(w, h))?;
    turned_area(alloc, &points, turn)
}
