//! Apertures at a place.
ghost use Rattle.std.specs.Prelude.{◌≡◌, ◌+ℤ◌, ◌⊎◌, ℤ, Some, None, MatchResult, IfSome};
ghost use Rattle.board_base.specs.Places.{IsPlace, IsCoordinate};
ghost use Rattle.apertures.specs.declared.aperture.ApertureError.TheVariants.{Memory, OutOfRange};
ghost use Rattle.apertures.specs.Placed.{mirrored as mirrored_of, turned as turned_of, shifted as shifted_of, placed_point as placed_point_of, placed};

use crate::aperture::{Aperture, ApertureError};
use board_base::Point;
use number_laws::sum;
use plane_arcs::{point_at, rotate};
use poly_area::Motion;
use shape_parts::Shape;
use std::alloc::Global;

/// Which coordinates of a shape's points are negated.
#[derive(Clone, Copy, Debug, PartialEq, Eq)]
pub enum Mirror {
    /// None.
    Keep,
    /// Each x.
    X,
    /// Each y.
    Y,
    /// Both.
    Xy,
}

// The point with the coordinates negated that the mirror names.
#[tactic(auto, unfolding(crate::specs::Placed::mirrored))]
fn mirrored(p: Point, mirror: Mirror) -> Point
    requires { IsPlace p }
    ensures { result ≡ mirrored_of mirror p }
{
    match mirror {
        Mirror::Keep => p,
        Mirror::X => Point { x: -p.x, y: p.y },
        Mirror::Y => Point { x: p.x, y: -p.y },
        Mirror::Xy => Point { x: -p.x, y: -p.y },
    }
}

// The point turned about the origin, but not by whole turns.
#[tactic(auto, unfolding(crate::specs::Placed::turned, fixed_num::specs::Angles::in_turn))]
fn turned(p: Point, angle: i64) -> Option<Point>
    ensures { result ≡ turned_of angle p }
{
    if angle.rem_euclid(360_000_000) == 0 {
        Some(p)
    } else {
        rotate(p, angle)
    }
}

// The point shifted.
#[tactic(auto, unfolding(crate::specs::Placed::shifted))]
fn shifted(p: Point, by: Point) -> Option<Point>
    ensures value { result ≡ shifted_of by p }
    ensures inside { IfSome result IsPlace }
{
    point_at(sum(p.x, by.x), sum(p.y, by.y))
}

// Where a point of a shape at the origin comes to.
#[tactic(auto, unfolding(crate::specs::Placed::placed_point))]
fn placed_point(p: Point, place: Point, mirror: Mirror, angle: i64) -> Option<Point>
    requires { IsPlace p }
    ensures value { result ≡ placed_point_of place mirror angle p }
    ensures inside { IfSome result IsPlace }
{
    let q = turned(mirrored(p, mirror), angle)?;
    shifted(q, place)
}

// A place on the board, and how a shape lies there.
#[derive(Drop)]
struct Placement {
    place: Point,
    mirror: Mirror,
    angle: i64,
}

impl Motion for Placement {
    ghost moves = { λ m p. placed_point_of m.place m.mirror m.angle p };

    fn moved(&self, p: Point) -> Option<Point> {
        placed_point(p, self.place, self.mirror, self.angle)
    }
}

/// The shape of an aperture at a place: mirrored, then turned counterclockwise about its origin by an angle in
/// millionths of a degree, then shifted. The points are turned one by one, to whole nanometres; whole turns
/// leave them. The widths stay.
///
/// # Errors
///
/// `OutOfRange` exactly where a coordinate of a point is above 500,000,000 nm in size after the turn or after
/// the shift. `Memory`, where the memory doesn't suffice, may come in its place.
#[tactic(auto, unfolding(crate::specs::Placed::placed))]
pub fn shape_at(
    alloc: Global,
    a: &Aperture,
    place: Point,
    mirror: Mirror,
    angle: i64,
) -> Result<Shape, ApertureError>
    ensures { MatchResult result (λ shape. placed place mirror angle a.now.pieces ≡ Some shape)
        (λ e. (e ≡ Memory) ⊎ ((e ≡ OutOfRange) × (placed place mirror angle a.now.pieces ≡ None))) }
{
    let motion = Placement {
        place,
        mirror,
        angle,
    };
    match a.shape.moved(alloc, &motion)? {
        Some(shape) => Ok(shape),
        None => Err(ApertureError::OutOfRange),
    }
}
