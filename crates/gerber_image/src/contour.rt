// Contours of regions, and the areas that they bound.
ghost use Rattle.std.specs.Prelude.{◌≡◌, ◌∷◌, [], ◌++◌, ◌≤◌, length, take, drop, OnOk, OnErr, IfOk, IfErr, Some, None, map, pos};
ghost use Rattle.std.specs.List.{All, flat_map, list_any};
ghost use Rattle.board_base.specs.Places.{IsPlace, same_point};
ghost use Rattle.shape_parts.specs.Vertices.{vertices_of};
ghost use Rattle.gerber_image.specs.Regions.{last_behind as last_behind_of, without_return as without_return_of, area_through, area_of};
ghost use Rattle.gerber_image.specs.Image.{shifted_piece};
ghost use Rattle.gerber_image.specs.Checks.{piece_leaves};

use crate::repeat::points_leave;
use crate::state::Stop;
use board_base::Point;
use poly_area::{Poly, PolyError};
use shape_parts::{Part, Shape};
use std::alloc::{AllocError, Global};
use std::marker::Model;

/// The points of a contour, in nanometres.
#[derive(Drop)]
pub struct Contour {
    points: Vec<Point>,
}

impl Model for Contour {
    ghost use Rattle.std.specs.Prelude.{List};
    ghost use Rattle.std.specs.List.{All};
    ghost use Rattle.board_base.specs.declared.places.Point.{Point};
    ghost use Rattle.board_base.specs.Places.{IsPlace};

    ghost Value = { List Point };

    ghost view = { λ c. c.points.items };

    ghost invariant = { λ c. All IsPlace c.points.items };
}

// Whether these are one and the same place.
fn is_same_place(a: Point, b: Point) -> bool
    ensures { result ≡ same_point a b }
{
    a.x == b.x && a.y == b.y
}

// The last of the points, where one stands before them.
fn last_behind(p: Point, points: &[Point]) -> Point
    ensures { result ≡ last_behind_of p points.now }
{
    if points.is_empty() {
        p
    } else {
        points[points.len() - 1]
    }
}

// How many points a contour has without its last one, where that is the first one again.
fn kept_points(contour: &[Point]) -> usize
    ensures value { take result contour.now ≡ without_return_of contour.now }
    ensures count { result ≡ length (without_return_of contour.now) }
{
    match contour {
        [] => 0,
        [first, rest @ ..] => {
            if is_same_place(*first, last_behind(*first, rest)) {
                rest.len()
            } else {
                contour.len()
            }
        }
    }
}

// An area through three or more points.
fn area(alloc: Global, points: &[Point]) -> Result<Part, Stop>
    requires places { All IsPlace points.now }
    requires some { 3 ≤ length points.now }
    requires few { length points.now ≤ 4194304 }
    ensures value { IfOk result (λ part. part ≡ Part.Area (points.now ∷ [])) }
    ensures memory { IfErr result (λ stop. stop ≡ Stop.Memory) }
{
    let mut poly = Poly::empty(alloc);
    match poly.add_loop(points) {
        Ok(()) => Ok(Part::Area { poly }),
        Err(PolyError::Memory) => Err(Stop::Memory),
        Err(PolyError::TooFewPoints { .. }) => unreachable!(),
        Err(PolyError::TooManyPoints { .. }) => unreachable!(),
    }
}

impl Contour {
    /// A contour without points.
    pub fn empty(alloc: Global) -> Contour
        ensures { result ≡ [] }
    {
        Contour {
            points: Vec::new(alloc),
        }
    }

    /// A contour that begins at a point.
    pub fn from(alloc: Global, p: Point) -> Result<Contour, AllocError>
        requires { IsPlace p }
        ensures { IfOk result (λ c. c ≡ p ∷ []) }
    {
        let mut points = Vec::new(alloc);
        points.push(p)?;
        Ok(Contour { points })
    }

    /// Adds points at the end. Without memory it fails, and the contour stays as it was.
    pub fn extend(&mut self, points: &[Point]) -> Result<(), AllocError>
        requires { All IsPlace points.now }
        ensures added { OnOk result (self.new ≡ self.old ++ points.now) }
        ensures stays { OnErr result (self.new ≡ self.old) }
    {
        self.points.extend_from_slice(points)?;
        Ok(())
    }

    /// How many corners the contour's area has: none where it bounds none.
    #[tactic(auto, unfolding(crate::specs::Regions::area_of))]
    pub fn corners(&self) -> usize
        ensures { result ≡ vertices_of (area_of self.now) }
    {
        let count = kept_points(&self.points);
        if 3 <= count { count } else { 0 }
    }

    /// Whether a point of the contour's area leaves the range when it is shifted.
    #[tactic(auto, unfolding(crate::specs::Regions::area_of))]
    pub fn leaves(&self, dx: u128, dy: u128) -> bool
        ensures { result ≡ list_any piece_leaves (map (shifted_piece (pos dx) (pos dy)) (area_of self.now)) }
    {
        let count = kept_points(&self.points);
        if count < 3 {
            return false;
        }
        points_leave(&self.points[..count], dx, dy)
    }

    /// Adds the contour's area to a shape, where it bounds one. It fails only without memory.
    #[tactic(auto, unfolding(crate::specs::Regions::area_of))]
    pub fn add_to(&self, alloc: Global, shape: &mut Shape) -> Result<(), Stop>
        requires { vertices_of (area_of self.now) ≤ 4194304 }
        ensures added { OnOk result (shape.new ≡ shape.old ++ area_of self.now) }
        ensures memory { IfErr result (λ stop. stop ≡ Stop.Memory) }
    {
        let count = kept_points(&self.points);
        if count < 3 {
            return Ok(());
        }
        let part = area(alloc, &self.points[..count])?;
        shape.push(part, true)?;
        Ok(())
    }
}

/// How many corners the areas of these contours have.
pub fn corners_of(contours: &[Contour]) -> u128
    ensures { result ≡ vertices_of (flat_map area_of contours.now) }
{
    let mut corners: u128 = 0;
    'contours: for contour in contours {
        corners += contour.corners() as u128;
    }
    corners
}

/// The areas of these contours. It fails only without memory.
pub fn region(alloc: Global, contours: &[Contour]) -> Result<Shape, Stop>
    requires { vertices_of (flat_map area_of contours.now) ≤ 4194304 }
    ensures value { IfOk result (λ s. s ≡ flat_map area_of contours.now) }
    ensures memory { IfErr result (λ stop. stop ≡ Stop.Memory) }
{
    let mut shape = Shape::empty(alloc);
    'contours: for contour in contours {
        contour.add_to(alloc, &mut shape)?;
    }
    Ok(shape)
}
