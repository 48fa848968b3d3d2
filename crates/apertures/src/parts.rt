//! The parts of apertures about the origin.
ghost use Rattle.std.specs.Prelude.{◌≡◌, ℤ, ◌<◌, ◌≤◌, ◌≤ℤ◌, ◌-ℤ◌, pos, [], ◌∷◌, length, IfOk};
ghost use Rattle.std.specs.List.{All};
ghost use Rattle.board_base.specs.Places.{IsPlace, IsCoordinate};
ghost use Rattle.shape_parts.specs.Parts.{IsWidth};
ghost use Rattle.shape_parts.specs.Boxes.{half_up};
ghost use Rattle.shape_parts.specs.declared.shape.Part.TheVariants.{Area};
ghost use Rattle.apertures.specs.Figures.{IsBounded};
ghost use Rattle.apertures.specs.Defined.{at, disc as disc_of, capsule as capsule_of, rectangle as rectangle_of, polygon as polygon_of};

use crate::outlines::{corners, half, vertices};
use board_base::Point;
use poly_area::{Poly, PolyError};
use shape_parts::Part;
use std::alloc::{AllocError, Global};

// A disc about the origin.
pub(crate) fn disc(d: i64) -> Part
    requires { IsWidth d }
    ensures value { result ≡ disc_of d }
    ensures bounded { IsBounded result }
{
    Part::Disc {
        c: Point { x: 0, y: 0 },
        d,
    }
}

// A capsule along the longer side of a box about the origin.
#[tactic(auto, unfolding(crate::specs::Defined::capsule))]
pub(crate) fn capsule(w: i64, h: i64) -> Part
    requires w { IsWidth w }
    requires h { IsWidth h }
    ensures value { result ≡ capsule_of w h }
    ensures bounded { IsBounded result }
{
    if h < w {
        let end = half(w - h);
        Part::Capsule {
            a: Point { x: end, y: 0 },
            b: Point { x: -end, y: 0 },
            d: h,
        }
    } else if w < h {
        let end = half(h - w);
        Part::Capsule {
            a: Point { x: 0, y: end },
            b: Point { x: 0, y: -end },
            d: w,
        }
    } else {
        disc(w)
    }
}

// An area of one loop. It fails only without memory.
pub(crate) fn area(alloc: Global, points: &[Point]) -> Result<Part, AllocError>
    requires places { All IsPlace points.now }
    requires low { 3 ≤ length points.now }
    requires high { length points.now ≤ 5000 }
    ensures value { IfOk result (λ p. p ≡ Area (points.now ∷ [])) }
    ensures bounded { IfOk result IsBounded }
{
    let mut poly = Poly::empty(alloc);
    match poly.add_loop(points) {
        Ok(()) => Ok(Part::Area { poly }),
        Err(PolyError::TooFewPoints { .. }) => unreachable!(),
        Err(PolyError::TooManyPoints { .. }) => unreachable!(),
        Err(PolyError::Memory) => Err(AllocError),
    }
}

// A rectangle about the origin.
pub(crate) fn rectangle(alloc: Global, w: i64, h: i64) -> Result<Part, AllocError>
    requires w { IsWidth w }
    requires h { IsWidth h }
    ensures value { IfOk result (λ p. p ≡ rectangle_of w h) }
    ensures bounded { IfOk result IsBounded }
{
    area(alloc, &corners(w, h))
}

// A regular polygon of `n` vertices about the origin.
pub(crate) fn polygon(alloc: Global, d: i64, n: u64, turn: u64) -> Result<Part, AllocError>
    requires d { IsWidth d }
    requires low { 3 ≤ n }
    requires high { n ≤ 12 }
    requires turn { turn < 360000000 }
    ensures value { IfOk result (λ p. p ≡ polygon_of d n turn) }
    ensures bounded { IfOk result IsBounded }
{
    let points = vertices(alloc, d, n, turn)?;
    area(alloc, &points)
}
