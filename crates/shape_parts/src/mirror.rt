// The other side of the board.
ghost use Rattle.std.specs.Prelude.{◌≡◌, List, map, IfOk};
ghost use Rattle.std.specs.List.{All};
ghost use Rattle.shape_parts.specs.Parts.{IsPart, IsPiece};
ghost use Rattle.board_base.specs.Places.{IsPlace};
ghost use Rattle.poly_area.specs.Mirror.{mirrored as mirrored_of};
ghost use Rattle.shape_parts.specs.Mirror.{mirrored_part as mirrored_part_of, mirrored_piece, mirrored_object};

use crate::shape::{Painted, Part, Piece};
use board_base::Point;
use std::alloc::{AllocError, Global};

// The point on the other side of the y axis.
#[tactic(auto, unfolding(poly_area::specs::Mirror::mirrored))]
fn mirrored(p: Point) -> Point
    requires { IsPlace p }
    ensures value { result ≡ mirrored_of p }
    ensures place { IsPlace result }
{
    Point { x: -p.x, y: p.y }
}

// The part with every x negated.
fn mirrored_part(alloc: Global, part: &Part) -> Result<Part, AllocError>
    requires { IsPart part.now }
    ensures value { IfOk result (λ p. p ≡ mirrored_part_of part.now) }
    ensures fits { IfOk result IsPart }
{
    match part {
        Part::Disc { c, d } => Ok(Part::Disc {
            c: mirrored(*c),
            d: *d,
        }),
        Part::Capsule { a, b, d } => Ok(Part::Capsule {
            a: mirrored(*a),
            b: mirrored(*b),
            d: *d,
        }),
        Part::Area { poly } => {
            let other = poly.mirrored(alloc)?;
            Ok(Part::Area { poly: other })
        }
    }
}

// The pieces with every x negated.
pub(crate) fn mirrored_pieces(alloc: Global, pieces: &[Piece]) -> Result<Vec<Piece>, AllocError>
    requires { All IsPiece pieces.now }
    ensures value { IfOk result (λ v. v.items ≡ map mirrored_piece pieces.now) }
    ensures fit { IfOk result (λ v. All IsPiece v.items) }
{
    let mut all = Vec::new(alloc);
    'pieces: for piece in pieces {
        let part = mirrored_part(alloc, &piece.part)?;
        all.push(Piece { part, on: piece.on })?;
    }
    Ok(all)
}

/// The objects with every x negated. It fails only without memory.
pub fn mirror_x(alloc: Global, painted: &Vec<Painted>) -> Result<Vec<Painted>, AllocError>
    ensures { IfOk result (λ v. v.items ≡ map mirrored_object painted.now.items) }
{
    let mut all = Vec::new(alloc);
    'objects: for object in painted {
        let shape = object.shape.mirrored(alloc)?;
        all.push(Painted {
            shape,
            dark: object.dark,
        })?;
    }
    Ok(all)
}
