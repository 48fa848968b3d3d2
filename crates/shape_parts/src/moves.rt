// Shapes whose points are moved.
ghost use Rattle.std.specs.Prelude.{◌≡◌, ◌≤◌, ◌*◌, IfOk, IfSome, is_none};
ghost use Rattle.std.specs.List.{All};
ghost use Rattle.std.specs.Option.{option_map};
ghost use Rattle.board_base.specs.Places.{IsPlace};
ghost use Rattle.shape_parts.specs.declared.shape.Part.TheVariants.{Disc, Capsule};
ghost use Rattle.shape_parts.specs.Parts.{IsPart, IsPiece, IsWidth};
ghost use Rattle.shape_parts.specs.Moved.{moved_part as moved_part_of, moved_pieces as moved_pieces_of};
ghost use Rattle.shape_parts.specs.Vertices.{part_vertices as part_vertices_of, vertices_of};

use crate::shape::{Part, Piece};
use board_base::Point;
use poly_area::Motion;
use std::alloc::{AllocError, Global};

// The disc with its centre moved.
fn moved_disc<M: Motion>(c: Point, d: i64, motion: &M) -> Option<Part>
    requires c { IsPlace c }
    requires d { IsWidth d }
    ensures value { result ≡ moved_part_of (M.moves motion.now) (Disc c d) }
    ensures fits { IfSome result IsPart }
{
    Some(Part::Disc {
        c: motion.moved(c)?,
        d,
    })
}

// The capsule with its ends moved.
fn moved_capsule<M: Motion>(a: Point, b: Point, d: i64, motion: &M) -> Option<Part>
    requires a { IsPlace a }
    requires b { IsPlace b }
    requires d { IsWidth d }
    ensures value { result ≡ moved_part_of (M.moves motion.now) (Capsule a b d) }
    ensures fits { IfSome result IsPart }
{
    Some(Part::Capsule {
        a: motion.moved(a)?,
        b: motion.moved(b)?,
        d,
    })
}

// The part with its points moved, or none where one leaves the range.
fn moved_part<M: Motion>(alloc: Global, part: &Part, motion: &M) -> Result<Option<Part>, AllocError>
    requires { IsPart part.now }
    ensures value { IfOk result (λ o. o ≡ moved_part_of (M.moves motion.now) part.now) }
    ensures fits { IfOk result (λ o. IfSome o IsPart) }
{
    match part {
        Part::Disc { c, d } => Ok(moved_disc(*c, *d, motion)),
        Part::Capsule { a, b, d } => Ok(moved_capsule(*a, *b, *d, motion)),
        Part::Area { poly } => match poly.moved(alloc, motion)? {
            Some(poly) => Ok(Some(Part::Area { poly })),
            None => Ok(None),
        },
    }
}

// The pieces with their points moved, or none where one leaves the range.
pub(crate) fn moved_pieces<M: Motion>(
    alloc: Global,
    pieces: &[Piece],
    motion: &M,
) -> Result<Option<Vec<Piece>>, AllocError>
    requires { All IsPiece pieces.now }
    ensures value { IfOk result (λ o. option_map (λ v. v.items) o ≡ moved_pieces_of (M.moves motion.now) pieces.now) }
    ensures fit { IfOk result (λ o. IfSome o (λ v. All IsPiece v.items)) }
{
    let mut all = Vec::new(alloc);
    'pieces: for piece in pieces {
        match moved_part(alloc, &piece.part, motion)? {
            None => return Ok(None),
            Some(part) => all.push(Piece { part, on: piece.on })?,
        }
    }
    Ok(Some(all))
}

// Whether a point of the part leaves the range.
fn part_leaves<M: Motion>(part: &Part, motion: &M) -> bool
    requires { IsPart part.now }
    ensures { result ≡ is_none (moved_part_of (M.moves motion.now) part.now) }
{
    match part {
        Part::Disc { c, .. } => motion.moved(*c).is_none(),
        Part::Capsule { a, b, .. } => if motion.moved(*a).is_none() {
            true
        } else {
            motion.moved(*b).is_none()
        },
        Part::Area { poly } => poly.leaves(motion),
    }
}

// Whether a point of the pieces leaves the range.
pub(crate) fn any_leaves<M: Motion>(pieces: &[Piece], motion: &M) -> bool
    requires { All IsPiece pieces.now }
    ensures { result ≡ is_none (moved_pieces_of (M.moves motion.now) pieces.now) }
{
    'pieces: for piece in pieces {
        if part_leaves(&piece.part, motion) {
            return true;
        }
    }
    false
}

// How many points the part has, if it is an area.
fn part_vertices(part: &Part) -> u32
    ensures value { result ≡ part_vertices_of part.now }
    ensures few { result ≤ 4194304 }
{
    match part {
        Part::Disc { .. } => 0,
        Part::Capsule { .. } => 0,
        Part::Area { poly } => poly.edges(),
    }
}

// How many points the areas have.
pub(crate) fn vertices(pieces: &[Piece]) -> u128
    ensures { result ≡ vertices_of pieces.now }
{
    let mut all: u128 = 0;
    'pieces: for piece in pieces {
        all += part_vertices(&piece.part) as u128;
    }
    all
}
