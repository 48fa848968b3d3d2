// The parts of shapes as rows that a test compares.
use apertures::{Aperture, ApertureError, Mirror, shape_at};
use board_base::Point;
use shape_parts::{Part, Shape};
use std::alloc::{AllocError, Global};

// A part by whether it is on, its ends and its width; an edge of an area has the width -1.
pub(crate) type Seen = (bool, (i64, i64), (i64, i64), i64);

pub(crate) fn seen(alloc: Global, shape: &Shape) -> Result<Vec<Seen>, AllocError> {
    let mut parts = Vec::new(alloc);
    for piece in shape.pieces() {
        match &piece.part {
            Part::Disc { c, d } => parts.push((piece.on, (c.x, c.y), (c.x, c.y), *d))?,
            Part::Capsule { a, b, d } => parts.push((piece.on, (a.x, a.y), (b.x, b.y), *d))?,
            Part::Area { poly } => {
                for k in 0..poly.edges() {
                    let (from, to) = poly.edge(k);
                    parts.push((piece.on, (from.x, from.y), (to.x, to.y), -1))?;
                }
            }
        }
    }
    Ok(parts)
}

// The shape of an aperture at the origin, neither mirrored nor turned: its own.
pub(crate) fn own_shape(alloc: Global, a: &Aperture) -> Result<Shape, ApertureError> {
    shape_at(alloc, a, Point { x: 0, y: 0 }, Mirror::Keep, 0)
}

// The edges of an area of one loop through four points.
pub(crate) const fn four(a: (i64, i64), b: (i64, i64), c: (i64, i64), d: (i64, i64)) -> [Seen; 4] {
    [
        (true, a, b, -1),
        (true, b, c, -1),
        (true, c, d, -1),
        (true, d, a, -1),
    ]
}

pub(crate) const fn disc(on: bool, d: i64) -> Seen {
    (on, (0, 0), (0, 0), d)
}
