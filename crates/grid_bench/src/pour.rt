// A pour that fills the grid that is timed: one area with ten thousand corners.
ghost use Rattle.std.specs.Prelude.{◌≡◌, ◌<◌, IfOk};
ghost use Rattle.std.specs.List.{All};
ghost use Rattle.board_base.specs.Places.{IsPlace};

use board_base::Point;
use poly_area::Poly;
use shape_parts::{Painted, Part, Shape};
use std::alloc::{AllocError, Global};

// How many corners the south side has, and the north side.
const CORNERS: u32 = 5_000;

// Half of the width and of the height, in nanometres.
const REACH: i64 = 20_000_000;

// From one corner of a side to the next one, and from its outer corners to its inner ones.
const STEP: i64 = 8_000;

const DEPTH: i64 = 10_000;

// Corner `k`: along the south side to the east, then along the north side to the west.
fn corner(k: u32) -> Point
    requires { k < 10000 }
    ensures { IsPlace result }
{
    let inward = (k % 2) as i64 * DEPTH;
    if k < CORNERS {
        Point {
            x: k as i64 * STEP - REACH,
            y: inward - REACH,
        }
    } else {
        Point {
            x: REACH - (k - CORNERS) as i64 * STEP,
            y: REACH - inward,
        }
    }
}

// All corners.
fn corners(alloc: Global) -> Result<Vec<Point>, AllocError>
    ensures { IfOk result (λ v. All IsPlace v.items) }
{
    let mut all = Vec::new(alloc);
    'corners: for k in 0..2 * CORNERS {
        all.push(corner(k))?;
    }
    Ok(all)
}

/// The pour as the one painted object.
pub fn pour(alloc: Global) -> Result<Vec<Painted>, AllocError> {
    let mut poly = Poly::empty(alloc);
    if poly.add_loop(&corners(alloc)?).is_err() {
        return Err(AllocError);
    }
    let mut shape = Shape::empty(alloc);
    shape.push(Part::Area { poly }, true)?;
    let mut objects = Vec::new(alloc);
    objects.push(Painted { shape, dark: true })?;
    Ok(objects)
}
