// An area of many edges.
ghost use Rattle.std.specs.Prelude.{◌<◌, IfOk};
ghost use Rattle.std.specs.List.{All};
ghost use Rattle.board_base.specs.Places.{IsNearPlace, IsPlace};
ghost use Rattle.board_base.specs.declared.places.Cell.{Cell};
ghost use Rattle.board_base.specs.Lattice.{IsPitch, centre_of};
ghost use Rattle.cell_grid.specs.Place.{IsPlaced, InFrame};

use crate::covers::kept;
use board_base::Point;
use cell_grid::{Frame, Workbench};
use copper_cover::cover;
use poly_area::Poly;
use shape_parts::{Painted, Part, Shape};
use std::alloc::{AllocError, Global};
use std::test::Fail;

// Vertex `k` of a square of 40 mm that has one each 0.002 mm.
fn vertex(k: u32) -> Point
    requires { k < 80000 }
    ensures { IsPlace result }
{
    let s = (k % 20000) as i64 * 2000;
    match k / 20000 {
        0 => Point { x: s, y: 0 },
        1 => Point {
            x: 40_000_000,
            y: s,
        },
        2 => Point {
            x: 40_000_000 - s,
            y: 40_000_000,
        },
        _ => Point {
            x: 0,
            y: 40_000_000 - s,
        },
    }
}

// Its vertices.
fn border(alloc: Global) -> Result<Vec<Point>, AllocError>
    ensures { IfOk result (λ v. All IsPlace v.items) }
{
    let mut points = Vec::new(alloc);
    'points: for k in 0..80000 {
        points.push(vertex(k))?;
    }
    Ok(points)
}

// A flash of it.
fn fine_square(alloc: Global) -> Result<Vec<Painted>, AllocError> {
    let points = border(alloc)?;
    let mut poly = Poly::empty(alloc);
    let Ok(()) = poly.add_loop(&points) else {
        return Err(AllocError);
    };
    let mut shape = Shape::empty(alloc);
    shape.push(Part::Area { poly }, true)?;
    let mut objects = Vec::new(alloc);
    objects.push(Painted { shape, dark: true })?;
    Ok(objects)
}

// The cells of 0.02 mm round it.
fn fine_frame() -> Frame
    ensures placed { IsPlaced result }
    ensures pitch { IsPitch result.pitch }
    ensures centres { (c : Cell) → InFrame result c → IsNearPlace (centre_of result.pitch c) }
{
    Frame {
        pitch: 20_000,
        i0: -2,
        j0: -2,
        width: 2004,
        height: 2004,
    }
}

// How many cells of a frame are kept of some objects.
fn kept_over(alloc: Global, frame: Frame, painted: &Vec<Painted>) -> Option<u32>
    requires placed { IsPlaced frame }
    requires pitch { IsPitch frame.pitch }
    requires centres { (c : Cell) → InFrame frame c → IsNearPlace (centre_of frame.pitch c) }
{
    match Workbench::reserve(alloc, frame) {
        Ok(bench) => {
            let mut bench = bench;
            cover(&mut bench, painted);
            Some(kept(&bench))
        }
        Err(_) => None,
    }
}

#[test]
fn a_square_of_many_edges_is_covered(rt: HostRuntime) -> Result<(), Fail> {
    let objects = fine_square(rt.alloc())?;
    // The columns and rows from -1 to 2000, as each corner touches four cells.
    let kept = kept_over(rt.alloc(), fine_frame(), &objects);
    assert_eq!(rt; kept, Some(4_008_004));
    Ok(())
}
