// What the definitions come to, worked out by hand. Lengths are in micrometres but where a test says otherwise.
ghost use Rattle.std.specs.Prelude.{◌+ℤ◌, pos, int_le, cond, Some, None};
ghost use Rattle.board_base.specs.Places.{IsNearPlace, IsPlace};
ghost use Rattle.board_base.specs.Lattice.{centre_of};
ghost use Rattle.shape_parts.specs.Parts.{IsPart};

use board_base::{Bounds, Cell, Point};
use shape_parts::{Motion, Painted, Part, Poly, Shape, hull, is_dark, mirror_x};
use std::alloc::{AllocError, Global};
use std::test::Fail;

// In nanometres.
const PITCH: i64 = 200000;

fn at(x: i16, y: i16) -> Point
    ensures near { IsNearPlace result }
    ensures place { IsPlace result }
{
    Point {
        x: x as i64 * 1000,
        y: y as i64 * 1000,
    }
}

fn disc(x: i16, y: i16, d: u16) -> Part
    ensures { IsPart result }
{
    Part::Disc {
        c: at(x, y),
        d: d as i64 * 1000,
    }
}

// A shape of one part that is on.
fn shape_of(alloc: Global, part: Part) -> Result<Shape, AllocError>
    requires { IsPart part }
{
    let mut shape = Shape::empty(alloc);
    shape.push(part, true)?;
    Ok(shape)
}

// Discs round the origin, one over another: the widths, and which are on or dark.
const RINGS: [(u16, bool); 3] = [(1000, true), (500, false), (200, true)];

fn rings(alloc: Global) -> Result<Shape, AllocError> {
    let mut shape = Shape::empty(alloc);
    for (d, on) in RINGS {
        shape.push(disc(0, 0, d), on)?;
    }
    Ok(shape)
}

fn painted_rings(alloc: Global) -> Result<Vec<Painted>, AllocError> {
    let mut objects = Vec::new(alloc);
    for (d, dark) in RINGS {
        let shape = shape_of(alloc, disc(0, 0, d))?;
        objects.push(Painted { shape, dark })?;
    }
    Ok(objects)
}

// A cell whose centre is a place, by the pitch of these tests.
#[tactic(auto, unfolding(board_base::specs::Lattice::middle, board_base::specs::Lattice::half_of))]
fn cell(i: i8, j: i8) -> Cell
    ensures { IsNearPlace (centre_of (pos 200000) result) }
{
    Cell {
        i: i as i32,
        j: j as i32,
    }
}

#[test]
fn a_disc_touches_its_cell_alone(rt: HostRuntime) -> Result<(), Fail> {
    // The centre of a neighbour is 0.2 mm from the disc's, and half a diagonal is 0.141422 mm.
    for (d, touches, neighbour, covers) in [
        (100_u16, true, false, false),
        (117, true, false, false),
        (118, true, true, false),
        (283, true, true, true),
        (0, false, false, false),
    ] {
        let shape = shape_of(rt.alloc(), disc(100, 100, d))?;
        let here = (
            shape.touches(cell(0, 0), PITCH),
            shape.covers_at(at(100, 100), 141422),
        );
        let beside = (
            shape.touches_at(at(-100, 100), 141422),
            shape.touches(cell(1, 0), PITCH),
        );
        assert_eq!(rt; here, (touches, covers), "the cell, {d}");
        assert_eq!(rt; beside, (neighbour, neighbour), "its neighbours, {d}");
        assert_eq!(rt; shape.covers(cell(0, 0), PITCH), covers, "covered, {d}");
    }
    Ok(())
}

#[test]
fn the_last_part_or_object_decides(rt: HostRuntime) -> Result<(), Fail> {
    let shape = rings(rt.alloc())?;
    let objects = painted_rings(rt.alloc())?;
    for (x, want) in [
        (0_i16, true),
        (100, true),
        (101, false),
        (250, false),
        (251, true),
        (500, true),
        (501, false),
    ] {
        assert_eq!(rt;
            (shape.contains(at(x, 0)), is_dark(&objects, at(x, 0))),
            (want, want),
            "at {x}"
        );
    }
    Ok(())
}

#[test]
fn a_shape_tells_its_parts(rt: HostRuntime) -> Result<(), Fail> {
    let mut shape = Shape::empty(rt.alloc());
    shape.push(disc(0, 0, 7), true)?;
    shape.push(disc(0, 0, 8), false)?;
    for k in 0..shape.len() {
        let wide = matches!(shape.part(k), Part::Disc { d: 8000, .. });
        assert_eq!(rt; (shape.is_on(k), wide), (k == 0, k == 1), "part {k}");
    }
    Ok(())
}

// In nanometres.
const CAPSULE: Part = Part::Capsule {
    a: Point { x: 0, y: 0 },
    b: Point { x: 1000, y: -2000 },
    d: 100,
};

#[test]
fn rectangles_hold_what_is_on(rt: HostRuntime) -> Result<(), Fail> {
    let alloc = rt.alloc();
    // In nanometres.
    let c = Point { x: 10, y: 20 };
    let none = shape_of(alloc, Part::Disc { c, d: 0 })?;
    let disc = shape_of(alloc, Part::Disc { c, d: 101 })?;
    let mut capsule = shape_of(alloc, CAPSULE)?;
    capsule.push(Part::Disc { c, d: 5000 }, false)?;
    let small = Bounds {
        x0: -41,
        y0: -31,
        x1: 61,
        y1: 71,
    };
    let long = Bounds {
        x0: -50,
        y0: -2050,
        x1: 1050,
        y1: 50,
    };
    let got = [none.bounds(), disc.bounds(), capsule.bounds()];
    assert_eq!(rt; got, [None, Some(small), Some(long)]);
    assert_eq!(rt;
        hull(small, long),
        Bounds {
            x0: -50,
            y0: -2050,
            x1: 1050,
            y1: 71
        }
    );
    Ok(())
}

#[test]
fn the_mirror_image_has_every_x_negated(rt: HostRuntime) -> Result<(), Fail> {
    let alloc = rt.alloc();
    let shape = shape_of(alloc, CAPSULE)?;
    let mut objects = Vec::new(alloc);
    objects.push(Painted { shape, dark: true })?;
    let other = mirror_x(alloc, &objects)?;
    // In nanometres.
    for (x, want) in [(-1000_i64, true), (1000, false)] {
        assert_eq!(rt; is_dark(&other, Point { x, y: -2000 }), want, "at {x}");
    }
    Ok(())
}

// The area through the middles of a square's sides, which is a millimetre wide.
fn diamond(alloc: Global) -> Part
    ensures { IsPart result }
{
    let mut poly = Poly::empty(alloc);
    let _added = poly.add_loop(&[at(0, 500), at(500, 0), at(1000, 500), at(500, 1000)]);
    Part::Area { poly }
}

// A hole in the middle of the diamond.
fn holed_diamond(alloc: Global) -> Result<Shape, AllocError> {
    let mut shape = Shape::empty(alloc);
    shape.push(diamond(alloc), true)?;
    shape.push(disc(500, 500, 200), false)?;
    Ok(shape)
}

#[test]
fn an_area_touches_by_its_edges_and_inside(rt: HostRuntime) -> Result<(), Fail> {
    let mut shape = Shape::empty(rt.alloc());
    shape.push(diamond(rt.alloc()), true)?;
    // In the row of the middle. The way to the nearest side is 0.7071 of the way to the corner inside, and
    // that way itself outside; half a diagonal is 141.422.
    for (x, holds, touches, covers) in [
        (-142_i16, false, false, false),
        (-100, false, true, false),
        (100, true, true, false),
        (200, true, true, false),
        (201, true, true, true),
        (500, true, true, true),
        (1100, false, true, false),
        (1142, false, false, false),
    ] {
        let q = at(x, 500);
        assert_eq!(rt;
            (
                shape.contains(q),
                shape.touches_at(q, 141422),
                shape.covers_at(q, 141422)
            ),
            (holds, touches, covers),
            "at {x}"
        );
    }
    Ok(())
}

#[test]
fn an_off_disc_takes_away_from_an_area(rt: HostRuntime) -> Result<(), Fail> {
    let shape = holed_diamond(rt.alloc())?;
    for (x, want) in [
        (-1_i16, false),
        (0, true),
        (399, true),
        (400, false),
        (500, false),
        (600, false),
        (601, true),
    ] {
        assert_eq!(rt; shape.contains(at(x, 500)), want, "at {x}");
    }
    assert_eq!(rt; (shape.vertices(), shape.pieces().len()), (4, 2));
    Ok(())
}

// A way to the east, in nanometres.
#[derive(Clone, Copy)]
struct East {
    by: u32,
}

impl Motion for East {
    ghost moves = { λ s p. cond (int_le (p.x +ℤ pos s.by) (pos 500000000)) (Some (record { x = p.x +ℤ pos s.by; y = p.y })) None };

    fn moved(&self, p: Point) -> Option<Point> {
        let x = p.x + self.by as i64;
        if x <= 500_000_000 {
            Some(Point { x, y: p.y })
        } else {
            None
        }
    }
}

#[test]
fn a_moved_shape_has_its_points_moved(rt: HostRuntime) -> Result<(), Fail> {
    let alloc = rt.alloc();
    let mut shape = holed_diamond(alloc)?;
    shape.push(CAPSULE, true)?;
    let moved = match shape.moved(alloc, &East { by: 2_000_000 })? {
        Some(moved) => moved,
        None => Shape::empty(alloc),
    };
    // The capsule from (0, 0) to (1, -2), 0.1 wide, comes to (2000, 0) and (2001, -2).
    for (x, y, want) in [
        (2500_i16, 500_i16, false),
        (2399, 500, true),
        (1999, 500, false),
        (2001, -2, true),
        (1, -2, false),
    ] {
        assert_eq!(rt; moved.contains(at(x, y)), want, "at ({x}, {y})");
    }
    assert_eq!(rt; (moved.vertices(), moved.pieces().len()), (4, 3));
    Ok(())
}

#[test]
fn a_shape_leaves_with_any_of_its_points(rt: HostRuntime) -> Result<(), Fail> {
    let alloc = rt.alloc();
    let mut shape = Shape::empty(alloc);
    shape.push(disc(0, 0, 200), true)?;
    shape.push(diamond(alloc), false)?;
    // The east corner, a millimetre from the origin, comes to the end of the range, and past it.
    for (by, leaves) in [(499_000_000_u32, false), (499_000_001, true)] {
        let east = East { by };
        let moved = shape.moved(alloc, &east)?;
        assert_eq!(rt;
            (shape.leaves(&east), moved.is_none()),
            (leaves, leaves),
            "by {by}"
        );
    }
    Ok(())
}

#[test]
fn the_rectangle_and_the_mirror_image_of_an_area(rt: HostRuntime) -> Result<(), Fail> {
    let shape = holed_diamond(rt.alloc())?;
    let other = shape.mirrored(rt.alloc())?;
    let here = Bounds {
        x0: 0,
        y0: 0,
        x1: 1_000_000,
        y1: 1_000_000,
    };
    let there = Bounds {
        x0: -1_000_000,
        y0: 0,
        x1: 0,
        y1: 1_000_000,
    };
    assert_eq!(rt; [shape.bounds(), other.bounds()], [Some(here), Some(there)]);
    assert_eq!(rt;
        (other.contains(at(-300, 500)), other.contains(at(300, 500))),
        (true, false)
    );
    Ok(())
}
