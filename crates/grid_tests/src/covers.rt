// What the definitions come to, worked out by hand.
ghost use Rattle.std.specs.Prelude.{◌≡◌, ◌<◌, pos, negsuc, IfOk};
ghost use Rattle.board_base.specs.Places.{IsNearPlace, IsPlace};
ghost use Rattle.shape_parts.specs.Parts.{IsPart};
ghost use Rattle.cell_grid.specs.Grid.{HasRows};

use board_base::{Bounds, Cell, Point};
use cell_grid::{Frame, Plane, Workbench, cell_at};
use copper_cover::{cover, dark_rectangle, is_kept, plain_cover};
use poly_area::Poly;
use shape_parts::{Painted, Part, Shape};
use std::alloc::{AllocError, Global};
use std::test::Fail;

// The place `x` micrometres right of the origin.
fn at(x: i16) -> Point
    ensures near { IsNearPlace result }
    ensures place { IsPlace result }
{
    Point {
        x: x as i64 * 1000,
        y: 0,
    }
}

// A disc round the origin, `d` micrometres wide.
fn disc(d: u16) -> Part
    ensures { IsPart result }
{
    Part::Disc {
        c: at(0),
        d: d as i64 * 1000,
    }
}

fn object(alloc: Global, d: u16, dark: bool) -> Result<Painted, AllocError> {
    let mut shape = Shape::empty(alloc);
    shape.push(disc(d), true)?;
    Ok(Painted { shape, dark })
}

#[test]
fn keeps_what_dark_touches_and_clear_leaves(rt: HostRuntime) -> Result<(), Fail> {
    let mut objects = Vec::new(rt.alloc());
    objects.push(object(rt.alloc(), 1000, true)?)?;
    objects.push(object(rt.alloc(), 600, false)?)?;
    // Up to 500 + 141.422 from the middle it is touched, up to 300 - 141.422 covered.
    for (x, want) in [
        (0_i16, false),
        (158, false),
        (159, true),
        (641, true),
        (642, false),
    ] {
        assert_eq!(rt; is_kept(&objects, at(x), 141422), want, "at {x}");
    }
    Ok(())
}

#[test]
fn the_rectangle_holds_what_is_dark(rt: HostRuntime) -> Result<(), Fail> {
    let mut objects = Vec::new(rt.alloc());
    objects.push(object(rt.alloc(), 600, false)?)?;
    assert_eq!(rt; dark_rectangle(&objects), None);
    for (d, r) in [(20_u16, 10000_i64), (50, 25000), (30, 25000)] {
        objects.push(object(rt.alloc(), d, true)?)?;
        let all = Bounds {
            x0: -r,
            y0: -r,
            x1: r,
            y1: r,
        };
        assert_eq!(rt; dark_rectangle(&objects), Some(all), "with {d}");
    }
    Ok(())
}

// Paints objects over nine columns and nine rows round the cell of the origin.
fn cover_small(bench: &mut Workbench, painted: &Vec<Painted>)
    requires frame { (bench.old).frame ≡ record { pitch = pos 200000; i0 = negsuc 3; j0 = negsuc 3; width = 9; height = 9 } }
    requires rows { HasRows bench.old }
    ensures frame { (bench.new).frame ≡ (bench.old).frame }
    ensures rows { HasRows bench.new }
{
    cover(bench, painted);
}

// The same by the slow program.
fn plain_small(bench: &mut Workbench, painted: &Vec<Painted>)
    requires frame { (bench.old).frame ≡ record { pitch = pos 200000; i0 = negsuc 3; j0 = negsuc 3; width = 9; height = 9 } }
    requires rows { HasRows bench.old }
    ensures frame { (bench.new).frame ≡ (bench.old).frame }
    ensures rows { HasRows bench.new }
{
    plain_cover(bench, painted);
}

// How many cells of a row are kept.
fn kept_in_row(bench: &Workbench, y: u32) -> u8
    requires y { y < (bench.now).frame.height }
    requires width { (bench.now).frame.width ≡ 9 }
{
    let mut n: u8 = 0;
    for x in 0..9 {
        if bench.get(Plane::Kept, cell_at(bench.frame(), x, y)) {
            n = n.wrapping_add(1);
        }
    }
    n
}

// A disc round the middle of the cell of the origin, `d` micrometres wide.
fn round(d: u16) -> Part
    ensures { IsPart result }
{
    Part::Disc {
        c: Point {
            x: 100_000,
            y: 100_000,
        },
        d: d as i64 * 1000,
    }
}

// A flash of it.
fn flash(alloc: Global, d: u16, dark: bool) -> Result<Painted, AllocError> {
    let mut shape = Shape::empty(alloc);
    shape.push(round(d), true)?;
    Ok(Painted { shape, dark })
}

// A dark flash with a hole.
fn ring(alloc: Global, d: u16, hole: u16) -> Result<Painted, AllocError> {
    let mut shape = Shape::empty(alloc);
    shape.push(round(d), true)?;
    shape.push(round(hole), false)?;
    Ok(Painted { shape, dark: true })
}

#[test]
fn what_lies_under_a_hole_stays(rt: HostRuntime) -> Result<(), Fail> {
    let frame = Frame {
        pitch: 200_000,
        i0: -4,
        j0: -4,
        width: 9,
        height: 9,
    };
    let Ok(mut bench) = Workbench::reserve(rt.alloc(), frame) else {
        panic!(rt; "no memory");
    };
    let mut alone = Vec::new(rt.alloc());
    alone.push(ring(rt.alloc(), 1000, 600)?)?;
    cover_small(&mut bench, &alone);
    assert_eq!(rt; kept_in_row(&bench, 4), 6);
    assert!(rt; !bench.get(Plane::Kept, Cell { i: 0, j: 0 }));
    let mut objects = Vec::new(rt.alloc());
    objects.push(flash(rt.alloc(), 1, true)?)?;
    objects.push(ring(rt.alloc(), 1000, 600)?)?;
    cover_small(&mut bench, &objects);
    assert_eq!(rt; kept_in_row(&bench, 4), 7);
    Ok(())
}

#[test]
fn a_dark_flash_and_then_a_clear_one(rt: HostRuntime) -> Result<(), Fail> {
    let frame = Frame {
        pitch: 200_000,
        i0: -4,
        j0: -4,
        width: 9,
        height: 9,
    };
    let Ok(mut bench) = Workbench::reserve(rt.alloc(), frame) else {
        panic!(rt; "no memory");
    };
    // Half the diagonal is 141,422: up to 641,422 from the middle a cell is touched, which is a squared
    // distance of 10 cells, and up to 158,578 it is covered, which is the middle cell alone.
    let mut objects = Vec::new(rt.alloc());
    objects.push(flash(rt.alloc(), 1000, true)?)?;
    objects.push(flash(rt.alloc(), 600, false)?)?;
    cover_small(&mut bench, &objects);
    for (y, want) in [
        (0, 0_u8),
        (1, 3),
        (2, 5),
        (3, 7),
        (4, 6),
        (5, 7),
        (6, 5),
        (7, 3),
        (8, 0),
    ] {
        assert_eq!(rt; kept_in_row(&bench, y), want, "in row {y}");
    }
    assert!(rt; !bench.get(Plane::Kept, Cell { i: 0, j: 0 }));
    // A small dark flash on top keeps the middle cell.
    objects.push(flash(rt.alloc(), 1, true)?)?;
    cover_small(&mut bench, &objects);
    assert_eq!(rt; kept_in_row(&bench, 4), 7);
    // Nothing is left of what was kept before.
    let mut objects = Vec::new(rt.alloc());
    objects.push(flash(rt.alloc(), 200, true)?)?;
    cover_small(&mut bench, &objects);
    for (y, want) in [(2, 0_u8), (3, 1), (4, 3), (5, 1), (6, 0)] {
        assert_eq!(rt; kept_in_row(&bench, y), want, "in row {y}");
    }
    Ok(())
}

/// How many cells are kept.
pub fn kept(bench: &Workbench) -> u32 {
    let frame = bench.frame();
    let mut n: u32 = 0;
    for y in 0..frame.height {
        for x in 0..frame.width {
            if bench.get(Plane::Kept, cell_at(frame, x, y)) {
                n = n.wrapping_add(1);
            }
        }
    }
    n
}

// The corner of a square round the middle of the cell of the origin, in micrometres from there.
fn corner(x: i16, y: i16) -> Point
    ensures { IsPlace result }
{
    Point {
        x: x as i64 * 1000 + 100_000,
        y: y as i64 * 1000 + 100_000,
    }
}

// A square of 1 mm round the middle of the cell of the origin.
fn square(alloc: Global) -> Result<Part, AllocError>
    ensures { IfOk result IsPart }
{
    let mut poly = Poly::empty(alloc);
    match poly.add_loop(&[
        corner(-500, -500),
        corner(500, -500),
        corner(500, 500),
        corner(-500, 500),
    ]) {
        Ok(()) => Ok(Part::Area { poly }),
        Err(_) => Err(AllocError),
    }
}

// A capsule of 1 mm by 0.2 mm round the middle of the cell of the origin.
fn slot() -> Part
    ensures { IsPart result }
{
    Part::Capsule {
        a: corner(-400, 0),
        b: corner(400, 0),
        d: 200_000,
    }
}

// Some objects, for a table.
fn drawing(alloc: Global, n: u8) -> Result<Vec<Painted>, AllocError> {
    let mut shape = Shape::empty(alloc);
    let mut clear = Shape::empty(alloc);
    match n {
        0 => {
            shape.push(round(1000), true)?;
            clear.push(round(600), true)?;
        }
        1 => {
            shape.push(square(alloc)?, true)?;
            shape.push(round(600), false)?;
        }
        2 => shape.push(slot(), true)?,
        3 => shape.push(round(0), true)?,
        4 => {
            shape.push(slot(), true)?;
            shape.push(square(alloc)?, false)?;
        }
        5 => {
            shape.push(square(alloc)?, true)?;
            clear.push(square(alloc)?, true)?;
        }
        _ => {
            shape.push(square(alloc)?, true)?;
            shape.push(square(alloc)?, false)?;
            shape.push(slot(), true)?;
            clear.push(slot(), true)?;
        }
    }
    let mut objects = Vec::new(alloc);
    objects.push(Painted { shape, dark: true })?;
    objects.push(Painted {
        shape: clear,
        dark: false,
    })?;
    Ok(objects)
}

// How many cells the slow program and the quick one keep of a drawing, on one grid.
fn counts(alloc: Global, n: u8) -> Option<(u32, u32)> {
    let frame = Frame {
        pitch: 200_000,
        i0: -4,
        j0: -4,
        width: 9,
        height: 9,
    };
    let Ok(objects) = drawing(alloc, n) else {
        return None;
    };
    let Ok(mut bench) = Workbench::reserve(alloc, frame) else {
        return None;
    };
    plain_small(&mut bench, &objects);
    let plain = kept(&bench);
    cover_small(&mut bench, &objects);
    Some((plain, kept(&bench)))
}

#[test]
fn both_programs_keep_the_same_cells(rt: HostRuntime) {
    // Half the diagonal of a cell is 141.422. In cells of 200 from the middle one:
    // 0: rows of 3, 5, 7, 6, 7, 5 and 3;
    // 1: 7 by 7, as the corners of 600, 600 are 141.421 from those of the square, less the middle one;
    // 2: what is within 241.422 of the slot, 7 in its row and 5 on each side;
    // 3: nothing touches a disc of no size;
    // 4: the square takes away the 3 by 3 cells to whose centres no side of it is nearer than 141.422,
    //    so 4 are left in the row, and 2 on each side;
    // 5: 7 by 7 less those 3 by 3;
    // 6: the ring of 40, and the slot over it, which as a clear object covers no cell.
    for (n, want) in [
        (0_u8, 36_u32),
        (1, 48),
        (2, 17),
        (3, 0),
        (4, 8),
        (5, 40),
        (6, 49),
    ] {
        assert_eq!(rt; counts(rt.alloc(), n), Some((want, want)), "drawing {n}");
    }
}
