// What texts stand for and where shapes come to, worked out by hand.
ghost use Rattle.board_base.specs.Places.{IsNearPlace};

use crate::drawn::{Seen, disc, four, own_shape, seen};
use apertures::{ApertureError, Macros, Mirror, Unit, define, shape_at, stroke};
use board_base::{Bounds, Point};
use shape_parts::Shape;
use std::alloc::Global;
use std::process::Abort;
use std::test::Fail;

fn defines(
    rt: &impl Abort,
    alloc: Global,
    bytes: &[u8],
    unit: Unit,
    parts: &[Seen],
    width: Option<i64>,
) -> Result<(), Fail> {
    let a = define(alloc, bytes, unit, &Macros::empty(alloc))?;
    assert_eq!(rt; seen(alloc, &own_shape(alloc, &a)?)?.as_slice(), parts);
    assert_eq!(rt; stroke(&a), width);
    Ok(())
}

#[test]
fn circles_are_defined(rt: HostRuntime) -> Result<(), Fail> {
    let alloc = rt.alloc();
    for (bytes, unit, d) in [
        (b"C,1.600000".as_slice(), Unit::Mm, 1_600_000_i64),
        (b"C,+.5", Unit::Mm, 500_000),
        (b"C,0", Unit::Mm, 0),
        (b"C,-0.0000000001", Unit::Mm, 0),
        (b"C,0.000000499", Unit::Mm, 0),
        (b"C,0.0000005", Unit::Mm, 1),
        (b"C,1000.0000004999", Unit::Mm, 1_000_000_000),
        (b"C,0.05", Unit::Inch, 1_270_000),
        (b"C,0.00000002", Unit::Inch, 1),
    ] {
        defines(&rt, alloc, bytes, unit, &[disc(true, d)], Some(d))?;
    }
    let pierced = [disc(true, 500_000), disc(false, 200_000)];
    defines(&rt, alloc, b"C,0.5X0.2", Unit::Mm, &pierced, None)?;
    let empty = [disc(true, 1_000_000), disc(false, 0)];
    defines(&rt, alloc, b"C,1X0", Unit::Mm, &empty, None)?;
    Ok(())
}

#[test]
fn obrounds_are_defined(rt: HostRuntime) -> Result<(), Fail> {
    let alloc = rt.alloc();
    let along = [(true, (250_000, 0), (-250_000, 0), 500_000)];
    defines(&rt, alloc, b"O,1X0.5", Unit::Mm, &along, None)?;
    let upright = [
        (true, (0, 250_000), (0, -250_000), 500_000),
        disc(false, 200_000),
    ];
    defines(&rt, alloc, b"O,0.5X1X0.2", Unit::Mm, &upright, None)?;
    // A difference of 3 nm has the half 2.
    let odd = [(true, (2, 0), (-2, 0), 1_000_000)];
    defines(&rt, alloc, b"O,1.000003X1", Unit::Mm, &odd, None)?;
    // The sides are the same in whole nanometres.
    let square = [disc(true, 1_000_000)];
    defines(&rt, alloc, b"O,1X1.0000001", Unit::Mm, &square, None)?;
    Ok(())
}

#[test]
fn rectangles_are_defined(rt: HostRuntime) -> Result<(), Fail> {
    let alloc = rt.alloc();
    let wide = four(
        (1_000_000, 500_000),
        (-1_000_000, 500_000),
        (-1_000_000, -500_000),
        (1_000_000, -500_000),
    );
    defines(&rt, alloc, b"R,2X1", Unit::Mm, &wide, None)?;
    // Sides of 3 nm and 5 nm have the halves 2 and 3.
    let odd = four((2, 3), (-2, 3), (-2, -3), (2, -3));
    defines(&rt, alloc, b"R,0.000003X0.000005", Unit::Mm, &odd, None)?;
    let [a, b, c, d] = four(
        (500_000, 500_000),
        (-500_000, 500_000),
        (-500_000, -500_000),
        (500_000, -500_000),
    );
    let pierced = [a, b, c, d, disc(false, 300_000)];
    defines(&rt, alloc, b"R,1X1X0.3", Unit::Mm, &pierced, None)?;
    Ok(())
}

#[test]
fn polygons_are_defined(rt: HostRuntime) -> Result<(), Fail> {
    let alloc = rt.alloc();
    let square = four((500_000, 0), (0, 500_000), (-500_000, 0), (0, -500_000));
    defines(&rt, alloc, b"P,1X4", Unit::Mm, &square, None)?;
    defines(&rt, alloc, b"P,1X4X0", Unit::Mm, &square, None)?;
    // A turn of less than a millionth of a degree is cut.
    defines(&rt, alloc, b"P,1X4.0X-0.0000009", Unit::Mm, &square, None)?;
    // 0.5 mm by the cosine of 45 degrees, 0.70710678, are 353,553.39 nm.
    let turned = four(
        (353_553, -353_553),
        (353_553, 353_553),
        (-353_553, 353_553),
        (-353_553, -353_553),
    );
    defines(&rt, alloc, b"P,1X4X-45", Unit::Mm, &turned, None)?;
    // 0.5 mm by the sine of 120 degrees, 0.86602540, are 433,012.70 nm.
    let pierced = [
        (true, (500_000, 0), (-250_000, 433_013), -1),
        (true, (-250_000, 433_013), (-250_000, -433_013), -1),
        (true, (-250_000, -433_013), (500_000, 0), -1),
        disc(false, 200_000),
    ];
    defines(&rt, alloc, b"P,1X3X360X0.2", Unit::Mm, &pierced, None)?;
    Ok(())
}

#[test]
fn others_are_refused(rt: HostRuntime) {
    let alloc = rt.alloc();
    let macros = Macros::empty(alloc);
    for (bytes, fault) in [
        (b"".as_slice(), ApertureError::Syntax),
        (b",1", ApertureError::Syntax),
        (b"C", ApertureError::Syntax),
        (b"C,", ApertureError::Syntax),
        (b"C,1X", ApertureError::Syntax),
        (b"C,1,1", ApertureError::Syntax),
        (b"C,1x1", ApertureError::Syntax),
        (b"C,-1", ApertureError::Syntax),
        (b"C,1X1X-1", ApertureError::Syntax),
        (b"C,1X1X1X1", ApertureError::Syntax),
        (b"C,1234567890123456789", ApertureError::Syntax),
        (b"O,1", ApertureError::Syntax),
        (b"O,1X1X1X1X1", ApertureError::Syntax),
        (b"R,1", ApertureError::Syntax),
        (b"R,1X-1", ApertureError::Syntax),
        (b"P,1", ApertureError::Syntax),
        (b"P,-1X6", ApertureError::Syntax),
        (b"P,1X2", ApertureError::Syntax),
        (b"P,1X13", ApertureError::Syntax),
        (b"P,1X6.5", ApertureError::Syntax),
        (b"P,1X-6", ApertureError::Syntax),
        (b"P,1X2X0X1X1", ApertureError::Syntax),
        (b"P,1X6X0X1X-1", ApertureError::Syntax),
        (b"P,1X6X0X1X1X1", ApertureError::Syntax),
        (b"Q,1", ApertureError::Syntax),
        (b"RoundRect", ApertureError::Syntax),
        (b"C,1X1X1", ApertureError::Unsupported),
        (b"C,2000X1X1", ApertureError::Unsupported),
        (b"O,1X1X1X1", ApertureError::Unsupported),
        (b"R,1X1X1X1", ApertureError::Unsupported),
        (b"P,1X6X0X1X1", ApertureError::Unsupported),
        (b"C,1000.0000005", ApertureError::OutOfRange),
        (b"C,1X1000.1", ApertureError::OutOfRange),
        (b"O,1X1000.1", ApertureError::OutOfRange),
        (b"R,1000.1X1", ApertureError::OutOfRange),
        (b"P,1000.1X6", ApertureError::OutOfRange),
        (b"P,1X6X-15.5X1000.1", ApertureError::OutOfRange),
    ] {
        let refused = define(alloc, bytes, Unit::Mm, &macros).err();
        assert_eq!(rt; refused, Some(fault), "{bytes:?}");
    }
}

// A place near the origin, in micrometres.
fn at(x: i16, y: i16) -> Point
    ensures { IsNearPlace result }
{
    Point {
        x: x as i64 * 1_000,
        y: y as i64 * 1_000,
    }
}

// An obround of 2 mm by 0.1 mm with its middle at (1, 2) mm.
fn bar(alloc: Global, mirror: Mirror, angle: i64) -> Result<Shape, Fail> {
    let a = define(alloc, b"O,2X0.1", Unit::Mm, &Macros::empty(alloc))?;
    Ok(shape_at(alloc, &a, at(1_000, 2_000), mirror, angle)?)
}

#[test]
fn shapes_are_mirrored_and_then_turned(rt: HostRuntime) -> Result<(), Fail> {
    // 0.8 mm from the middle, 30 degrees to either side of the x axis, and up.
    let rising = at(1_693, 2_400);
    let falling = at(1_693, 1_600);
    let up = at(1_000, 2_800);
    for (mirror, angle, want) in [
        (Mirror::Keep, 30_000_000_i64, (true, false, false)),
        (Mirror::X, 30_000_000, (true, false, false)),
        (Mirror::Y, 30_000_000, (true, false, false)),
        (Mirror::Xy, -30_000_000, (false, true, false)),
        (Mirror::Keep, 90_000_000, (false, false, true)),
        (Mirror::Keep, 360_000_000, (false, false, false)),
    ] {
        let shape = bar(rt.alloc(), mirror, angle)?;
        let got = (
            shape.contains(rising),
            shape.contains(falling),
            shape.contains(up),
        );
        assert_eq!(rt; got, want, "{mirror:?}, turned by {angle}");
    }
    Ok(())
}

#[test]
fn areas_are_turned(rt: HostRuntime) -> Result<(), Fail> {
    let alloc = rt.alloc();
    let a = define(alloc, b"P,1X4", Unit::Mm, &Macros::empty(alloc))?;
    let shape = shape_at(alloc, &a, at(0, 0), Mirror::Keep, 45_000_000)?;
    let turned = four(
        (353_553, 353_553),
        (-353_553, 353_553),
        (-353_553, -353_553),
        (353_553, -353_553),
    );
    assert_eq!(rt; seen(alloc, &shape)?.as_slice(), turned.as_slice());
    let far = shape_at(alloc, &a, at(0, 0), Mirror::X, 0)?;
    let mirrored = four((-500_000, 0), (0, 500_000), (500_000, 0), (0, -500_000));
    assert_eq!(rt; seen(alloc, &far)?.as_slice(), mirrored.as_slice());
    let edge = Point {
        x: 499_500_001,
        y: 0,
    };
    let refused = shape_at(alloc, &a, edge, Mirror::Keep, 0).err();
    assert_eq!(rt; refused, Some(ApertureError::OutOfRange));
    Ok(())
}

#[test]
fn holes_take_away(rt: HostRuntime) -> Result<(), Fail> {
    let alloc = rt.alloc();
    let a = define(alloc, b"C,0.5X0.2", Unit::Mm, &Macros::empty(alloc))?;
    let shape = shape_at(alloc, &a, at(100, 0), Mirror::Keep, 0)?;
    for (x, want) in [
        (100_i16, false),
        (200, false),
        (201, true),
        (350, true),
        (351, false),
    ] {
        assert_eq!(rt; shape.contains(at(x, 0)), want, "at {x}");
    }
    Ok(())
}

#[test]
fn shapes_stay_in_the_range(rt: HostRuntime) -> Result<(), Fail> {
    let alloc = rt.alloc();
    let a = define(alloc, b"O,1X0.5", Unit::Mm, &Macros::empty(alloc))?;
    for (x, y, refused) in [
        (499_750_000_i64, -500_000_000_i64, None),
        (499_750_001, 0, Some(ApertureError::OutOfRange)),
        (-499_750_001, 0, Some(ApertureError::OutOfRange)),
        (0, 500_000_001, Some(ApertureError::OutOfRange)),
    ] {
        let shape = shape_at(alloc, &a, Point { x, y }, Mirror::Keep, 0);
        assert_eq!(rt; shape.err(), refused, "({x}, {y})");
    }
    let shape = shape_at(alloc, &a, Point { x: 7, y: -7 }, Mirror::Keep, 90_000_000)?;
    let bounds = Bounds {
        x0: 7 - 250_000,
        y0: -7 - 500_000,
        x1: 7 + 250_000,
        y1: -7 + 500_000,
    };
    assert_eq!(rt; shape.bounds(), Some(bounds));
    Ok(())
}
