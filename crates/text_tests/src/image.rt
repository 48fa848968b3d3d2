// Small files and what they paint, worked out by hand. Lengths are in nanometres.
use board_base::Bounds;
use gerber_image::{GerberError, GerberKind, read_image};
use macro_eval::MacroFault;
use std::alloc::{AllocError, Global};
use std::process::Abort;

// The square round a disc.
fn disc(x: i32, y: i32, d: u16, dark: bool) -> (Option<Bounds>, bool) {
    let half = d as i64 * 500;
    let bounds = Bounds {
        x0: x as i64 - half,
        y0: y as i64 - half,
        x1: x as i64 + half,
        y1: y as i64 + half,
    };
    (Some(bounds), dark)
}

// The rectangles round the objects of a file, in their order, and which objects are dark.
fn paints(rt: &impl Abort, alloc: Global, bytes: &[u8], expected: &[(Option<Bounds>, bool)]) {
    let Ok(painted) = read_image(alloc, bytes) else {
        panic!(rt; "no image");
    };
    assert_eq!(rt; painted.len(), expected.len());
    for (object, (bounds, dark)) in painted.iter().zip(expected) {
        assert_eq!(rt; object.shape.bounds(), *bounds);
        assert_eq!(rt; object.dark, *dark);
    }
}

fn refuses(rt: &impl Abort, alloc: Global, bytes: &[u8], kind: GerberKind, at: usize) {
    match read_image(alloc, bytes) {
        Ok(_) => panic!(rt; "an image"),
        Err(e) => assert_eq!(rt; e, GerberError { kind, at }),
    }
}

fn joined(alloc: Global, parts: &[&[u8]]) -> Result<Vec<u8>, AllocError> {
    let mut bytes = Vec::new(alloc);
    for part in parts {
        bytes.extend_from_slice(part)?;
    }
    Ok(bytes)
}

#[test]
fn repeat_in_a_grid(rt: HostRuntime) {
    let bytes = b"%FSLAX46Y46*%%MOMM*%%ADD10C,1*%%ADD11C,0.4*%\n%SRX3Y2I2J0.5*%\n\
        D10*X0Y0D03*%LPC*%D11*X0Y0D03*%SR*%M02*";
    let expected = [
        disc(0, 0, 1000, true),
        disc(0, 0, 400, false),
        disc(0, 500_000, 1000, true),
        disc(0, 500_000, 400, false),
        disc(2_000_000, 0, 1000, true),
        disc(2_000_000, 0, 400, false),
        disc(2_000_000, 500_000, 1000, true),
        disc(2_000_000, 500_000, 400, false),
        disc(4_000_000, 0, 1000, true),
        disc(4_000_000, 0, 400, false),
        disc(4_000_000, 500_000, 1000, true),
        disc(4_000_000, 500_000, 400, false),
    ];
    paints(&rt, rt.alloc(), bytes, &expected);
}

#[test]
fn in_the_manner_of_kicad(rt: HostRuntime) {
    let bytes = b"%TF.GenerationSoftware,KiCad,Pcbnew,7.0.0*%\n%FSLAX46Y46*%\n\
        G04 Gerber Fmt 4.6, Leading zero omitted, Abs format (unit mm)*\n%MOMM*%\n%LPD*%\nG01*\n\
        %TA.AperFunction,ComponentPad*%\n%ADD10C,1.600000*%\n%TD*%\n%ADD11C,0.400000*%\nD10*\n\
        X1000000Y-1000000D03*\nX3540000Y-1000000D03*\nD11*\nX1000000Y-1000000D02*\n\
        X3540000Y-1000000D01*\nM02*\n";
    let stroke = Bounds {
        x0: 800_000,
        y0: -1_200_000,
        x1: 3_740_000,
        y1: -800_000,
    };
    let expected = [
        disc(1_000_000, -1_000_000, 1600, true),
        disc(3_540_000, -1_000_000, 1600, true),
        (Some(stroke), true),
    ];
    paints(&rt, rt.alloc(), bytes, &expected);
}

#[test]
fn inches_turns_and_kept_values(rt: HostRuntime) {
    // 2 * 25.4 nm is 51 nm. The second flash keeps its x and its act.
    let inches = b"%FSLAX26Y26*%G70*%ADD10C,0.1*%D10*X2Y0D03*Y1000000*M02*";
    let expected = [disc(51, 0, 2540, true), disc(51, 25_400_000, 2540, true)];
    paints(&rt, rt.alloc(), inches, &expected);

    // An obround of 3 mm by 1 mm on its end.
    let turned = b"%FSLAX46Y46*%%MOMM*%%ADD10O,3X1*%%LMX*%%LR-270.0*%D10*D03*M02*";
    let upright = Bounds {
        x0: -500_000,
        y0: -1_500_000,
        x1: 500_000,
        y1: 1_500_000,
    };
    paints(&rt, rt.alloc(), turned, &[(Some(upright), true)]);
}

#[test]
fn axes_with_other_digits(rt: HostRuntime) {
    // A flash 2 mm to the east and 3 mm to the north; whole circles round centres 1 mm to the east and 1 mm to the north.
    let bytes = b"%FSLAX46Y35*%%MOMM*%%ADD10C,0.2*%D10*X2000000Y300000D03*\
        G75*X0Y0D02*G03I1000000D01*J100000D01*M02*";
    let expected = [
        disc(2_000_000, 3_000_000, 200, true),
        disc(1_000_000, 0, 2200, true),
        disc(0, 1_000_000, 2200, true),
    ];
    paints(&rt, rt.alloc(), bytes, &expected);
}

// A file paints one object, whose areas have so many vertices, in this rectangle.
fn paints_one(
    rt: &impl Abort,
    alloc: Global,
    commands: &[u8],
    vertices: u128,
    (x0, y0, x1, y1): (i64, i64, i64, i64),
) {
    let settings = b"%FSLAX46Y46*%%MOMM*%".as_slice();
    let Ok(bytes) = joined(alloc, &[settings, commands, b"M02*"]) else {
        panic!(rt; "no memory");
    };
    let Ok(painted) = read_image(alloc, &bytes) else {
        panic!(rt; "no image");
    };
    assert_eq!(rt; painted.len(), 1);
    assert_eq!(rt; painted[0].shape.vertices(), vertices);
    assert_eq!(rt; painted[0].shape.bounds(), Some(Bounds { x0, y0, x1, y1 }));
}

#[test]
fn areas(rt: HostRuntime) {
    for (commands, vertices, bounds) in [
        // A square whose last point is its first one again, and one that is left open.
        (
            b"G36*X9D01*Y9D01*X0D01*Y0D01*G37*".as_slice(),
            4,
            (0, 0, 9, 9),
        ),
        (b"G36*X9D01*Y9D01*X0D01*G37*", 4, (0, 0, 9, 9)),
        // Two points of three that are one.
        (b"G36*X5Y5D01*D01*G37*", 3, (0, 0, 5, 5)),
        // A contour of one place bounds nothing; the next one does.
        (b"G36*D01*D01*X2Y2D02*X4D01*Y4D01*G37*", 3, (2, 2, 4, 4)),
        // A square on its corner.
        (
            b"%ADD10R,2X2*%%LR45*%D10*D03*",
            4,
            (-1_414_214, -1_414_214, 1_414_214, 1_414_214),
        ),
    ] {
        paints_one(&rt, rt.alloc(), commands, vertices, bounds);
    }
}

#[test]
fn arcs(rt: HostRuntime) {
    for (commands, vertices, bounds) in [
        // A whole circle.
        (
            b"G75*X500000D02*G36*G03I-500000D01*G37*".as_slice(),
            128,
            (-500_000, -500_000, 500_000, 500_000),
        ),
        // Quarters, clockwise and counterclockwise, and their centre.
        (
            b"G75*G36*X1000000D02*G02X0Y-1000000I-1000000D01*G01Y0D01*G37*",
            66,
            (0, -1_000_000, 1_000_000, 0),
        ),
        (
            b"G75*G36*X1000000D02*G03X0Y1000000I-1000000D01*G01Y0D01*G37*",
            66,
            (0, 0, 1_000_000, 1_000_000),
        ),
        // A half circle of strokes 0.2 mm wide.
        (
            b"%ADD10C,0.2*%D10*G75*X1000000D02*G03X-1000000I-1000000D01*",
            0,
            (-1_100_000, -100_000, 1_100_000, 1_100_000),
        ),
    ] {
        paints_one(&rt, rt.alloc(), commands, vertices, bounds);
    }
}

#[test]
fn commands_without_effect(rt: HostRuntime) {
    let bytes =
        b"%FSLAX46Y46*%%MOMM*%%FSLAX46Y46*%%IPPOS*%%INa*%%LNb*%%OFA0B0*%%MIA0.0B0*%%ASAXBY*%%IR0*%\
        %SFA1.0B1.00*%%LS1.0*%%T\nO.P,R1*%G71*G04 50%*G4*G90*G75*%ADD0010C,1*%G54D10*G1X+0J-1D3*G01*D02*M02*";
    paints(&rt, rt.alloc(), bytes, &[disc(0, 0, 1000, true)]);
}

#[test]
fn files_that_end_too_early(rt: HostRuntime) {
    let settings = b"%FSLAX46Y46*%%MOMM*%".as_slice();
    refuses(&rt, rt.alloc(), settings, GerberKind::NoEnd, 20);
    let unclosed = b"%FSLAX46Y46*%%MOMM*".as_slice();
    refuses(&rt, rt.alloc(), unclosed, GerberKind::Syntax, 13);
}

#[test]
fn commands_that_are_refused(rt: HostRuntime) {
    for (bytes, kind, at) in [
        (b"%MOMM*%G70*M02*".as_slice(), GerberKind::Syntax, 7),
        (b"X1Y1*", GerberKind::Syntax, 0),
        (b"Y1X1D02*", GerberKind::Syntax, 0),
        (b"G001X1D02*", GerberKind::Syntax, 0),
        (b"MOMM*", GerberKind::Syntax, 0),
        (b"%D10*%", GerberKind::Syntax, 1),
        (b"%LS*%", GerberKind::Syntax, 1),
        (b"%FSLAX77Y46*%", GerberKind::Syntax, 1),
        (b"%FSLAX46Y46*%X12345678901D02*", GerberKind::Syntax, 13),
        (
            b"%FSLAX46Y35*%X1234567890Y123456789D02*",
            GerberKind::Syntax,
            13,
        ),
        (b"%MOMM*%%ADD10C,-1*%", GerberKind::Syntax, 8),
        (b"G37*", GerberKind::Syntax, 0),
        (b"G36*%SR*%", GerberKind::Syntax, 5),
        (b"%AM*1,1,1,0,0*%", GerberKind::Syntax, 1),
        (b"%ADD10Q,1*%", GerberKind::Syntax, 1),
        (b"%ADD0000000000000000010C,1*%", GerberKind::Syntax, 1),
        (b"%SRX0000000000000000002Y1I0J0*%", GerberKind::Syntax, 1),
        (b"%AB*%", GerberKind::Unsupported, 1),
        (b"%LS2*%", GerberKind::Unsupported, 1),
        (b"%FSTAX46Y46*%", GerberKind::Unsupported, 1),
        (b"G91*", GerberKind::Unsupported, 0),
        (b"%ADD10C,1X1X1*%", GerberKind::Unsupported, 1),
        (
            b"%MOMM*%%ADD10O,1X2*%D10*X1D01*",
            GerberKind::Unsupported,
            24,
        ),
        (
            b"%FSLAX46Y46*%%MOMM*%%ADD10C,0.1*%D10*G74*G02*X0Y0D02*X1000Y1000I1000J0D01*M02*",
            GerberKind::Unsupported,
            53,
        ),
        (b"G36*G03D01*", GerberKind::Unsupported, 4),
    ] {
        refuses(&rt, rt.alloc(), bytes, kind, at);
    }
}

#[test]
fn commands_that_do_not_fit(rt: HostRuntime) {
    for (bytes, kind, at) in [
        (b"I1D02*".as_slice(), GerberKind::NoFormat, 0),
        (b"X1234567890123456789D02*", GerberKind::NoFormat, 0),
        (b"%FSLAX46Y46*%X1D02*", GerberKind::NoUnit, 13),
        (b"%ADD10C,1*%", GerberKind::NoUnit, 1),
        (b"D99999999999*", GerberKind::NoAperture, 0),
        (b"D0000000000000000000010*", GerberKind::NoAperture, 0),
        (b"D03*", GerberKind::NoAperture, 0),
        (b"G36*D03*", GerberKind::NoAperture, 4),
        (b"G36*G36*", GerberKind::OpenRegion, 4),
        (b"G36*%LPC*%", GerberKind::OpenRegion, 5),
        (b"G36*%IPPOS*%", GerberKind::OpenRegion, 5),
        (b"G36*%TFa*%G04b*G70*M02*", GerberKind::OpenRegion, 19),
        (
            b"%MOMM*%%ADD10C,1*%G36*D10*D03*",
            GerberKind::OpenRegion,
            26,
        ),
        (
            b"%FSLAX46Y46*%%MOMM*%G75*G36*G02X1000000J1000000D01*",
            GerberKind::OpenArc,
            28,
        ),
        (b"%MOMM*%%SRX2Y1I1J1*%M02*", GerberKind::OpenRepeat, 20),
        (
            b"%MOMM*%%AMA*1,1,$1/0,0,0*%%ADD10A,1*%",
            GerberKind::Macro(MacroFault::ZeroDivisor),
            27,
        ),
        (b"%AMA**%", GerberKind::Macro(MacroFault::BadExpression), 1),
        (b"G36*%AMA**%", GerberKind::OpenRegion, 5),
        (b"%MOMM*%%ADD10C,1001*%", GerberKind::OutOfRange, 8),
        (
            b"%FSLAX66Y66*%%MOMM*%%ADD10C,1*%D10*%SRX2Y1I1J0*%X500000000D03*%SR*%",
            GerberKind::OutOfRange,
            63,
        ),
        (
            b"%FSLAX46Y46*%%MOMM*%G75*G36*X500000000D02*G03J1000000D01*",
            GerberKind::OutOfRange,
            42,
        ),
        (
            b"%FSLAX46Y46*%%MOMM*%%SRX1000Y1000I0J0*%G36*X1D01*Y1D01*X2D01*Y2D01*G37*%SR*%",
            GerberKind::TooManyVertices,
            72,
        ),
        (
            b"%MOMM*%%ADD10C,1*%D10*%SRX1000Y1000I0J0*%D03*D03*%SR*%",
            GerberKind::TooManyObjects,
            50,
        ),
    ] {
        refuses(&rt, rt.alloc(), bytes, kind, at);
    }
}

// A file with these macro and aperture definitions flashes one object, whose areas have so many vertices.
fn flashes(
    rt: &impl Abort,
    alloc: Global,
    definitions: &[&[u8]],
    vertices: u128,
    bounds: (i64, i64, i64, i64),
) {
    let Ok(bytes) = joined(alloc, definitions) else {
        panic!(rt; "no memory");
    };
    let Ok(commands) = joined(alloc, &[bytes.as_slice(), b"D10*D03*"]) else {
        panic!(rt; "no memory");
    };
    paints_one(rt, alloc, &commands, vertices, bounds);
}

// The same text many times.
fn repeated(alloc: Global, text: &[u8], times: usize) -> Result<Vec<u8>, AllocError> {
    let mut bytes = Vec::new(alloc);
    for _ in 0..times {
        bytes.extend_from_slice(text)?;
    }
    Ok(bytes)
}

#[test]
fn macros(rt: HostRuntime) {
    let alloc = rt.alloc();
    let unit = (-500_000, -500_000, 500_000, 500_000);
    // 1,300 arguments, of which the macro takes the first.
    let Ok(arguments) = repeated(alloc, b"X1", 1_299) else {
        panic!(rt; "no memory");
    };
    flashes(
        &rt,
        alloc,
        &[b"%AMA*1,1,$1,0,0*%%ADD10A,1".as_slice(), &arguments, b"*%"],
        0,
        unit,
    );
    // An outline of 5,000 points.
    let Ok(points) = repeated(alloc, b",1,0", 4_998) else {
        panic!(rt; "no memory");
    };
    flashes(
        &rt,
        alloc,
        &[
            b"%AMA*4,1,5000,0,0".as_slice(),
            &points,
            b",1,1,0,0,0*%%ADD10A*%",
        ],
        5_000,
        (0, 0, 1_000_000, 1_000_000),
    );
    // The last definition of a name counts. A line break in its AM is dropped.
    flashes(
        &rt,
        alloc,
        &[b"%AMA*1,1,9,0,0*%%A\nMA*1,1,1,0,0*%%ADD10A*%"],
        0,
        unit,
    );
}

#[test]
fn a_layer_of_more_than_a_megabyte(rt: HostRuntime) {
    let alloc = rt.alloc();
    let Ok(comment) = repeated(alloc, b"0123456789", 120_000) else {
        panic!(rt; "no memory");
    };
    let Ok(bytes) = joined(
        alloc,
        &[
            b"G04".as_slice(),
            &comment,
            b"*%FSLAX46Y46*%%MOMM*%%ADD10C,1*%D10*X0Y0D03*M02*",
        ],
    ) else {
        panic!(rt; "no memory");
    };
    paints(&rt, alloc, &bytes, &[disc(0, 0, 1000, true)]);
}
