// Boards that are cut out.
use board_base::{MemoryShelf, Point};
use mill_top::{LimitHit, OutlineError, Status};
use std::alloc::Global;
use std::test::Fail;
use trial_runs::carried_out;

// A square of 10 mm, and a cut-out of 6 by 2 mm in it.
const SQUARE: &str = "%FSLAX46Y46*%\n%MOMM*%\n%ADD10C,0.100000*%\nD10*\nX0Y0D02*\nX10000000D01*\n\
    Y10000000D01*\nX0D01*\nY0D01*\n";

const CUT_OUT: &str =
    "X2000000Y4000000D02*\nX8000000D01*\nY6000000D01*\nX2000000D01*\nY4000000D01*\nM02*\n";

// The cut-out without its lower side.
const OPEN_CUT_OUT: &str = "X8000000Y4000000D02*\nY6000000D01*\nX2000000D01*\nY4000000D01*\nM02*\n";

const WORDS: [&str; 9] = [
    "mill",
    "-",
    "--outline=o.gbr",
    "--pitch=0.2",
    "--cutter-diameter=1",
    "--bridges=1",
    "--zbridges=-0.6",
    "--cut-infeed=0.6",
    "--zcut=-1.8",
];

// The three levels of the walk in the cut-out, whose bridges stand at its first and its middle centre.
const LAST_WALK: &str = "G0 X2.900000 Y4.900000\nG1 Z-0.600000 F60.000000\n\
    G1 X7.100000 Y4.900000 F100.000000\nG1 X7.100000 Y5.100000\nG1 X2.900000 Y5.100000\nG0 Z2.000000\n\
    G0 X2.900000 Y4.900000\nG1 Z-0.600000 F60.000000\n\
    G1 X4.100000 Y4.900000 F100.000000\nG1 Z-1.200000 F60.000000\n\
    G1 X6.100000 Y4.900000 F100.000000\nG1 Z-0.600000 F60.000000\n\
    G1 X7.100000 Y4.900000 F100.000000\nG1 X7.100000 Y5.100000\nG1 X5.900000 Y5.100000\n\
    G1 Z-1.200000 F60.000000\nG1 X3.900000 Y5.100000 F100.000000\nG1 Z-0.600000 F60.000000\n\
    G1 X2.900000 Y5.100000 F100.000000\nG0 Z2.000000\n\
    G0 X2.900000 Y4.900000\nG1 Z-0.600000 F60.000000\n\
    G1 X4.100000 Y4.900000 F100.000000\nG1 Z-1.800000 F60.000000\n\
    G1 X6.100000 Y4.900000 F100.000000\nG1 Z-0.600000 F60.000000\n\
    G1 X7.100000 Y4.900000 F100.000000\nG1 X7.100000 Y5.100000\nG1 X5.900000 Y5.100000\n\
    G1 Z-1.800000 F60.000000\nG1 X3.900000 Y5.100000 F100.000000\nG1 Z-0.600000 F60.000000\n\
    G1 X2.900000 Y5.100000 F100.000000\nG0 Z2.000000\nG0 Z10.000000\nM5\nM2\n";

const REPORT: &str = "pcbmill report 1\noutline frame 62 62 chains 2 passes 3 bridges 4\n\
    bridge -0.700000 -0.900000\nbridge -0.900000 4.700000\nbridge 2.900000 4.900000\n\
    bridge 7.100000 5.100000\nend\n";

fn shelf_with(alloc: Global, outline: &[u8]) -> Result<MemoryShelf, Fail> {
    let mut shelf = MemoryShelf::new(alloc);
    shelf.add("o.gbr", outline)?;
    Ok(shelf)
}

#[test]
fn bridges_cross_walks(rt: HostRuntime) -> Result<(), Fail> {
    let alloc = rt.alloc();
    let outline = format!(in alloc; "{SQUARE}{CUT_OUT}")?;
    let mut shelf = shelf_with(alloc, outline.as_bytes())?;
    let (status, lines) = carried_out(alloc, &WORDS, &mut shelf)?;
    assert_eq!(rt; status, Status::Done);
    assert_eq!(rt; lines.as_slice(), b"pcbmill: ok\n".as_slice());
    let program = shelf.get("outline.ngc").ok_or("not written")?;
    assert!(rt; program.ends_with(LAST_WALK.as_bytes()));
    assert_eq!(rt;
        shelf.get("report.txt").ok_or("not written")?,
        REPORT.as_bytes()
    );
    Ok(())
}

#[test]
fn outlines_without_a_board_are_refused(rt: HostRuntime) -> Result<(), Fail> {
    let alloc = rt.alloc();
    let open = format!(in alloc; "{SQUARE}{OPEN_CUT_OUT}")?;
    let at = Point {
        x: 2_000_000,
        y: 4_000_000,
    };
    for (outline, error, line) in [
        (
            open.as_bytes(),
            OutlineError::OpenOutline { at, degree: 1 },
            "pcbmill: outline: OpenOutline 2000000 4000000 degree 1\n",
        ),
        (
            b"M02*".as_slice(),
            OutlineError::EmptyOutline,
            "pcbmill: outline: EmptyOutline\n",
        ),
    ] {
        let mut shelf = shelf_with(alloc, outline)?;
        let (status, lines) = carried_out(alloc, &WORDS, &mut shelf)?;
        assert_eq!(rt; status, Status::Outline(error));
        assert_eq!(rt; status.number(), 6);
        assert_eq!(rt; lines.as_slice(), line.as_bytes());
        assert!(rt; shelf.get("report.txt").is_none());
    }
    Ok(())
}

// 100 mm by 100 mm at a pitch of 0.002 mm: 50,002 columns, and 253 on each side of them.
#[test]
fn a_board_may_pass_a_limit(rt: HostRuntime) -> Result<(), Fail> {
    let alloc = rt.alloc();
    let words = [
        "mill",
        "-",
        "--outline=o.gbr",
        "--pitch=0.002",
        "--cutter-diameter=1",
    ];
    let outline = "%FSLAX46Y46*%\n%MOMM*%\n%ADD10C,0.1*%\nD10*\nX0Y0D02*\nX100000000D01*\n\
        Y100000000D01*\nX0D01*\nY0D01*\nM02*\n";
    let mut shelf = shelf_with(alloc, outline.as_bytes())?;
    let (status, lines) = carried_out(alloc, &words, &mut shelf)?;
    assert_eq!(rt; status, Status::Limit(LimitHit::Side(50_508)));
    assert_eq!(rt;
        lines.as_slice(),
        b"pcbmill: limit: Side 50508\n".as_slice()
    );
    assert!(rt; shelf.get("outline.ngc").is_none());
    Ok(())
}
