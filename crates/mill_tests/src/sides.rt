// Sides that are milled: programs and reports.
use mill_top::Status;
use std::test::Fail;
use trial_runs::{
    CONTOUR_THROUGH_A_CORNER, CUTS_OF_TWO_DISCS, FINE, FOOT, HEAD, HOLE_WITH_A_LONE_PAD,
    JOINED_REGIONS, NEAR_DISCS, ONE_DISC, POINT, SEPARATED_REGIONS, TRACK, TWO_DISCS, USUAL, WORDS,
    carried_out, shelf_with, two_discs,
};

const COARSE: [&str; 3] = ["--pitch=0.2", "--mill-diameters=0.4", "--tolerance=0"];

// A front, the sizes of the command, and the line of the counts and the groups in the report.
const REPORTS: [(&[u8], [&str; 3], &str); 10] = [
    (
        TWO_DISCS,
        USUAL,
        "front frame 13 7 kept 2 islands 2 centres 32 chains 2\n",
    ),
    (
        ONE_DISC,
        USUAL,
        "front frame 7 7 kept 1 islands 1 centres 16 chains 1\n",
    ),
    (
        POINT,
        USUAL,
        "front frame 0 0 kept 0 islands 0 centres 0 chains 0\n",
    ),
    (
        NEAR_DISCS,
        USUAL,
        "front frame 9 7 kept 2 islands 2 centres 20 chains 1\nfront joined 1 2\n",
    ),
    (
        TRACK,
        USUAL,
        "front frame 28 16 kept 152 islands 1 centres 88 chains 1\n",
    ),
    (
        b"M02*",
        USUAL,
        "front frame 0 0 kept 0 islands 0 centres 0 chains 0\n",
    ),
    (
        SEPARATED_REGIONS,
        FINE,
        "front frame 62 32 kept 968 islands 2 centres 232 chains 1\n",
    ),
    (
        JOINED_REGIONS,
        FINE,
        "front frame 60 32 kept 968 islands 2 centres 176 chains 1\nfront joined 1 2\n",
    ),
    (
        CONTOUR_THROUGH_A_CORNER,
        COARSE,
        "front frame 30 30 kept 420 islands 1 centres 120 chains 2\n",
    ),
    (
        HOLE_WITH_A_LONE_PAD,
        COARSE,
        "front frame 40 40 kept 596 islands 2 centres 260 chains 3\n",
    ),
];

#[test]
fn two_discs_are_milled(rt: HostRuntime) -> Result<(), Fail> {
    let alloc = rt.alloc();
    let mut shelf = two_discs(alloc)?;
    let (status, lines) = carried_out(alloc, &WORDS, &mut shelf)?;
    assert_eq!(rt; status, Status::Done);
    assert_eq!(rt; lines.as_slice(), b"pcbmill: ok\n".as_slice());
    let program = format!(in alloc; "{HEAD}{CUTS_OF_TWO_DISCS}{FOOT}")?;
    assert_eq!(rt;
        shelf.get("front.ngc").ok_or("not written")?,
        program.as_bytes()
    );
    Ok(())
}

// Words behind those of two discs, the run that they cut behind the discs, and the line of the report.
const CLEARING_RUN: &str = "G0 X0.500000 Y0.100000\nG1 Z-0.100000 F100.000000\n\
    G1 X0.900000 Y0.100000 F200.000000\nG0 Z2.000000\n";

#[test]
fn rows_between_two_discs_are_cleared(rt: HostRuntime) -> Result<(), Fail> {
    let alloc = rt.alloc();
    let mut shelf = two_discs(alloc)?;
    let [a, b, c, d, e, f, g] = WORDS;
    let (status, _) = carried_out(alloc, &[a, b, c, d, e, f, g, "--clear=true"], &mut shelf)?;
    assert_eq!(rt; status, Status::Done);
    let program = format!(in alloc; "{HEAD}{CUTS_OF_TWO_DISCS}{CLEARING_RUN}{FOOT}")?;
    assert_eq!(rt;
        shelf.get("front.ngc").ok_or("not written")?,
        program.as_bytes()
    );
    assert_eq!(rt;
        shelf.get("report.txt").ok_or("not written")?,
        b"pcbmill report 1\nfront frame 13 7 kept 2 islands 2 centres 33 chains 2\nend\n".as_slice()
    );
    Ok(())
}

#[test]
fn the_back_is_mirrored(rt: HostRuntime) -> Result<(), Fail> {
    let alloc = rt.alloc();
    let mut shelf = two_discs(alloc)?;
    let [a, b, _, d, e, f, g] = WORDS;
    let words = [a, b, "--back=a.gbr", d, e, f, g, "--basename=board"];
    let (status, _) = carried_out(alloc, &words, &mut shelf)?;
    assert_eq!(rt; status, Status::Done);
    let program = shelf.get("board_back.ngc").ok_or("not written")?;
    let first = b"G0 X-0.500000 Y-0.300000\n".as_slice();
    assert!(rt; program.get(HEAD.len()..HEAD.len() + first.len()) == Some(first));
    assert_eq!(rt;
        shelf.get("board_report.txt").ok_or("not written")?,
        b"pcbmill report 1\nback frame 13 7 kept 2 islands 2 centres 32 chains 2\nend\n".as_slice()
    );
    assert!(rt; shelf.get("front.ngc").is_none());
    Ok(())
}

#[test]
fn a_further_pass_widens_the_frame(rt: HostRuntime) -> Result<(), Fail> {
    let alloc = rt.alloc();
    let mut shelf = two_discs(alloc)?;
    let [a, b, c, d, e, f, g] = WORDS;
    let words = [
        a,
        b,
        c,
        d,
        e,
        f,
        g,
        "--extra-passes=1",
        "--milling-overlap=0",
    ];
    let (status, _) = carried_out(alloc, &words, &mut shelf)?;
    assert_eq!(rt; status, Status::Done);
    let report = shelf.get("report.txt").ok_or("not written")?;
    assert!(rt;
        report.starts_with(b"pcbmill report 1\nfront frame 17 11 kept 2 islands 2 ".as_slice())
    );
    Ok(())
}

#[test]
fn pads_and_a_track_are_one_island_at_defaults(rt: HostRuntime) -> Result<(), Fail> {
    let alloc = rt.alloc();
    let mut shelf = shelf_with(alloc, TRACK)?;
    let (status, lines) = carried_out(alloc, &["mill", "-", "--front=a.gbr"], &mut shelf)?;
    assert_eq!(rt; status, Status::Done);
    assert_eq!(rt; lines.as_slice(), b"pcbmill: ok\n".as_slice());
    let report = String::from_utf8(shelf.get("report.txt").ok_or("not written")?.to_vec(alloc)?)
        .ok()
        .ok_or("not a text")?;
    assert!(rt; report.contains(" islands 1 "));
    assert!(rt; !report.contains("joined"));
    Ok(())
}

#[test]
fn reports_tell_the_counts_and_the_groups(rt: HostRuntime) -> Result<(), Fail> {
    let alloc = rt.alloc();
    for (front, [pitch, diameter, tolerance], lines) in REPORTS {
        let mut shelf = shelf_with(alloc, front)?;
        let mut words = WORDS;
        words[3] = pitch;
        words[4] = diameter;
        words[5] = tolerance;
        let (status, _) = carried_out(alloc, &words, &mut shelf)?;
        assert_eq!(rt; status, Status::Done);
        let report = format!(in alloc; "pcbmill report 1\n{lines}end\n")?;
        assert_eq!(rt;
            shelf.get("report.txt").ok_or("not written")?,
            report.as_bytes()
        );
    }
    Ok(())
}
