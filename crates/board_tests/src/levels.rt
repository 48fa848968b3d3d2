// Fronts that follow the surface of the board.
use board_base::MemoryShelf;
use mill_top::{LimitHit, Status};
use std::alloc::Global;
use std::test::Fail;
use trial_runs::{ONE_DISC, TWO_DISCS, WORDS, carried_out, shelf_with};

// One disc over two by two probes, 1.2 mm from one another, with each move in pieces of one cell.
const LEVELLED_DISC: &str = "G17 G21 G61 G90 G94\n\
    G0 Z10.000000\n\
    M5\n\
    T1 M6\n\
    G0 Z2.000000\n\
    G0 X-0.500000 Y-0.500000\n\
    G38.2 Z-0.500000 F50.000000\n\
    #101=#5063\n\
    G0 Z2.000000\n\
    G0 X0.700000 Y-0.500000\n\
    G38.2 Z-0.500000 F50.000000\n\
    #102=#5063\n\
    G0 Z2.000000\n\
    G0 X-0.500000 Y0.700000\n\
    G38.2 Z-0.500000 F50.000000\n\
    #103=#5063\n\
    G0 Z2.000000\n\
    G0 X0.700000 Y0.700000\n\
    G38.2 Z-0.500000 F50.000000\n\
    #104=#5063\n\
    G0 Z2.000000\n\
    S10000 M3\n\
    G4 P1.000000\n\
    G0 Z2.000000\n\
    G0 X-0.300000 Y-0.300000\n\
    G1 Z[-0.100000+0.693889*#101+0.139111*#102+0.139111*#103+0.027889*#104] F100.000000\n\
    G1 X-0.100000 Y-0.300000 Z[-0.100000+0.555611*#101+0.277389*#102+0.111389*#103+0.055611*#104] F200.000000\n\
    G1 X0.100000 Y-0.300000 Z[-0.100000+0.416500*#101+0.416500*#102+0.083500*#103+0.083500*#104]\n\
    G1 X0.300000 Y-0.300000 Z[-0.100000+0.277389*#101+0.555611*#102+0.055611*#103+0.111389*#104]\n\
    G1 X0.500000 Y-0.300000 Z[-0.100000+0.139111*#101+0.693889*#102+0.027889*#103+0.139111*#104]\n\
    G1 X0.500000 Y-0.100000 Z[-0.100000+0.111389*#101+0.555611*#102+0.055611*#103+0.277389*#104]\n\
    G1 X0.500000 Y0.100000 Z[-0.100000+0.083500*#101+0.416500*#102+0.083500*#103+0.416500*#104]\n\
    G1 X0.500000 Y0.300000 Z[-0.100000+0.055611*#101+0.277389*#102+0.111389*#103+0.555611*#104]\n\
    G1 X0.500000 Y0.500000 Z[-0.100000+0.027889*#101+0.139111*#102+0.139111*#103+0.693889*#104]\n\
    G1 X0.300000 Y0.500000 Z[-0.100000+0.055611*#101+0.111389*#102+0.277389*#103+0.555611*#104]\n\
    G1 X0.100000 Y0.500000 Z[-0.100000+0.083500*#101+0.083500*#102+0.416500*#103+0.416500*#104]\n\
    G1 X-0.100000 Y0.500000 Z[-0.100000+0.111389*#101+0.055611*#102+0.555611*#103+0.277389*#104]\n\
    G1 X-0.300000 Y0.500000 Z[-0.100000+0.139111*#101+0.027889*#102+0.693889*#103+0.139111*#104]\n\
    G1 X-0.300000 Y0.300000 Z[-0.100000+0.277389*#101+0.055611*#102+0.555611*#103+0.111389*#104]\n\
    G1 X-0.300000 Y0.100000 Z[-0.100000+0.416500*#101+0.083500*#102+0.416500*#103+0.083500*#104]\n\
    G1 X-0.300000 Y-0.100000 Z[-0.100000+0.555611*#101+0.111389*#102+0.277389*#103+0.055611*#104]\n\
    G0 Z2.000000\n\
    G0 Z10.000000\n\
    M5\n\
    M2\n";

// A shelf with a front.
fn levelled(
    alloc: Global,
    front: &[u8],
    more: &[&str],
) -> Result<(Status, MemoryShelf, Vec<u8>), Fail> {
    let mut shelf = shelf_with(alloc, front)?;
    let [a, b, c, d, e, f, g] = WORDS;
    let mut words = [a, b, c, d, e, f, g, "--al-front=true"].to_vec(alloc)?;
    words.extend_from_slice(more)?;
    let (status, lines) = carried_out(alloc, &words, &mut shelf)?;
    Ok((status, shelf, lines))
}

#[test]
fn a_front_follows_the_surface(rt: HostRuntime) -> Result<(), Fail> {
    let (status, shelf, _) = levelled(rt.alloc(), ONE_DISC, &[])?;
    assert_eq!(rt; status, Status::Done);
    assert_eq!(rt;
        shelf.get("front.ngc").ok_or("not written")?,
        LEVELLED_DISC.as_bytes()
    );
    Ok(())
}

#[test]
fn a_back_does_not(rt: HostRuntime) -> Result<(), Fail> {
    let alloc = rt.alloc();
    let words = [
        "mill",
        "-",
        "--back=a.gbr",
        "--pitch=0.2",
        "--mill-diameters=0.4",
    ];
    let mut plain = shelf_with(alloc, ONE_DISC)?;
    let mut asked = shelf_with(alloc, ONE_DISC)?;
    carried_out(alloc, &words, &mut plain)?;
    let [a, b, c, d, e] = words;
    carried_out(alloc, &[a, b, c, d, e, "--al-front=true"], &mut asked)?;
    assert_eq!(rt;
        asked.get("back.ngc").ok_or("not written")?,
        plain.get("back.ngc").ok_or("not written")?
    );
    Ok(())
}

// Answers for the four probes, and the lines of the check.
const ANSWERS: [(&str, &str); 3] = [
    ("0\n0.1\n-0.1\n0.05\n", "pcbmill: ok\n"),
    ("0\n0.1\n-0.1\n", "pcbmill: ngc: NoProbeAnswer line 0\n"),
    ("-0.6\n0.1\n-0.1\n0\n", "pcbmill: ngc: ProbeMissed line 7\n"),
];

#[test]
fn a_levelled_program_passes_with_answers_that_fit(rt: HostRuntime) -> Result<(), Fail> {
    let alloc = rt.alloc();
    let [_, _, c, d, e, f, g] = WORDS;
    for (answers, text) in ANSWERS {
        let (_, mut shelf, _) = levelled(alloc, ONE_DISC, &[])?;
        shelf.add("heights.txt", answers.as_bytes())?;
        let words = [
            "check",
            "-",
            "front",
            "front.ngc",
            "heights.txt",
            c,
            d,
            e,
            f,
            g,
            "--al-front=true",
        ];
        let (_, lines) = carried_out(alloc, &words, &mut shelf)?;
        assert_eq!(rt; lines.as_slice(), text.as_bytes());
    }
    Ok(())
}

// Two discs so far from one another that the frame is 40 mm wide and high.
const FAR_DISCS: &[u8] =
    b"%FSLAX46Y46*%\n%MOMM*%\n%ADD10C,0.100000*%\nD10*\nX100000Y100000D03*\nX38900000Y38900000D03*\nM02*\n";

// Round the second of them, over probes 10 mm from one another, where no move is long enough to be cut into pieces.
const LAST_CUT: &str = "G0 X38.500000 Y38.500000\n\
    G1 Z[-0.100000+0.010000*#119+0.090000*#120+0.090000*#124+0.810000*#125] F100.000000\n\
    G1 X39.300000 Y38.500000 Z[-0.100000+0.002000*#119+0.098000*#120+0.018000*#124+0.882000*#125] F200.000000\n\
    G1 X39.300000 Y39.300000 Z[-0.100000+0.000400*#119+0.019600*#120+0.019600*#124+0.960400*#125]\n\
    G1 X38.500000 Y39.300000 Z[-0.100000+0.002000*#119+0.018000*#120+0.098000*#124+0.882000*#125]\n\
    G1 X38.500000 Y38.700000 Z[-0.100000+0.008000*#119+0.072000*#120+0.092000*#124+0.828000*#125]\n\
    G0 Z2.000000\nG0 Z10.000000\nM5\nM2\n";

#[test]
fn short_moves_stay_whole(rt: HostRuntime) -> Result<(), Fail> {
    let (status, shelf, _) = levelled(rt.alloc(), FAR_DISCS, &[])?;
    assert_eq!(rt; status, Status::Done);
    let program = shelf.get("front.ngc").ok_or("not written")?;
    assert!(rt; program.ends_with(LAST_CUT.as_bytes()));
    Ok(())
}

#[test]
fn more_than_900_probes_are_a_limit(rt: HostRuntime) -> Result<(), Fail> {
    let (status, shelf, lines) = levelled(rt.alloc(), FAR_DISCS, &["--al-x=1", "--al-y=1"])?;
    assert_eq!(rt; status, Status::Limit(LimitHit::Probes(1681)));
    assert_eq!(rt;
        lines.as_slice(),
        b"pcbmill: limit: Probes 1681\n".as_slice()
    );
    assert!(rt; shelf.get("front.ngc").is_none());
    let (status, _, _) = levelled(rt.alloc(), TWO_DISCS, &["--al-x=1", "--al-y=1"])?;
    assert_eq!(rt; status, Status::Done);
    Ok(())
}
