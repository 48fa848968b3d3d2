// Boards in several tiles.
use crate::holes::HOLES_AND_A_ROUTED_SLOT;
use board_base::MemoryShelf;
use mill_top::{LimitHit, Status};
use std::alloc::Global;
use std::test::Fail;
use trial_runs::{FOOT, HEAD, WORDS, carried_out, shelf_with, two_discs};

// The cut round a disc, from its west column to its east column; the rows are those of two discs.
fn square(alloc: Global, west: &str, east: &str) -> Result<String, Fail> {
    let bottom = format!(in alloc;
        "G0 X{west} Y-0.300000\nG1 Z-0.100000 F100.000000\nG1 X{east} Y-0.300000 F200.000000\n"
    )?;
    let top = format!(in alloc;
        "G1 X{east} Y0.500000\nG1 X{west} Y0.500000\nG1 X{west} Y-0.100000\nG0 Z2.000000\n"
    )?;
    Ok(format!(in alloc; "{bottom}{top}")?)
}

// A side of two discs, whose frame has 13 by 7 cells, so that the second tile stands 2.6 mm beside the first one: the
// words of the side, its program, and the west and east columns of all cuts.
const SIDES: [(&str, &str, [(&str, &str); 4]); 2] = [
    (
        "--front=a.gbr",
        "front.ngc",
        [
            ("-0.300000", "0.500000"),
            ("0.900000", "1.700000"),
            ("2.300000", "3.100000"),
            ("3.500000", "4.300000"),
        ],
    ),
    (
        "--back=a.gbr",
        "back.ngc",
        [
            ("-0.500000", "0.300000"),
            ("-1.700000", "-0.900000"),
            ("-3.100000", "-2.300000"),
            ("-4.300000", "-3.500000"),
        ],
    ),
];

#[test]
fn two_discs_are_milled_in_two_tiles(rt: HostRuntime) -> Result<(), Fail> {
    let alloc = rt.alloc();
    let [a, b, _, d, e, f, g] = WORDS;
    for (side, name, cuts) in SIDES {
        let mut shelf = two_discs(alloc)?;
        let (status, _) = carried_out(alloc, &[a, b, side, d, e, f, g, "--tile-x=2"], &mut shelf)?;
        assert_eq!(rt; status, Status::Done);
        let mut program = String::from_str(alloc, HEAD)?;
        for (west, east) in cuts {
            program.push_str(square(alloc, west, east)?.as_str())?;
        }
        program.push_str(FOOT)?;
        assert_eq!(rt; shelf.get(name).ok_or("not written")?, program.as_bytes());
    }
    Ok(())
}

// The holes take 4 by 2 mm, so that with 2 mm between them the tiles of cells of 0.02 mm stand 6 mm apart.
const DRILLED_TWICE: &str =
    "G17 G21 G61 G90 G94\nG0 Z10.000000\nM5\nT1 M6\nS10000 M3\nG4 P1.000000\nG0 Z2.000000\n\
    G0 X1.000000 Y1.000000\nG1 Z-1.800000 F100.000000\nG0 Z2.000000\n\
    G0 X2.000000 Y1.000000\nG1 Z-1.800000 F100.000000\nG0 Z2.000000\n\
    G0 X7.000000 Y1.000000\nG1 Z-1.800000 F100.000000\nG0 Z2.000000\n\
    G0 X8.000000 Y1.000000\nG1 Z-1.800000 F100.000000\nG0 Z2.000000\n\
    G0 Z10.000000\nM5\nT2 M6\nS10000 M3\nG4 P1.000000\nG0 Z2.000000\n\
    G0 X5.000000 Y1.000000\nG1 Z-1.800000 F100.000000\nG1 X5.000000 Y3.000000 F100.000000\nG0 Z2.000000\n\
    G0 X11.000000 Y1.000000\nG1 Z-1.800000 F100.000000\nG1 X11.000000 Y3.000000 F100.000000\nG0 Z2.000000\n\
    G0 Z10.000000\nM5\nM2\n";

#[test]
fn holes_are_drilled_in_two_tiles(rt: HostRuntime) -> Result<(), Fail> {
    let alloc = rt.alloc();
    let mut shelf = MemoryShelf::new(alloc);
    shelf.add("d.drl", HOLES_AND_A_ROUTED_SLOT.as_bytes())?;
    let words = ["mill", "-", "--drill=d.drl", "--tile-x=2"];
    let (status, _) = carried_out(alloc, &words, &mut shelf)?;
    assert_eq!(rt; status, Status::Done);
    assert_eq!(rt;
        shelf.get("drill.ngc").ok_or("not written")?,
        DRILLED_TWICE.as_bytes()
    );
    Ok(())
}

// A disc at (498.1, 0.1), whose frame is 1.4 mm wide and whose first corner is at (497.7, -0.3).
const FAR_DISC: &[u8] =
    b"%FSLAX46Y46*%\n%MOMM*%\n%ADD10C,0.100000*%\nD10*\nX498100000Y100000D03*\nM02*\n";

#[test]
fn tiles_past_the_range_are_a_limit(rt: HostRuntime) -> Result<(), Fail> {
    let alloc = rt.alloc();
    let [a, b, c, d, e, f, g] = WORDS;
    let mut shelf = shelf_with(alloc, FAR_DISC)?;
    let (status, _) = carried_out(alloc, &[a, b, c, d, e, f, g, "--tile-x=2"], &mut shelf)?;
    assert_eq!(rt; status, Status::Done);
    let mut shelf = shelf_with(alloc, FAR_DISC)?;
    let (status, lines) = carried_out(alloc, &[a, b, c, d, e, f, g, "--tile-x=3"], &mut shelf)?;
    let past = LimitHit::Tile {
        x: 500_500_000,
        y: -300_000,
    };
    assert_eq!(rt; status, Status::Limit(past));
    assert_eq!(rt;
        lines.as_slice(),
        b"pcbmill: limit: Tile 500500000 -300000\n".as_slice()
    );
    assert!(rt; shelf.get("front.ngc").is_none());
    Ok(())
}
