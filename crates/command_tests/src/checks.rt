// Programs that are checked against a layer, as `mill` wrote them, edited by hand, and by other tools.
use crate::simulations::FOUR_PROBES;
use board_base::{MemoryShelf, Role};
use mill_top::{NgcOrSim, SimFault, Status};
use std::alloc::Global;
use std::test::Fail;
use trial_runs::{
    CUTS_OF_TWO_DISCS, FINE, FOOT, HEAD, JOINED_REGIONS, NEAR_DISCS, SEPARATED_REGIONS, TWO_DISCS,
    USUAL, carried_out, shelf_with, two_discs, with_a_put_that_fails,
};

// The words of a check of two discs.
const CHECK: [&str; 9] = [
    "check",
    "-",
    "front",
    "p.ngc",
    "--front=a.gbr",
    "--pitch=0.2",
    "--mill-diameters=0.4",
    "--tolerance=0.14",
    "--zwork=-0.1",
];

// A shelf with a layer and a program.
fn shelf_of(alloc: Global, layer: &[u8], program: &str) -> Result<MemoryShelf, Fail> {
    let mut shelf = shelf_with(alloc, layer)?;
    shelf.add("p.ngc", program.as_bytes())?;
    Ok(shelf)
}

// What is answered to a program between the usual first and last lines.
fn checked(
    alloc: Global,
    words: &[&str],
    first: &str,
    second: &str,
) -> Result<(Status, Vec<u8>), Fail> {
    let program = format!(in alloc; "{HEAD}{first}{second}{FOOT}")?;
    Ok(carried_out(alloc, words, &mut shelf_of(alloc, TWO_DISCS, &program)?)?)
}

// Round the first disc, and with a corner that was moved over it.
const ROUND_FIRST: &str = "G0 X-0.300000 Y-0.300000\nG1 Z-0.100000 F100.000000\n\
    G1 X0.500000 Y-0.300000 F200.000000\nG1 X0.500000 Y0.500000\nG1 X-0.300000 Y0.500000\n\
    G1 X-0.300000 Y-0.100000\nG0 Z2.000000\n";

const OVER_FIRST: &str = "G0 X-0.300000 Y-0.300000\nG1 Z-0.100000 F100.000000\n\
    G1 X0.500000 Y-0.300000 F200.000000\nG1 X0.100000 Y0.500000\nG1 X-0.300000 Y0.500000\n\
    G1 X-0.300000 Y-0.100000\nG0 Z2.000000\n";

const ROUND_SECOND: &str = "G0 X0.900000 Y-0.300000\nG1 Z-0.100000 F100.000000\n\
    G1 X1.700000 Y-0.300000 F200.000000\nG1 X1.700000 Y0.500000\nG1 X0.900000 Y0.500000\n\
    G1 X0.900000 Y-0.100000\nG0 Z2.000000\n";

// The cuts of a program of two discs in two parts, the number of the status, and the lines.
const EDITS: [(&str, &str, u8, &str); 5] = [
    (CUTS_OF_TWO_DISCS, "", 0, "pcbmill: ok\n"),
    (
        OVER_FIRST,
        ROUND_SECOND,
        11,
        "pcbmill: refused: cell 0 0 line 11\n",
    ),
    (ROUND_FIRST, "", 0, "pcbmill: ok\n"),
    ("", "", 0, "joined 1 2\npcbmill: ok\n"),
    (
        "G2 X1 Y1\n",
        CUTS_OF_TWO_DISCS,
        10,
        "pcbmill: ngc: UnknownWord line 8\n",
    ),
];

#[test]
fn edited_programs_are_checked(rt: HostRuntime) -> Result<(), Fail> {
    let alloc = rt.alloc();
    for (first, second, number, text) in EDITS {
        let (status, lines) = checked(alloc, &CHECK, first, second)?;
        assert_eq!(rt; lines.as_slice(), text.as_bytes());
        assert_eq!(rt; status.number(), number);
    }
    Ok(())
}

#[test]
fn refusals_name_the_cell_and_the_line(rt: HostRuntime) -> Result<(), Fail> {
    let alloc = rt.alloc();
    let (status, _) = checked(alloc, &CHECK, OVER_FIRST, ROUND_SECOND)?;
    let hit = Status::Cell {
        i: 0,
        j: 0,
        line: 11,
    };
    assert_eq!(rt; status, hit);
    let (status, _) = checked(alloc, &CHECK, "G2 X1 Y1\n", CUTS_OF_TWO_DISCS)?;
    let stopped = Status::Ngc {
        role: Role::Ngc,
        fault: NgcOrSim::Machine(SimFault::UnknownWord),
        line: 8,
    };
    assert_eq!(rt; status, stopped);
    Ok(())
}

// The same cuts for the board turned over: each x is the negative.
const BACK_FIRST: &str = "G0 X0.300000 Y-0.300000\nG1 Z-0.100000 F100.000000\n\
    G1 X-0.500000 Y-0.300000 F200.000000\nG1 X-0.500000 Y0.500000\nG1 X0.300000 Y0.500000\n\
    G1 X0.300000 Y-0.100000\nG0 Z2.000000\n";

const BACK_OVER_FIRST: &str = "G0 X0.300000 Y-0.300000\nG1 Z-0.100000 F100.000000\n\
    G1 X-0.500000 Y-0.300000 F200.000000\nG1 X-0.100000 Y0.500000\nG1 X0.300000 Y0.500000\n\
    G1 X0.300000 Y-0.100000\nG0 Z2.000000\n";

const BACK_SECOND: &str = "G0 X-0.900000 Y-0.300000\nG1 Z-0.100000 F100.000000\n\
    G1 X-1.700000 Y-0.300000 F200.000000\nG1 X-1.700000 Y0.500000\nG1 X-0.900000 Y0.500000\n\
    G1 X-0.900000 Y-0.100000\nG0 Z2.000000\n";

// Cuts on the back; those of the front go too near to the copper of the back.
const BACK_EDITS: [(&str, &str, u8, &str); 6] = [
    (BACK_FIRST, BACK_SECOND, 0, "pcbmill: ok\n"),
    (
        BACK_OVER_FIRST,
        BACK_SECOND,
        11,
        "pcbmill: refused: cell -1 0 line 11\n",
    ),
    (
        CUTS_OF_TWO_DISCS,
        "",
        11,
        "pcbmill: refused: cell -1 0 line 13\n",
    ),
    (BACK_FIRST, "", 0, "pcbmill: ok\n"),
    ("", "", 0, "joined 1 2\npcbmill: ok\n"),
    (
        "G2 X1 Y1\n",
        BACK_FIRST,
        10,
        "pcbmill: ngc: UnknownWord line 8\n",
    ),
];

#[test]
fn edited_programs_of_the_back_are_checked(rt: HostRuntime) -> Result<(), Fail> {
    let alloc = rt.alloc();
    let mut words = CHECK;
    words[2] = "back";
    words[4] = "--back=a.gbr";
    for (first, second, number, text) in BACK_EDITS {
        let (status, lines) = checked(alloc, &words, first, second)?;
        assert_eq!(rt; lines.as_slice(), text.as_bytes());
        assert_eq!(rt; status.number(), number);
    }
    Ok(())
}

// A layer, the sizes, and the lines of a check of the program that is written for it.
const OWN: [(&[u8], [&str; 3], &str); 4] = [
    (TWO_DISCS, USUAL, "pcbmill: ok\n"),
    (NEAR_DISCS, USUAL, "joined 1 2\npcbmill: ok\n"),
    (SEPARATED_REGIONS, FINE, "pcbmill: ok\n"),
    (JOINED_REGIONS, FINE, "joined 1 2\npcbmill: ok\n"),
];

#[test]
fn programs_that_are_written_pass(rt: HostRuntime) -> Result<(), Fail> {
    let alloc = rt.alloc();
    for (layer, [pitch, diameter, tolerance], text) in OWN {
        let mut shelf = shelf_with(alloc, layer)?;
        let words = ["mill", "-", "--front=a.gbr", pitch, diameter, tolerance];
        assert_eq!(rt; carried_out(alloc, &words, &mut shelf)?.0, Status::Done);
        let words = [
            "check",
            "-",
            "front",
            "front.ngc",
            "--front=a.gbr",
            pitch,
            diameter,
            tolerance,
        ];
        let (status, lines) = carried_out(alloc, &words, &mut shelf)?;
        assert_eq!(rt; lines.as_slice(), text.as_bytes());
        assert_eq!(rt; status, Status::Done);
    }
    Ok(())
}

#[test]
fn a_program_without_moves_leaves_all_joined(rt: HostRuntime) -> Result<(), Fail> {
    let alloc = rt.alloc();
    for layer in [SEPARATED_REGIONS, JOINED_REGIONS] {
        let mut words = CHECK;
        words[5] = FINE[0];
        words[6] = FINE[1];
        words[7] = FINE[2];
        let (status, lines) = carried_out(alloc, &words, &mut shelf_of(alloc, layer, "M2")?)?;
        assert_eq!(rt; lines.as_slice(), b"joined 1 2\npcbmill: ok\n".as_slice());
        assert_eq!(rt; status, Status::Done);
    }
    Ok(())
}

// The same cuts in the manner of another tool: numbers of lines, comments, small letters, and no word twice.
const BY_HAND: &str = "%\r\n\
    (two discs, once round each)\r\n\
    N10 g90 g21 ; millimetres\r\n\
    N20 g0 z5\r\n\
    m3 s8000\r\n\
    x-.3 y-.3\r\n\
    g1 z-.1 f60\r\n\
    x.5 f120\r\n\
    y.5\r\n\
    x-.3\r\n\
    y-.3\r\n\
    g0 z5\r\n\
    x.9\r\n\
    g1 z-.1 f60\r\n\
    x1.7 f120\r\n\
    y.5\r\n\
    x.9\r\n\
    y-.3\r\n\
    g0 z5 m5\r\n\
    m30\r\n\
    %";

#[test]
fn programs_of_other_tools_are_checked(rt: HostRuntime) -> Result<(), Fail> {
    let alloc = rt.alloc();
    let (status, lines) = carried_out(alloc, &CHECK, &mut shelf_of(alloc, TWO_DISCS, BY_HAND)?)?;
    assert_eq!(rt; lines.as_slice(), b"pcbmill: ok\n".as_slice());
    assert_eq!(rt; status, Status::Done);
    Ok(())
}

// Answers for four probes, and the lines.
const PROBES: [(&str, &str); 2] = [
    ("0\n0.1\n-0.1\n0.05\n", "joined 1 2\npcbmill: ok\n"),
    ("0\n0.1\n-0.1\n", "pcbmill: ngc: NoProbeAnswer line 13\n"),
];

#[test]
fn probes_of_a_checked_program_are_answered(rt: HostRuntime) -> Result<(), Fail> {
    let alloc = rt.alloc();
    for (probes, text) in PROBES {
        let mut shelf = shelf_of(alloc, TWO_DISCS, FOUR_PROBES)?;
        shelf.add("heights.txt", probes.as_bytes())?;
        let words = [
            "check",
            "-",
            "front",
            "p.ngc",
            "heights.txt",
            "--front=a.gbr",
            "--pitch=0.2",
            "--mill-diameters=0.4",
        ];
        let (_, lines) = carried_out(alloc, &words, &mut shelf)?;
        assert_eq!(rt; lines.as_slice(), text.as_bytes());
    }
    Ok(())
}

// Which put fails, and what the sink got.
const PUTS: [(u64, &str); 2] = [
    (1, "pcbmill: write lines\n"),
    (2, "joined 1 2\npcbmill: write lines\n"),
];

#[test]
fn lines_of_a_check_that_are_not_put_are_told(rt: HostRuntime) -> Result<(), Fail> {
    let alloc = rt.alloc();
    for (put, text) in PUTS {
        let mut shelf = shelf_of(alloc, TWO_DISCS, "M2\n")?;
        let (status, lines) = with_a_put_that_fails(alloc, &CHECK, &mut shelf, put)?;
        assert_eq!(rt; status, Status::WriteFault { role: Role::Lines });
        assert_eq!(rt; lines.as_slice(), text.as_bytes());
    }
    Ok(())
}
