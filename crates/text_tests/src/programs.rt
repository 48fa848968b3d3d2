// The bytes of a program of two cuts.
ghost use Rattle.std.specs.Prelude.{IfOk};
ghost use Rattle.std.specs.List.{All};
ghost use Rattle.mill_program.specs.Conditions.{IsCorner, IsCut, IsProgram};

use board_base::Items;
use mill_program::{Corner, Cut, Program, ToolRun, lines};
use ngc_writer::write_program;
use std::alloc::{AllocError, Global};
use std::test::Fail;

const TWO_CUTS: &str = "G17 G21 G61 G90 G94
G0 Z10.000000
M5
T1 M6
S10000 M3
G4 P1.000000
G0 Z2.000000
G0 X-0.300000 Y-0.300000
G1 Z-0.100000 F100.000000
G1 X-0.300000 Y-0.300000 F200.000000
G0 Z2.000000
G0 X0.000000 Y0.000000
G1 Z-0.100000 F100.000000
G1 X1.000000 Y0.000000 F200.000000
G1 Z-0.200000 F100.000000
G1 X1.000000 Y1.000000 F200.000000
G1 X0.000000 Y1.000000
G0 Z2.000000
G0 Z10.000000
M5
M2
";

// A corner, in micrometres.
fn corner(at: (i16, i16, i16)) -> Corner
    ensures { IsCorner result }
{
    Corner {
        x: at.0 as i64 * 1_000,
        y: at.1 as i64 * 1_000,
        z: at.2 as i64 * 1_000,
    }
}

// A cut through these corners, in micrometres.
fn cut(alloc: Global, first: (i16, i16, i16), rest: &[(i16, i16, i16)]) -> Result<Cut, AllocError>
    ensures { IfOk result IsCut }
{
    let mut corners = Cut::empty(alloc);
    corners.push(corner(first))?;
    for at in rest {
        corners.push(corner(*at))?;
    }
    Ok(corners)
}

// One tool run with these cuts.
fn program(alloc: Global, cuts: Items<Cut>) -> Result<Program, AllocError>
    requires { All IsCut cuts }
    ensures { IfOk result IsProgram }
{
    let mut runs = Items::empty(alloc);
    runs.push(ToolRun {
        tool: 1,
        speed: 10_000,
        feed: 200_000,
        plunge: 100_000,
        cuts,
    })?;
    Ok(Program {
        safe: 2_000_000,
        change: 10_000_000,
        runs,
        grid: None,
    })
}

#[test]
fn two_cuts_are_written(rt: HostRuntime) -> Result<(), Fail> {
    let alloc = rt.alloc();
    let mut cuts = Items::empty(alloc);
    cuts.push(cut(alloc, (-300, -300, -100), &[(-300, -300, -100)])?)?;
    let corners = [
        (1_000, 0, -100),
        (1_000, 0, -200),
        (1_000, 1_000, -200),
        (0, 1_000, -200),
    ];
    cuts.push(cut(alloc, (0, 0, -100), &corners)?)?;
    let lines = lines(alloc, &program(alloc, cuts)?)?;
    let bytes = write_program(alloc, &lines)?;
    assert_eq!(rt; bytes.as_slice(), TWO_CUTS.as_bytes());
    Ok(())
}
