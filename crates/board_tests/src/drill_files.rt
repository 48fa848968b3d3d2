// Drill files as CAD programs write them, and the order of holes.
ghost use Rattle.std.specs.Prelude.{◌≤◌, length, IfOk};
ghost use Rattle.path_order.specs.Orders.{ArePlaces};

use board_base::{MemoryShelf, Point};
use mill_top::Status;
use path_order::improve;
use std::alloc::{AllocError, Global};
use std::test::Fail;
use trial_runs::carried_out;

// Plated and unplated holes and slots in one file: with points, and with digits whose leading or trailing zeros are left
// out.
const MERGED: [&str; 3] = [
    "M48\n; DRILL file {KiCad 7.0.0} date Sat Jan  7 12:00:00 2023\n\
        ; FORMAT={-:-/ absolute / metric / decimal}\n\
        ; #@! TF.GenerationSoftware,Kicad,Pcbnew,7.0.0\n; #@! TF.FileFunction,MixedPlating,1,2\n\
        FMAT,2\nMETRIC\n; #@! TA.AperFunction,Plated,PTH,ComponentDrill\nT1C0.800\n\
        ; #@! TA.AperFunction,NonPlated,NPTH,ComponentDrill\nT2C1.000\n%\nG90\nG05\nT1\n\
        X1.0Y-1.0\nX2.5Y-1.0\nT2\nX5.0Y-1.0G85X5.0Y-3.0\nG05\nT0\nM30\n",
    "M48\n; FORMAT={3:3/ absolute / metric / suppress leading zeros}\nFMAT,2\nMETRIC,TZ\n\
        T1C0.800\nT2C1.000\n%\nG90\nG05\nT1\nX1000Y-1000\nX2500Y-1000\nT2\n\
        X5000Y-1000G85X5000Y-3000\nG05\nT0\nM30\n",
    "M48\n; FORMAT={3:3/ absolute / metric / suppress trailing zeros}\nFMAT,2\nMETRIC,LZ\n\
        T1C0.800\nT2C1.000\n%\nG90\nG05\nT1\nX001Y-001\nX0025Y-001\nT2\n\
        X005Y-001G85X005Y-003\nG05\nT0\nM30\n",
];

// The plated ones alone.
const SEPARATE: &str = "M48\n; #@! TF.FileFunction,Plated,1,2,PTH\nFMAT,2\nMETRIC\n\
    ; #@! TA.AperFunction,Plated,PTH,ComponentDrill\nT1C0.800\n%\nG90\nG05\nT1\n\
    X1.0Y-1.0\nX2.5Y-1.0\nT0\nM30\n";

const HOLES: &str =
    "G17 G21 G61 G90 G94\nG0 Z10.000000\nM5\nT1 M6\nS10000 M3\nG4 P1.000000\nG0 Z2.000000\n\
    G0 X1.000000 Y-1.000000\nG1 Z-1.800000 F100.000000\nG0 Z2.000000\n\
    G0 X2.500000 Y-1.000000\nG1 Z-1.800000 F100.000000\nG0 Z2.000000\n";

const SLOT: &str = "G0 Z10.000000\nM5\nT2 M6\nS10000 M3\nG4 P1.000000\nG0 Z2.000000\n\
    G0 X5.000000 Y-3.000000\nG1 Z-1.800000 F100.000000\nG1 X5.000000 Y-1.000000 F100.000000\nG0 Z2.000000\n";

const END: &str = "G0 Z10.000000\nM5\nM2\n";

// The program of a drill file.
fn drilled(alloc: Global, drill: &str) -> Result<Vec<u8>, Fail> {
    let mut shelf = MemoryShelf::new(alloc);
    shelf.add("d.drl", drill.as_bytes())?;
    let (status, _) = carried_out(alloc, &["mill", "-", "--drill=d.drl"], &mut shelf)?;
    if status != Status::Done {
        return Err("not drilled".into());
    }
    Ok(shelf.get("drill.ngc").ok_or("not written")?.to_vec(alloc)?)
}

#[test]
fn files_in_the_manner_of_kicad_are_drilled(rt: HostRuntime) -> Result<(), Fail> {
    let alloc = rt.alloc();
    let merged = format!(in alloc; "{HOLES}{SLOT}{END}")?;
    for drill in MERGED {
        let program = drilled(alloc, drill)?;
        assert_eq!(rt; program.as_slice(), merged.as_bytes());
    }
    let separate = format!(in alloc; "{HOLES}{END}")?;
    let program = drilled(alloc, SEPARATE)?;
    assert_eq!(rt; program.as_slice(), separate.as_bytes());
    Ok(())
}

#[test]
fn zeros_are_left_out_on_either_side(rt: HostRuntime) -> Result<(), Fail> {
    let alloc = rt.alloc();
    for drill in [
        "M48\nINCH,TZ\nT1C0.04\n%\nT1\nX10000Y5000\nM30\n",
        "M48\nINCH,LZ\nT1C0.04\n%\nT1\nX01Y005\nM30\n",
    ] {
        let program = String::from_utf8(drilled(alloc, drill)?).or(Err("no text"))?;
        assert!(rt; program.contains("\nG0 X25.400000 Y12.700000\n"));
    }
    Ok(())
}

// Four points on a line.
fn four_points(alloc: Global) -> Result<Vec<Point>, AllocError>
    ensures { IfOk result (λ points. ArePlaces points.items × (length points.items ≤ 10000)) }
{
    let mut points = Vec::new(alloc);
    points.push(Point { x: 0, y: 0 })?;
    points.push(Point { x: 3_000_000, y: 0 })?;
    points.push(Point {
        x: -4_000_000,
        y: 0,
    })?;
    points.push(Point { x: 5_000_000, y: 0 })?;
    Ok(points)
}

#[test]
fn four_points_are_toured(rt: HostRuntime) -> Result<(), Fail> {
    let alloc = rt.alloc();
    let points = four_points(alloc)?;
    let (order, sweeps) = improve(alloc, &points)?;
    assert_eq!(rt; order.as_slice(), [3, 1, 0, 2].as_slice());
    assert_eq!(rt; sweeps.shortened, 1);
    assert!(rt; sweeps.stable);
    Ok(())
}
