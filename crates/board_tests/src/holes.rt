// Boards that are drilled.
use board_base::MemoryShelf;
use mill_top::{DrillError, DrillKind, LimitHit, Status};
use std::alloc::Global;
use std::test::Fail;
use trial_runs::carried_out;

// Two holes, one of them written twice, and a slot that is routed.
pub const HOLES_AND_A_ROUTED_SLOT: &str =
    "M48\n; DRILL file\nFMAT,2\nMETRIC\nT1C0.800\nT2C1.000\n%\nG90\nG05\nT1\n\
    X2.0Y1.0\nX1.0Y1.0\nX2.0Y1.0\nT2\nG00X5.0Y1.0\nM15\nG01X5.0Y3.0\nM16\nG05\nT0\nM30\n";

const DRILLED: &str =
    "G17 G21 G61 G90 G94\nG0 Z10.000000\nM5\nT1 M6\nS10000 M3\nG4 P1.000000\nG0 Z2.000000\n\
    G0 X1.000000 Y1.000000\nG1 Z-1.800000 F100.000000\nG0 Z2.000000\n\
    G0 X2.000000 Y1.000000\nG1 Z-1.800000 F100.000000\nG0 Z2.000000\n\
    G0 Z10.000000\nM5\nT2 M6\nS10000 M3\nG4 P1.000000\nG0 Z2.000000\n\
    G0 X5.000000 Y1.000000\nG1 Z-1.800000 F100.000000\nG1 X5.000000 Y3.000000 F100.000000\nG0 Z2.000000\n\
    G0 Z10.000000\nM5\nM2\n";

const REPORT: &str =
    "pcbmill report 1\ndrill tools 2 holes 2 slots 1\ndrill T1 0.800 holes 2 slots 0\n\
    drill T2 1.000 holes 0 slots 1\nend\n";

const WORDS: [&str; 3] = ["mill", "-", "--drill=d.drl"];

fn shelf_with(alloc: Global, drill: &[u8]) -> Result<MemoryShelf, Fail> {
    let mut shelf = MemoryShelf::new(alloc);
    shelf.add("d.drl", drill)?;
    Ok(shelf)
}

#[test]
fn holes_and_a_routed_slot_are_drilled(rt: HostRuntime) -> Result<(), Fail> {
    let alloc = rt.alloc();
    let behind_a_percent = format!(in alloc; "%\n{HOLES_AND_A_ROUTED_SLOT}")?;
    for drill in [HOLES_AND_A_ROUTED_SLOT, behind_a_percent.as_str()] {
        let mut shelf = shelf_with(alloc, drill.as_bytes())?;
        let (status, lines) = carried_out(alloc, &WORDS, &mut shelf)?;
        assert_eq!(rt; status, Status::Done);
        assert_eq!(rt; lines.as_slice(), b"pcbmill: ok\n".as_slice());
        assert_eq!(rt;
            shelf.get("drill.ngc").ok_or("not written")?,
            DRILLED.as_bytes()
        );
        assert_eq!(rt;
            shelf.get("report.txt").ok_or("not written")?,
            REPORT.as_bytes()
        );
    }
    Ok(())
}

#[test]
fn drill_files_without_an_end_are_refused(rt: HostRuntime) -> Result<(), Fail> {
    let alloc = rt.alloc();
    let mut shelf = shelf_with(alloc, b"M48\nMETRIC\n%\n")?;
    let (status, lines) = carried_out(alloc, &WORDS, &mut shelf)?;
    let kind = DrillKind::NoEnd;
    assert_eq!(rt; status, Status::Drill(DrillError { kind, at: 13 }));
    assert_eq!(rt; status.number(), 5);
    assert_eq!(rt;
        lines.as_slice(),
        b"pcbmill: drill: NoEnd at 13\n".as_slice()
    );
    assert!(rt; shelf.get("report.txt").is_none());
    Ok(())
}

#[test]
fn too_many_holes_are_a_limit(rt: HostRuntime) -> Result<(), Fail> {
    let alloc = rt.alloc();
    let mut drill = b"M48\nMETRIC\nT1C0.8\n%\nT1\n".to_vec(alloc)?;
    for _ in 0..10_001 {
        drill.extend_from_slice(b"X1.0\n")?;
    }
    drill.extend_from_slice(b"M30\n")?;
    let (status, lines) = carried_out(alloc, &WORDS, &mut shelf_with(alloc, &drill)?)?;
    assert_eq!(rt; status, Status::Limit(LimitHit::Holes));
    assert_eq!(rt; lines.as_slice(), b"pcbmill: limit: Holes\n".as_slice());
    Ok(())
}
