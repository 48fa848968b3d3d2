// A board with copper, a hole and an outline, whose reads, writes and puts fail in turn.
use board_base::{MemoryShelf, Role};
use mill_top::Status;
use std::alloc::Global;
use std::test::Fail;
use trial_runs::{TWO_DISCS, carried_out, with_a_put_that_fails};

const JOB: &[u8] =
    b"front=a.gbr\ndrill=d.drl\noutline=o.gbr\npitch=0.2\nmill-diameters=0.4\ntolerance=0.14\n";

const DRILL: &[u8] = b"M48\nMETRIC\nT1C0.8\n%\nT1\nX1.0Y1.0\nM30\n";

const OUTLINE: &[u8] =
    b"%FSLAX46Y46*%\n%MOMM*%\n%ADD10C,0.100000*%\nD10*\nX0Y0D02*\nX10000000D01*\n\
    Y10000000D01*\nX0D01*\nY0D01*\nM02*\n";

const WORDS: [&str; 2] = ["mill", "job.txt"];

// The inputs in the order in which they are read.
const READS: [(u64, Role, &str); 4] = [
    (1, Role::Job, "job"),
    (2, Role::Front, "front"),
    (3, Role::Drill, "drill"),
    (4, Role::Outline, "outline"),
];

// The files in the order in which they are written.
const WRITES: [(u64, Role, &str, &str); 4] = [
    (1, Role::Front, "front", "front.ngc"),
    (2, Role::Drill, "drill", "drill.ngc"),
    (3, Role::Outline, "outline", "outline.ngc"),
    (4, Role::Report, "report", "report.txt"),
];

fn whole_board(alloc: Global) -> Result<MemoryShelf, Fail> {
    let mut shelf = MemoryShelf::new(alloc);
    shelf.add("job.txt", JOB)?;
    shelf.add("a.gbr", TWO_DISCS)?;
    shelf.add("d.drl", DRILL)?;
    shelf.add("o.gbr", OUTLINE)?;
    Ok(shelf)
}

#[test]
fn reads_fail_in_turn(rt: HostRuntime) -> Result<(), Fail> {
    let alloc = rt.alloc();
    for (number, role, name) in READS {
        let mut shelf = whole_board(alloc)?;
        shelf.fail_read(number);
        let (status, lines) = carried_out(alloc, &WORDS, &mut shelf)?;
        assert_eq!(rt; status, Status::ReadFault { role });
        assert_eq!(rt; status.number(), 8);
        let line = format!(in alloc; "pcbmill: read {name}\n")?;
        assert_eq!(rt; lines.as_slice(), line.as_bytes());
        for (_, _, _, file) in WRITES {
            assert!(rt; shelf.get(file).is_none());
        }
    }
    Ok(())
}

#[test]
fn writes_fail_in_turn(rt: HostRuntime) -> Result<(), Fail> {
    let alloc = rt.alloc();
    let mut whole = whole_board(alloc)?;
    let (status, _) = carried_out(alloc, &WORDS, &mut whole)?;
    assert_eq!(rt; status, Status::Done);
    for (number, role, name, _) in WRITES {
        let mut shelf = whole_board(alloc)?;
        shelf.fail_write(number);
        let (status, lines) = carried_out(alloc, &WORDS, &mut shelf)?;
        assert_eq!(rt; status, Status::WriteFault { role });
        assert_eq!(rt; status.number(), 9);
        let line = format!(in alloc; "pcbmill: write {name}\n")?;
        assert_eq!(rt; lines.as_slice(), line.as_bytes());
        for (other, _, _, file) in WRITES {
            if other < number {
                assert_eq!(rt; shelf.get(file), whole.get(file), "of {file}");
            } else if other > number {
                assert!(rt; shelf.get(file).is_none());
            }
        }
    }
    Ok(())
}

#[test]
fn the_line_fails_behind_all_files(rt: HostRuntime) -> Result<(), Fail> {
    let alloc = rt.alloc();
    let mut whole = whole_board(alloc)?;
    let (status, _) = carried_out(alloc, &WORDS, &mut whole)?;
    assert_eq!(rt; status, Status::Done);
    let mut shelf = whole_board(alloc)?;
    let (status, _) = with_a_put_that_fails(alloc, &WORDS, &mut shelf, 1)?;
    assert_eq!(rt; status, Status::WriteFault { role: Role::Lines });
    for (_, _, _, file) in WRITES {
        assert_eq!(rt; shelf.get(file), whole.get(file), "of {file}");
    }
    Ok(())
}
